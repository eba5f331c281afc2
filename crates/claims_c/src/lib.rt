// The C interface of the check of claims. A slice passes as a pointer and then a length.
#![tactic(auto)]

ghost use Rattle.std.specs.Prelude.{◌≡◌};
ghost use Rattle.claims.specs.Numbers.{packed};

// include/ulmerascio.h says how to call it and how to take the number apart.
#[unsafe(no_mangle)]
pub extern "C" fn ulmerascio_check_claims(table: &[u8], claims: &[u32]) -> u64
    ensures { result ≡ packed table.now claims.now }
{
    claims::packed_claims(table, claims)
}
