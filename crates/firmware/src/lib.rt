// The dock controller's C interface. A slice passes as a pointer and then a length.
#![tactic(auto)]

ghost use Rattle.equation.specs.declared.Start.TheVariants.{EveryCost};
ghost use Rattle.response.specs.Packing.{PackedOutcome};

use response::Start;

// The rounds are those from the default start. include/ulmerascio.h says how to call it and how to take the number apart.
#[unsafe(no_mangle)]
pub extern "C" fn ulmerascio_analyse(table: &[u8], answers: &mut [u32], rounds: &mut [u32]) -> u64
    ensures { PackedOutcome EveryCost table.now answers.old rounds.old result answers.new rounds.new }
{
    response::packed_from(Start::EveryCost, table, answers, rounds)
}
