// The C interface of the second analysis. A slice passes as a pointer and then a length.
#![tactic(auto)]

ghost use Rattle.overlaps.specs.Numbers.{PackedOutcome};

// include/ulmerascio.h says how to call it and how to take the number apart.
#[unsafe(no_mangle)]
pub extern "C" fn ulmerascio_analyse_past_period(
    table: &[u8],
    answers: &mut [u32],
    tried: &mut [u32],
) -> u64
    ensures { PackedOutcome table.now answers.old tried.old result answers.new tried.new }
{
    overlaps::packed_past_period(table, answers, tried)
}
