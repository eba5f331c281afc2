// The C interface for whoever marks by document 01's rounds (SPECIFICATION 5.1 and 11; document 02, L5). It is a library of its own, so
// that the controller's has the default start alone, and does not ask at run time which start to take.
#![tactic(auto)]

ghost use Rattle.equation.specs.declared.Start.TheVariants.{OwnCost};
ghost use Rattle.response.specs.Packing.{PackedOutcome};

use response::Start;

// The verdict and the answers of `ulmerascio_analyse`, with the rounds from the old start.
#[unsafe(no_mangle)]
pub extern "C" fn ulmerascio_analyse_from_own_cost(
    table: &[u8],
    answers: &mut [u32],
    rounds: &mut [u32],
) -> u64
    ensures { PackedOutcome OwnCost table.now answers.old rounds.old result answers.new rounds.new }
{
    response::packed_from(Start::OwnCost, table, answers, rounds)
}
