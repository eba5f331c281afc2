// The intake's C interface. A slice passes as a pointer and then a length; include/ulmerascio.h says how to call it and how to take the
// numbers apart.
#![tactic(auto)]

ghost use Rattle.std.specs.Prelude.{◌≡◌};
ghost use Rattle.intake.specs.Intake.{held, begun_fill};
ghost use Rattle.intake.specs.Numbers.{NumberedTake, NumberedEnd};

use intake::numbers::{numbered_end, numbered_take};

#[unsafe(no_mangle)]
pub extern "C" fn ulmerascio_intake_begin(fill: &mut usize)
    ensures { fill.new ≡ begun_fill }
{
    intake::begin(fill);
}

#[unsafe(no_mangle)]
pub extern "C" fn ulmerascio_intake_take(store: &mut [u8], fill: &mut usize, piece: &[u8]) -> u32
    ensures { NumberedTake (held store.old fill.old) piece.now result (held store.new fill.new) }
{
    numbered_take(store, fill, piece)
}

#[unsafe(no_mangle)]
pub extern "C" fn ulmerascio_intake_end(
    store: &[u8],
    fill: &mut usize,
    answers: &mut [u32],
    rounds: &mut [u32],
) -> u64
    ensures { NumberedEnd (held store.now fill.old) answers.old rounds.old result fill.new answers.new rounds.new }
{
    numbered_end(store, fill, answers, rounds)
}
