// What the intake says, in numbers, for C (crates/intake_c).
ghost use Rattle.std.specs.Prelude.{◌≡◌, ◌<◌};
ghost use Rattle.intake.specs.Intake.{held};
ghost use Rattle.intake.specs.Numbers.{unusable_code, ended_place, packed_ended, NumberedTake, NumberedEnd};

use crate::Unusable;
use response::{Verdict, pack};

// The number of each reason, which no verdict has.
impl From<Unusable> for u32 {
    ghost from_gives = { λ why number. number ≡ unusable_code why };

    fn from(why: Unusable) -> u32 {
        match why {
            Unusable::ShortStore => 252,
            Unusable::WrongFill => 253,
        }
    }
}

// What is said of a table, in one number: the code in the upper 32 bits, the place in the lower 32.
fn pack_ended(ended: Result<Verdict, Unusable>) -> u64
    requires { ended_place ended < 65536 }
    ensures { result ≡ packed_ended ended }
{
    match ended {
        Ok(verdict) => pack(verdict),
        Err(why) => u64::from(u32::from(why)) * 4294967296,
    }
}

// As `take`: 0, or the number of what is wrong.
pub fn numbered_take(store: &mut [u8], fill: &mut usize, piece: &[u8]) -> u32
    ensures { NumberedTake (held store.old fill.old) piece.now result (held store.new fill.new) }
{
    match crate::take(store, fill, piece) {
        Ok(()) => 0,
        Err(why) => u32::from(why),
    }
}

// As `end`.
pub fn numbered_end(store: &[u8], fill: &mut usize, answers: &mut [u32], rounds: &mut [u32]) -> u64
    ensures { NumberedEnd (held store.now fill.old) answers.old rounds.old result fill.new answers.new rounds.new }
{
    pack_ended(crate::end(store, fill, answers, rounds))
}
