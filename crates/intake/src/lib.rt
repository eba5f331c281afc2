// An intake (SPECIFICATION 13.13; document 02, L11): takes the bytes of a table as they arrive, cut anywhere, and when the sender says that
// the table has ended gives the answer that the whole bytes would get. The store that keeps them, and its fill, which says how many it
// keeps, are the caller's.
#![tactic(auto)]

ghost use Rattle.std.specs.Prelude.{◌≡◌};
ghost use Rattle.printing.specs.Appended.{Appended};
ghost use Rattle.intake.specs.Intake.{held, begun_fill, condition_for, fill_after, Takes, Answers, Ends};

use response::{Verdict, analyse};
use std::error::Error;
use std::fmt;

pub mod numbers;

// Bytes that are kept of a table: one more than the longest has, so that a longer one is seen to be too long.
pub const MOST_KEPT: usize = 4590;

// Why a store and its fill can't be used.
#[derive(Clone, Copy, Debug, PartialEq, Eq)]
pub enum Unusable {
    // the store has fewer bytes than may have to be kept
    ShortStore,
    // more bytes are said to be kept than ever are: nobody has begun, or the fill was overwritten
    WrongFill,
}

impl fmt::Display for Unusable {
    ghost use Rattle.std.specs.Prelude.{Some};
    ghost use Rattle.intake.specs.Messages.{message_of};

    ghost output = { λ why. Some (message_of why) };

    fn fmt<W: fmt::Write>(&self, f: &mut fmt::Formatter<W>) -> fmt::Result {
        match self {
            Unusable::ShortStore => write!(f, "the store is too short"),
            Unusable::WrongFill => write!(f, "the fill is wrong"),
        }
    }
}

impl Error for Unusable {}

// Nothing of a table has come yet.
pub fn begin(fill: &mut usize)
    ensures { fill.new ≡ begun_fill }
{
    *fill = 0;
}

// Takes a piece of a table, if the store and the fill can be used; else the piece is still to be taken. Bytes after the 4,590th are dropped,
// and what is kept is copied once.
pub fn take(store: &mut [u8], fill: &mut usize, piece: &[u8]) -> Result<(), Unusable>
    ensures { Takes (held store.old fill.old) piece.now result (held store.new fill.new) }
{
    fitness(store.len(), *fill)?;
    *fill = append(&mut store[..MOST_KEPT], *fill, piece);
    Ok(())
}

// Appends the bytes at `at`, as far as there is room, and answers where the next byte goes. Byte by byte: a copy by the library would need
// `memmove`, and who links this needs `memset` alone (include/ulmerascio.h).
fn append(out: &mut [u8], at: usize, bytes: &[u8]) -> usize
    ensures { Appended out.old at bytes.now result out.new }
{
    let count = bytes.len().min(out.len().saturating_sub(at));
    for i in 0..count {
        out[at + i] = bytes[i];
    }
    at + count
}

// The table has ended: answers for the bytes that came since the intake was fresh, which it then is again.
pub fn end(
    store: &[u8],
    fill: &mut usize,
    answers: &mut [u32],
    rounds: &mut [u32],
) -> Result<Verdict, Unusable>
    ensures { Ends (held store.now fill.old) answers.old rounds.old result fill.new answers.new rounds.new }
{
    let count = *fill;
    let ended = answer(store, count, answers, rounds);
    *fill = fill_after(ended, count);
    ended
}

// Answers for the bytes that a store keeps, if it can be used.
fn answer(
    store: &[u8],
    fill: usize,
    answers: &mut [u32],
    rounds: &mut [u32],
) -> Result<Verdict, Unusable>
    ensures { Answers (held store.now fill) answers.old rounds.old result answers.new rounds.new }
{
    fitness(store.len(), fill)?;
    Ok(analyse(&store[..fill], answers, rounds))
}

// Can a store of so many bytes be used, of which so many are said to be kept?
fn fitness(store: usize, fill: usize) -> Result<(), Unusable>
    ensures { result ≡ condition_for store fill }
{
    if store < MOST_KEPT {
        return Err(Unusable::ShortStore);
    }
    if MOST_KEPT < fill {
        return Err(Unusable::WrongFill);
    }
    Ok(())
}

// How many bytes are kept behind the end. Those in a short store are not lost: they can still be copied into a longer one.
fn fill_after(ended: Result<Verdict, Unusable>, fill: usize) -> usize
    ensures { result ≡ fill_after ended fill }
{
    match ended {
        Err(Unusable::ShortStore) => fill,
        Ok(_) | Err(Unusable::WrongFill) => 0,
    }
}
