// Reads a table from standard input as it arrives, through the intake (SPECIFICATION 13.13; document 02, L11), and prints its answers.
#![tactic(auto)]

ghost use Rattle.std.specs.Prelude.{◌≤◌, ◌≡◌, length, Ok};
ghost use Rattle.tables.specs.FirstBytes.{most_kept};
ghost use Rattle.printing.specs.Longest.{longest};
ghost use Rattle.intake.specs.Intake.{held, condition_of};
ghost use Rattle.answers.specs.Input.{KeepsRead, PrintsAll};

use intake::MOST_KEPT;
use printing::Page;
use std::io::{Read as Source, Result};
use streams::read_some;

// How many bytes were read in all, and by the last read: none at the end of the input.
#[derive(Clone, Copy)]
struct Read {
    total: usize,
    last: usize,
}

fn main(rt: HostRuntime) -> Result<()> {
    let mut store = [0u8; MOST_KEPT];
    let mut fill = 0;
    take_all(&mut rt.stdin(), &mut store, &mut fill);
    let mut out = [0u8; printing::LONGEST];
    let end = answer(&store, &mut fill, &mut out);
    rt.write_all(&out[..end])
}

// Takes the source piece by piece, to its end, or until what is still to come would be dropped. A read that fails gives none, and is the
// end.
fn take_all<S: Source>(source: &mut S, store: &mut [u8], fill: &mut usize) -> Read
    requires { most_kept ≤ length store.old }
    ensures { KeepsRead result (held store.new fill.new) }
{
    let mut piece = [0u8; 4096];
    let mut total = 0;
    let mut last = 0;
    intake::begin(fill);
    while total < MOST_KEPT {
        let count = read_some(source, &mut piece);
        if count == 0 {
            return Read { total, last: count };
        }
        intake::take(store, fill, &piece[..count]).unwrap();
        total += count;
        last = count;
    }
    Read { total, last }
}

// Ends the table, and puts the whole text of what is said of it into a buffer that holds any; answers where it ends.
fn answer(store: &[u8], fill: &mut usize, out: &mut [u8]) -> usize
    requires fill_value { condition_of (held store.now fill.old) ≡ Ok tt }
    requires longest_in_bounds { longest ≤ length out.old }
    ensures { PrintsAll (held store.now fill.old) out.old result out.new }
{
    let count = *fill;
    let mut answers = [0u32; 200];
    let mut rounds = [0u32; 200];
    let verdict = intake::end(store, fill, &mut answers, &mut rounds).unwrap();
    let mut page = Page { out, at: 0 };
    page.text(&store[..count], verdict, &answers, &rounds);
    page.at
}
