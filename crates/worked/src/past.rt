// The second analysis's side of an entry (SPECIFICATION 13.8; document 02, L8): what it finds and the words that it leaves.
ghost use Rattle.printing.specs.Page.{Wrote};
ghost use Rattle.worked.specs.Past.{past_text};

use crate::comparing::append_unless;
use crate::numbers::append_line;
use crate::stay;
use model::Place;
use overlaps::{Found, analyse_past_period};
use past_text::found_line;
use printing::Page;
use std::io::Result;

// Bytes enough for its lines: at most 30 with what is found, 2,206 with the answers of 200 tasks, 606 with the numbers tried and 8 more.
const ROOM: usize = 2850;

// Judges one table, and writes its lines in one call.
pub fn judge(rt: HostRuntime, table: &[u8], answers: &mut [u32], tried: &mut [u32]) -> Result<()> {
    let found = analyse_past_period(table, answers, tried);
    let first = first_to_stay(table, found);
    let mut out = [0u8; ROOM];
    let mut page = Page {
        out: &mut out,
        at: 0,
    };
    append_past(
        &mut page,
        found,
        answers,
        tried,
        first.0,
        stay(answers, first) && stay(tried, first),
    );
    let end = page.at;
    rt.write_all(&out[..end])
}

// The first word that is not to be written: a refusal changes no word.
fn first_to_stay(table: &[u8], found: Found) -> Place {
    match found {
        Found::Refused(_) | Found::Delayed => Place(0),
        Found::Schedulable | Found::Late(_) | Found::Open(_) => {
            Place(printing::task_count(table))
        }
    }
}

// Appends what is found and the words of `count` tasks, and a line more where a word that should stay has not.
fn append_past(
    page: &mut Page,
    found: Found,
    answers: &[u32],
    tried: &[u32],
    count: usize,
    stayed: bool,
)
    ensures { Wrote page.old (past_text found answers.now tried.now count stayed) page.new }
{
    page.append(b"past period ");
    found_line(page, found);
    append_line(page, b"found", answers, count);
    append_line(page, b"tried", tried, count);
    append_unless(page, stayed);
}
