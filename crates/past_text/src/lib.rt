// The text for a table and what the second analysis says of it (SPECIFICATION 10 and 13.8; document 02, L8). It is built in a lent buffer,
// so that a program writes it in one call.
#![tactic(auto)]

ghost use Rattle.printing.specs.Appended.{Appended};
ghost use Rattle.printing.specs.Page.{Wrote};
ghost use Rattle.past_text.specs.Answered.{past_text};
ghost use Rattle.past_text.specs.Text.{found_line, judged_text, past_text_of};

use overlaps::{Found, analyse_past_period};
use printing::Page;

// Bytes enough for the text of any table, and for the longest no more than enough: `longest_past` of specs/Longest.antt.
pub const LONGEST: usize = 9312;

// Analyses the table, and puts the text of what the second analysis says at the buffer's beginning; answers where it ends.
pub fn past_text(table: &[u8], out: &mut [u8]) -> usize
    ensures { Appended out.old 0 (past_text table.now) result out.new }
{
    let mut answers = [0u32; 200];
    let mut tried = [0u32; 200];
    let found = analyse_past_period(table, &mut answers, &mut tried);
    let mut page = Page { out, at: 0 };
    text(&mut page, table, found, &answers, &tried);
    page.at
}

// Appends the text for a table, what was found and the words of both slices.
pub fn text(page: &mut Page, table: &[u8], found: Found, answers: &[u32], tried: &[u32])
    ensures { Wrote page.old (past_text_of table.now found answers.now tried.now) page.new }
{
    match found {
        Found::Refused(_) | Found::Delayed => found_line(page, found),
        Found::Schedulable | Found::Late(_) | Found::Open(_) => judged(
            page, table, found, answers, tried,
        ),
    }
}

// The tasks' lines, with the number of q tried, and the line that says what was found.
fn judged(page: &mut Page, table: &[u8], found: Found, answers: &[u32], tried: &[u32])
    ensures { Wrote page.old (judged_text table.now found answers.now tried.now) page.new }
{
    page.tasks(table, b" tried ", answers, tried);
    found_line(page, found);
}

// Appends the line that says what was found.
pub fn found_line(page: &mut Page, found: Found)
    ensures { Wrote page.old (found_line found) page.new }
{
    match found {
        Found::Refused(refusal) => page.refused(refusal),
        Found::Delayed => page.refusal_line(11, 0),
        Found::Schedulable => page.append(b"schedulable\n"),
        Found::Late(first) => page.line_with_number(b"late ", first.0 as u64),
        Found::Open(first) => page.line_with_number(b"open ", first.0 as u64),
    }
}
