// A report's line for one table (SPECIFICATION 13.12; document 02, L10): the table's number, the verdict of the analysis, and three
// figures of a table that is not refused. It is appended to a text in a lent buffer.
#![tactic(auto)]

ghost use Rattle.std.specs.Prelude.{◌≡◌, ◌++◌};
ghost use Rattle.tables.specs.Meaning.{TableRight};
ghost use Rattle.printing.specs.Page.{Wrote};
ghost use Rattle.printing.specs.Text.{bytes_of, refused_line};
ghost use Rattle.report_lines.specs.Line.{judged_as, multiple_text, figures_text, line_of};

use multiples::hyperperiod;
use printing::Page;
use response::Verdict;
use tables::{Refusal, TASK_COUNT_AT};
use utilisation::{bound, utilisation};

// The verdict of the analysis, which any bytes get. The answers are not asked for.
pub fn judge(table: &[u8]) -> Verdict
    ensures { result ≡ judged_as table.now }
{
    let mut answers = [0u32; 200];
    let mut rounds = [0u32; 200];
    response::analyse(table, &mut answers, &mut rounds)
}

// Appends the line of a table whose verdict is known.
pub fn table_line(page: &mut Page, number: u64, table: &[u8], verdict: Verdict)
    requires { verdict ≡ judged_as table.now }
    ensures { Wrote page.old (line_of number table.now) page.new }
{
    page.append_number(number);
    match verdict {
        Verdict::Refused(refusal) => refused_text(page, refusal),
        Verdict::Schedulable => good_text(page, b" schedulable", table),
        Verdict::Late(_) => good_text(page, b" late", table),
    }
}

// A refusal, behind the table's number.
fn refused_text(page: &mut Page, refusal: Refusal)
    ensures { Wrote page.old (bytes_of " " ++ refused_line refusal) page.new }
{
    page.append(b" ");
    page.refused(refusal);
}

// The word of the verdict and the figures of a table within the rules.
fn good_text(page: &mut Page, word: &[u8], table: &[u8])
    requires { TableRight table.now }
    ensures { Wrote page.old (word.now ++ figures_text table.now) page.new }
{
    page.append(word);
    page.append_with_number(b" utilisation ", utilisation(table));
    let tasks = usize::from(table[TASK_COUNT_AT]);
    page.append_with_number(b" bound ", u64::from(bound(tasks)));
    multiple_text(page, hyperperiod(table));
}

// The least common multiple of the periods, at the line's end.
fn multiple_text(page: &mut Page, multiple: Option<u64>)
    ensures { Wrote page.old (multiple_text multiple) page.new }
{
    match multiple {
        Some(number) => page.line_with_number(b" hyperperiod ", number),
        None => page.append(b" hyperperiod over\n"),
    }
}
