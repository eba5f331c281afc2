// A report of many tables that stand end to end in one file (SPECIFICATION 13.12; document 02, L10). It is told of the file's bytes piece by
// piece, cut anywhere, and keeps three counts and the bytes of the table at hand.
#![tactic(auto)]

ghost use Rattle.std.specs.Prelude.{◌≡◌, ◌+◌, ◌-◌, ◌≤◌, ◌<◌, min, ltb, length};
ghost use Rattle.model.specs.Choice.{pick};
ghost use Rattle.tables.specs.Layout.{stated_length};
ghost use Rattle.printing.specs.Appended.{Appended};
ghost use Rattle.printing.specs.Page.{Wrote};
ghost use Rattle.report_lines.specs.Line.{judged_as, line_of};
ghost use Rattle.reporting.specs.Report.{report_of};
ghost use Rattle.reporting.specs.Streaming.{begun, counted_in, counted_by, GoesOn, Tells, Countable, closed_by, closing_by};

use printing::{Page, append};
use report_lines::{judge, table_line};
use response::Verdict;
use tables::HEAD_SIZE;
use tables::fields::half;

// Bytes enough for the longest table: what a store has. A longer piece is skipped as it comes, and its first bytes tell why it is refused.
pub const STORE: usize = 4589;

// Where a table states its length.
const STATED_AT: usize = 1;

// What is kept between two pieces of the file.
#[derive(Clone, Copy, Debug, PartialEq, Eq)]
pub struct Report {
    pub schedulable: u64,
    pub late: u64,
    pub refused: u64,
    // of the table at hand: the bytes that have come, those that it has at least, and those that stand in the store
    pub come: usize,
    pub due: usize,
    pub kept: usize,
}

// What is kept, and where the text ends.
#[derive(Clone, Copy, Debug, PartialEq, Eq)]
pub struct Told {
    pub report: Report,
    pub end: usize,
}

// Before the first byte.
pub fn begin() -> Report
    ensures { result ≡ begun }
{
    Report {
        schedulable: 0,
        late: 0,
        refused: 0,
        come: 0,
        due: HEAD_SIZE,
        kept: 0,
    }
}

// Is told of more bytes: appends the lines of the tables that end in them, and answers what is kept and where the text ends.
pub fn go_on(report: Report, more: &[u8], store: &mut [u8], out: &mut [u8], at: usize) -> Told
    requires { Countable report store.old (length more.now) }
    ensures { GoesOn report store.old more.now out.old at result store.new out.new }
{
    let mut page = Page { out, at };
    let report = take_all(report, more, store, &mut page);
    Told {
        report,
        end: page.at,
    }
}

// Takes the bytes, so many at a time as belong to one table.
fn take_all(report: Report, more: &[u8], store: &mut [u8], page: &mut Page) -> Report
    requires { Countable report store.old (length more.now) }
    ensures { Tells report store.old more.now page.old result store.new page.new }
{
    let mut report = report;
    let mut left = more;
    while !left.is_empty() {
        let (now, later) = left.split_at(wanted(report.come, report.due, left.len()));
        report = take_in(report, now, store, page);
        left = later;
    }
    report
}

// How many of the bytes that are left belong to the table at hand: no more than are due. A report that is closed takes all.
fn wanted(come: usize, due: usize, left: usize) -> usize
    ensures { result ≡ pick (ltb come due) (min (due - come) left) left }
{
    if come < due {
        left.min(due - come)
    } else {
        left
    }
}

// Takes bytes of the table at hand, and ends it where it is whole.
fn take_in(report: Report, more: &[u8], store: &mut [u8], page: &mut Page) -> Report
    requires countable { Countable report store.old (length more.now) }
    requires more_bound { report.come < report.due → report.come + length more.now ≤ report.due }
    ensures { Tells report store.old more.now page.old result store.new page.new }
{
    let kept = append(store, report.kept, more);
    let come = report.come + more.len();
    if come != report.due {
        return Report {
            come,
            kept,
            ..report
        };
    }
    // of a table whose head has just come this is the first look at the length that it states
    let stated = stated_length(store);
    if stated != come {
        return Report {
            come,
            due: stated,
            kept,
            ..report
        };
    }
    end_table(report, &store[..kept], page)
}

// The length that a table states in its head.
fn stated_length(table: &[u8]) -> usize
    requires { 5 ≤ length table.now }
    ensures { result ≡ stated_length table.now }
{
    half(table, STATED_AT) as usize
}

// Appends the line of a table that is whole, and counts it.
fn end_table(report: Report, table: &[u8], page: &mut Page) -> Report
    requires { counted_in report + 1 < 18446744073709551616 }
    ensures report_value { result ≡ counted_by report (judged_as table.now) }
    ensures wrote { Wrote page.old (line_of (counted_in report) table.now) page.new }
{
    let verdict = judge(table);
    let number = report.schedulable + report.late + report.refused;
    table_line(page, number, table, verdict);
    counted(report, verdict)
}

// Counts a table by its verdict; the next one begins.
fn counted(report: Report, verdict: Verdict) -> Report
    requires { counted_in report + 1 < 18446744073709551616 }
    ensures { result ≡ counted_by report verdict }
{
    let next = Report {
        come: 0,
        due: HEAD_SIZE,
        kept: 0,
        ..report
    };
    match verdict {
        Verdict::Refused(_) => Report {
            refused: report.refused + 1,
            ..next
        },
        Verdict::Schedulable => Report {
            schedulable: report.schedulable + 1,
            ..next
        },
        Verdict::Late(_) => Report {
            late: report.late + 1,
            ..next
        },
    }
}

// Has a stated length below 5 closed the report? What is still to come changes nothing then.
pub fn is_closed(report: Report) -> bool
    ensures { result ≡ closed_by report }
{
    report.due < report.come
}

// Behind the last byte: appends the totals, and that the file is broken where it ends within a table.
pub fn finish(report: Report, out: &mut [u8], at: usize) -> usize
    ensures { Appended out.old at (closing_by report) result out.new }
{
    let mut page = Page { out, at };
    close(&mut page, report);
    page.at
}

fn close(page: &mut Page, report: Report)
    ensures { Wrote page.old (closing_by report) page.new }
{
    page.append_with_number(b"schedulable ", report.schedulable);
    page.append_with_number(b" late ", report.late);
    page.line_with_number(b" refused ", report.refused);
    if 0 < report.come {
        page.append(b"broken\n");
    }
}

// The report of a file that is lent whole, at the buffer's beginning; answers where it ends.
pub fn report_text(file: &[u8], out: &mut [u8]) -> usize
    ensures { Appended out.old 0 (report_of file.now) result out.new }
{
    let mut store = [0u8; STORE];
    let told = go_on(begin(), file, &mut store, out, 0);
    finish(told.report, out, told.end)
}
