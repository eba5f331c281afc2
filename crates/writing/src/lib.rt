// The text form of a table (SPECIFICATION 14): what its bytes say, in words and decimal numbers, a line for each task and each section. It
// is built in a lent buffer, so that a program writes it in one call.
#![tactic(auto)]

ghost use Rattle.std.specs.Prelude.{◌≡◌, Ok};
ghost use Rattle.tables.specs.Layout.{version_of, tasks_of, rows_of, table_of};
ghost use Rattle.tables.specs.Checks.{head_check, read_check};
ghost use Rattle.encoding.specs.Bytes.{joined};
ghost use Rattle.records.specs.Reading.{task_from};
ghost use Rattle.reading.specs.Rows.{row_of};
ghost use Rattle.printing.specs.Appended.{Appended};
ghost use Rattle.printing.specs.Page.{Wrote};
ghost use Rattle.writing.specs.Text.{next_number, delays_text, task_numbers, task_line, section_line, form_of, form_text};

use model::Ticks;
use printing::Page;
use reading::rows::RowRecord;
use reading::{LARGE_BYTES, LARGE_ROOM, LARGE_WORDS, rows};
use records::TaskRecord;
use tables::{
    FOUR_PERIODS, HEAD_SIZE, ROW_COUNT_AT, ROW_SIZE, Refusal, TASK_COUNT_AT, VERSION_AT, layout,
};

// Bytes enough for the text of any table, and for the longest no more than enough: `longest_form` of specs/Longest.antt.
pub const LONGEST: usize = 12751;

// Puts the text form of the table, or the line of its refusal, at the buffer's beginning; answers where it ends.
pub fn form_text(table: &[u8], out: &mut [u8]) -> usize
    ensures { Appended out.old 0 (form_text table.now) result out.new }
{
    let mut page = Page { out, at: 0 };
    form_or_refusal(&mut page, table);
    page.at
}

// Appends it.
fn form_or_refusal(page: &mut Page, table: &[u8])
    ensures { Wrote page.old (form_text table.now) page.new }
{
    match check(table) {
        Err(refusal) => page.refused(refusal),
        Ok(()) => form(page, table),
    }
}

// What is found in reading the table: refusals 1 to 7, or nothing. A deadline may span four periods.
fn check(table: &[u8]) -> Result<(), Refusal>
    ensures { result ≡ read_check 4 table.now }
{
    tables::head::check(table)?;
    let mut bytes = [0u8; LARGE_BYTES];
    let mut words = [0u32; LARGE_WORDS];
    reading::read(table, FOUR_PERIODS, LARGE_ROOM, &mut bytes, &mut words)
}

// Appends the text form of a table with a right head.
#[tactic(auto, using(crate::proofs::HeadLaws::head_long))]
fn form(page: &mut Page, table: &[u8])
    requires { head_check table.now ≡ Ok tt }
    ensures { Wrote page.old (form_of (version_of table.now) (table_of table.now)) page.new }
{
    page.append(b"# task PRIORITY PERIOD COST DEADLINE; section PLACE SEMAPHORE LENGTH\n");
    page.line_with_number(b"version ", u64::from(table[VERSION_AT]));
    tasks(page, table);
    sections(page, table);
}

// The tasks' lines.
#[tactic(auto, using(crate::proofs::HeadLaws::head_long))]
fn tasks(page: &mut Page, table: &[u8])
    requires { head_check table.now ≡ Ok tt }
    ensures { Wrote page.old (joined task_line (tasks_of table.now)) page.new }
{
    let layout = layout::of(table[VERSION_AT]);
    let n = usize::from(table[TASK_COUNT_AT]);
    for record in table[HEAD_SIZE..].chunks_exact(layout.size).take(n) {
        task(page, records::read(record, layout, 0));
    }
}

// One task's line.
fn task(page: &mut Page, task: TaskRecord)
    ensures { Wrote page.old (task_line (task_from task)) page.new }
{
    numbers(page, task);
    delays(page, task.earliest, task.latest);
    page.append(b"\n");
}

// The four numbers that every task has.
fn numbers(page: &mut Page, task: TaskRecord)
    ensures { Wrote page.old (task_numbers (task_from task)) page.new }
{
    page.append_with_number(b"task ", u64::from(task.priority.0));
    next_number(page, task.period.0);
    next_number(page, task.cost.0);
    next_number(page, task.deadline.0);
}

// The delays behind a deadline. An earliest delay of 0 needs no word of its own.
fn delays(page: &mut Page, earliest: Ticks, latest: Ticks)
    ensures { Wrote page.old (delays_text earliest.0 latest.0) page.new }
{
    match (earliest.0, latest.0) {
        (0, 0) => {}
        (0, latest) => page.append_with_number(b" jitter ", u64::from(latest)),
        (earliest, latest) => {
            page.append_with_number(b" delays ", u64::from(earliest));
            next_number(page, latest);
        }
    }
}

// The sections' lines.
#[tactic(auto, using(crate::proofs::HeadLaws::head_long, crate::proofs::HeadLaws::records_near, crate::proofs::HeadLaws::rows_begin))]
fn sections(page: &mut Page, table: &[u8])
    requires { head_check table.now ≡ Ok tt }
    ensures { Wrote page.old (joined section_line (rows_of table.now)) page.new }
{
    let layout = layout::of(table[VERSION_AT]);
    let first = HEAD_SIZE + layout.size * usize::from(table[TASK_COUNT_AT]);
    let m = usize::from(table[ROW_COUNT_AT]);
    for row in table[first..].chunks_exact(ROW_SIZE).take(m) {
        section(page, rows::read(row, 0));
    }
}

// One section's line.
fn section(page: &mut Page, row: RowRecord)
    ensures { Wrote page.old (section_line (row_of row)) page.new }
{
    page.append_with_number(b"section ", row.place.0 as u64);
    next_number(page, u32::from(row.semaphore));
    page.line_with_number(b" ", u64::from(row.longest.0));
}

// A number behind another: one blank between words.
fn next_number(page: &mut Page, number: u32)
    ensures { Wrote page.old (next_number number) page.new }
{
    page.append_with_number(b" ", u64::from(number));
}
