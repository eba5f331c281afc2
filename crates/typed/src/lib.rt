// What is answered to a text: the bytes of the table that is typed, or one line that says what is wrong and where (SPECIFICATION 14).
#![tactic(auto)]

ghost use Rattle.std.specs.Prelude.{◌+◌, ◌*◌, ◌%◌, ◌≤◌, ◌<◌, ◌≡◌, [], ◌∷◌, ◌++◌, length};
ghost use Rattle.model.specs.Lists.{tabulate};
ghost use Rattle.tables.specs.Layout.{layout_for};
ghost use Rattle.encoding.specs.Bytes.{four_bytes, delay_bytes, record_bytes, row_bytes, joined, head_bytes};
ghost use Rattle.printing.specs.Appended.{Appended};
ghost use Rattle.printing.specs.Page.{Wrote};
ghost use Rattle.typed.specs.Bytes.{low_task_at, low_row_at, low_task, low_row, delays_of, head_kept, version_kept, Roomy, bytes_kept};
ghost use Rattle.typed.specs.Answered.{Answered};
ghost use Rattle.typed.specs.Messages.{message_of, fault_line};

use printing::Page;
use tables::layout::DelayFields;
use typing::{Counts, Fault, Line, State};

pub mod places;

// Bytes enough for any table that can be typed, and for the line of any fault.
pub const LONGEST: usize = 4589;

// For a text that can't be read: the line for its fault stands at the buffer's beginning, and ends there.
#[derive(Clone, Copy, Debug, PartialEq, Eq)]
pub struct Faulty(pub usize);

// The answer to a text that is gone through: the table's bytes, put at the buffer's beginning, and where they end.
pub fn respond(state: State, numbers: &[u32], out: &mut [u8]) -> Result<usize, Faulty>
    requires roomy { Roomy state.counts }
    requires numbers_len { length numbers.now ≡ 1393 }
    ensures { Answered state numbers.now out.old result out.new }
{
    match state.line {
        Line::Wrong(fault) => Err(Faulty(fault_line(out, state.number, fault))),
        _ => Ok(table_bytes(state.counts, numbers, out)),
    }
}

// The table's bytes, put at the buffer's beginning; answers where they end.
pub fn table_bytes(counts: Counts, numbers: &[u32], out: &mut [u8]) -> usize
    requires roomy { Roomy counts }
    requires numbers_len { length numbers.now ≡ 1393 }
    ensures { Appended out.old 0 (bytes_kept counts numbers.now) result out.new }
{
    let mut page = Page { out, at: 0 };
    table(&mut page, counts, numbers);
    page.at
}

// Appends them.
fn table(page: &mut Page, counts: Counts, numbers: &[u32])
    requires roomy { Roomy counts }
    requires numbers_len { length numbers.now ≡ 1393 }
    ensures { Wrote page.old (bytes_kept counts numbers.now) page.new }
{
    let version = version_of(counts, numbers[0]);
    let layout = tables::layout::of(version);
    head(page, version, layout.size, counts.tasks, counts.sections);
    tasks(page, layout.delays, numbers, counts.tasks);
    sections(page, numbers, counts.sections);
}

// The version that is stated, or the lowest that can hold the table.
#[tactic(auto, using(std::proofs::lemmas::Bool::Decides::nat_tests), unfolding(crate::specs::Bytes::version_kept))]
pub fn version_of(counts: Counts, stated: u32) -> u8
    ensures { result ≡ version_kept counts stated }
{
    if counts.stated {
        return low(stated);
    }
    if 32 < counts.tasks {
        return 3;
    }
    if counts.delayed {
        return 2;
    }
    1
}

// The lowest byte of a word.
fn low(word: u32) -> u8
    ensures { result ≡ word % 256 }
{
    (word % 256) as u8
}

// The version, the length of the whole table, n and m.
fn head(page: &mut Page, version: u8, size: usize, tasks: usize, sections: usize)
    requires { (size ≤ 21) × (tasks ≤ 200) × (sections ≤ 64) }
    ensures { Wrote page.old (head_kept version size tasks sections) page.new }
{
    let whole = 5 + size * tasks + 6 * sections;
    let length = (whole as u16).to_be_bytes();
    page.append(&[version, length[0], length[1], tasks as u8, sections as u8]);
}

// A number in four bytes.
#[tactic(auto, using(crate::proofs::ByteLaws::word_bytes))]
fn word(page: &mut Page, number: u32)
    ensures { Wrote page.old (four_bytes number) page.new }
{
    page.append(&number.to_be_bytes());
}

// A number in one byte.
fn byte(page: &mut Page, number: u32)
    ensures { Wrote page.old (number % 256 ∷ []) page.new }
{
    page.append(&[low(number)]);
}

// The records of all tasks.
fn tasks(page: &mut Page, delays: DelayFields, numbers: &[u32], count: usize)
    requires count_bound { count ≤ 200 }
    requires numbers_len { length numbers.now ≡ 1393 }
    ensures { Wrote page.old (joined (record_bytes delays) (tabulate (low_task numbers.now) count)) page.new }
{
    let (all, _) = numbers[193..].as_chunks();
    for fields in &all[..count] {
        task(page, delays, fields);
    }
}

// One task's record.
fn task(page: &mut Page, delays: DelayFields, fields: &[u32; 6])
    ensures { Wrote page.old (record_bytes delays (low_task_at fields.now 0)) page.new }
{
    byte(page, fields[0]);
    word(page, fields[1]);
    word(page, fields[2]);
    word(page, fields[3]);
    delayed(page, delays, fields[4], fields[5]);
}

// J, which is the latest delay, or both delays (SPECIFICATION 2.2).
fn delayed(page: &mut Page, delays: DelayFields, earliest: u32, latest: u32)
    ensures { Wrote page.old (delays_of delays earliest latest) page.new }
{
    match delays {
        DelayFields::Jitter => word(page, latest),
        DelayFields::Pair => {
            word(page, earliest);
            word(page, latest);
        }
    }
}

// The rows of all sections.
fn sections(page: &mut Page, numbers: &[u32], count: usize)
    requires count_bound { count ≤ 64 }
    requires numbers_len { length numbers.now ≡ 1393 }
    ensures { Wrote page.old (joined row_bytes (tabulate (low_row numbers.now) count)) page.new }
{
    let (all, _) = numbers[1..].as_chunks();
    for fields in &all[..count] {
        section(page, fields);
    }
}

fn section(page: &mut Page, fields: &[u32; 3])
    ensures { Wrote page.old (row_bytes (low_row_at fields.now 0)) page.new }
{
    byte(page, fields[0]);
    byte(page, fields[1]);
    word(page, fields[2]);
}

// The one line for a text that can't be read.
pub fn fault_line(out: &mut [u8], number: usize, fault: Fault) -> usize
    ensures { Appended out.old 0 (fault_line number fault) result out.new }
{
    let mut page = Page { out, at: 0 };
    page.append_with_number(b"line ", number as u64);
    page.append(b": ");
    page.append(message(fault));
    page.append(b"\n");
    page.at
}

// What is wrong, and how it can be mended.
fn message(fault: Fault) -> &'static [u8]
    ensures { result.now ≡ message_of fault }
{
    match fault {
        Fault::UnknownWord => {
            b"unknown word; a line begins with version, task or section, and a task may have jitter or delays behind its deadline"
        }
        Fault::TooFew => b"too few numbers; version has 1, task 4, jitter 1, delays 2, section 3",
        Fault::TooMany => b"too many numbers; version has 1, task 4, jitter 1, delays 2, section 3",
        Fault::NotWhole => b"not a whole number; write digits only",
        Fault::TooLarge => {
            b"number too large; version, priority, place and semaphore go up to 255, all others up to 4294967295"
        }
        Fault::TaskBehind => b"task behind a section; all tasks stand before the first section",
        Fault::VersionBehind => b"version must stand before every task and section, and only once",
        Fault::NoDelays => b"version 1 has no delays; state version 2 or 3, or use jitter",
        Fault::ManyTasks => b"too many tasks; a table has at most 200",
        Fault::ManySections => b"too many sections; a table has at most 64",
    }
}
