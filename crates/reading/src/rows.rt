// The section rows: refusal 7, and the fields of each row, read once.
ghost use Rattle.std.specs.Prelude.{◌≡◌, ◌+◌, ◌≤◌, ◌<◌, length};
ghost use Rattle.tables.specs.Layout.{row_from, row_count, cost_in};
ghost use Rattle.tables.specs.Checks.{rows_check, rows_read};
ghost use Rattle.records.specs.Columns.{cost_column, record_columns, row_columns, record_in, row_in, Lent, Filled, Holds};
ghost use Rattle.records.specs.Reading.{HeadRead};
ghost use Rattle.reading.specs.Rows.{row_of, row_key, at_row, row_fault};

use crate::ROW_ROOM;
use model::{Place, Ticks};
use tables::fields::{within, word};
use tables::layout::Layout;
use tables::{
    HEAD_SIZE, LONGEST_AT, MOST_SEMAPHORE, ORDER_AT, Offset, PLACE_AT, ROW_SIZE, Refusal,
    SEMAPHORE_AT,
};

// One row's numbers.
#[derive(Clone, Copy, Debug, PartialEq, Eq)]
pub struct RowRecord {
    pub place: Place,
    pub semaphore: u8,
    pub longest: Ticks,
}

// The row that begins at `at`. A place and a semaphore are single bytes.
pub fn read(table: &[u8], at: usize) -> RowRecord
    requires { at + 6 ≤ length table.now }
    ensures result_value { row_of result ≡ row_from table.now at }
    ensures place_bound { (result.place.0 < 256) × (result.semaphore < 256) }
{
    RowRecord {
        place: Place(usize::from(table[at + PLACE_AT])),
        semaphore: table[at + SEMAPHORE_AT],
        longest: Ticks(word(table, at + LONGEST_AT)),
    }
}

// A number that rises where rows rise by place, then semaphore.
fn key(row: RowRecord) -> u32
    requires { (row.place.0 < 256) × (row.semaphore < 256) }
    ensures { result ≡ row_key (row_of row) }
{
    (row.place.0 as u32) * 256 + u32::from(row.semaphore)
}

// Tests the row that begins at `at`: place, semaphore, length and then its order behind the row before (SPECIFICATION 3.1; document 02,
// L3). The first that is wrong is refused at its own first byte. The place is tested before a cost is looked up by it.
fn check(row: RowRecord, at: usize, n: usize, costs: &[u32], before: u32) -> Result<(), Refusal>
    requires at_bound { at < 65536 }
    requires place_bound { (row.place.0 < 256) × (row.semaphore < 256) }
    requires n_in_bounds { n ≤ length costs.now }
    ensures { result ≡ row_fault (at_row at n costs.now before) (row_of row) }
{
    let place = row.place.0;
    if n <= place {
        return Err(Refusal::SectionRow(Offset(at + PLACE_AT)));
    }
    if !within(1, MOST_SEMAPHORE, u32::from(row.semaphore)) {
        return Err(Refusal::SectionRow(Offset(at + SEMAPHORE_AT)));
    }
    if !within(1, costs[place], row.longest.0) {
        return Err(Refusal::SectionRow(Offset(at + LONGEST_AT)));
    }
    if key(row) <= before {
        return Err(Refusal::SectionRow(Offset(at + ORDER_AT)));
    }
    Ok(())
}

// Takes the m rows in order, and keeps the fields of those before the first fault.
pub fn read_all(
    table: &[u8],
    layout: Layout,
    n: usize,
    m: usize,
    room: usize,
    bytes: &mut [u8],
    words: &mut [u32],
) -> Result<(), Refusal>
    requires head_read { HeadRead table.now layout n × (m ≡ row_count table.now) }
    requires lent { Lent table.now room bytes.old words.old }
    requires holds { Holds (record_columns room bytes.old words.old cost_column) n (cost_in table.now) }
    ensures value { result ≡ rows_check table.now }
    ensures filled { Filled (record_in table.now) 0 (record_columns room bytes.old words.old) (record_columns room bytes.new words.new) }
    ensures filled_2 { Filled (row_in table.now) (rows_read table.now) (row_columns room bytes.old words.old) (row_columns room bytes.new words.new) }
{
    // below every key: no row stands before the first
    let mut before: u32 = 0;
    let mut at = HEAD_SIZE + layout.size * n;
    for k in 0..m {
        let row = read(table, at);
        let costs = &words[room..2 * room];
        check(row, at, n, costs, before)?;
        bytes[room + k] = row.place.0 as u8;
        bytes[room + ROW_ROOM + k] = row.semaphore;
        words[5 * room + k] = row.longest.0;
        before = key(row);
        at += ROW_SIZE;
    }
    Ok(())
}
