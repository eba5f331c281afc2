// Reads a table into columns, up to the first fault. Every entry that takes a table reads it here.
#![tactic(auto)]

ghost use Rattle.std.specs.Prelude.{◌≡◌, ◌≤◌, ltb, length, Ok};
ghost use Rattle.model.specs.Lists.{largest_to, word_of};
ghost use Rattle.tables.specs.Layout.{layout_of};
ghost use Rattle.tables.specs.Checks.{head_check, read_check, records_read};
ghost use Rattle.records.specs.Columns.{record_columns, row_columns, record_in, row_in, Lent, Filled, rows_reached};

use tables::{ROW_COUNT_AT, Refusal, TASK_COUNT_AT, VERSION_AT};

pub mod rows;

// Room for tasks: 32 of them, the limit of versions 1 and 2, or the 200 of version 3 (document 02, L9).
pub const SMALL_ROOM: usize = 32;

pub const LARGE_ROOM: usize = 200;

// Room for rows: the most that any version has.
pub const ROW_ROOM: usize = 64;

// The bytes and the words that the columns take, in either room.
pub const SMALL_BYTES: usize = SMALL_ROOM + 2 * ROW_ROOM;

pub const SMALL_WORDS: usize = 5 * SMALL_ROOM + ROW_ROOM;

pub const LARGE_BYTES: usize = LARGE_ROOM + 2 * ROW_ROOM;

pub const LARGE_WORDS: usize = 5 * LARGE_ROOM + ROW_ROOM;

// A mark for each task, and one more.
pub const SMALL_MARKS: usize = SMALL_ROOM + 1;

pub const LARGE_MARKS: usize = LARGE_ROOM + 1;

// May a table of this version have more tasks than the small room?
pub fn is_large(table: &[u8]) -> bool
    requires { head_check table.now ≡ Ok tt }
    ensures { result ≡ ltb 32 (layout_of table.now).most }
{
    let layout = tables::layout::of(table[VERSION_AT]);
    SMALL_ROOM < layout.most as usize
}

// Reads a table whose head is right: refusals 5 to 7, or clean, and then the columns hold the table. A deadline may be as long as `span`
// periods. The columns stand one behind another in the two slices, those of the tasks `room` long: priorities, places and semaphores in
// the bytes; periods, costs, deadlines, spreads, latest delays and longest sections in the words.
pub fn read(
    table: &[u8],
    span: u32,
    room: usize,
    bytes: &mut [u8],
    words: &mut [u32],
) -> Result<(), Refusal>
    requires table_value { head_check table.now ≡ Ok tt }
    requires span_bound { (span ≤ 4) × Lent table.now room bytes.old words.old }
    ensures value { result ≡ read_check span table.now }
    ensures filled { Filled (record_in table.now) (records_read span table.now) (record_columns room bytes.old words.old) (record_columns room bytes.new words.new) }
    ensures filled_2 { Filled (row_in table.now) (rows_reached span table.now) (row_columns room bytes.old words.old) (row_columns room bytes.new words.new) }
{
    let layout = tables::layout::of(table[VERSION_AT]);
    let n = usize::from(table[TASK_COUNT_AT]);
    records::read_all(table, layout, span, n, room, bytes, words)?;
    let m = usize::from(table[ROW_COUNT_AT]);
    rows::read_all(table, layout, n, m, room, bytes, words)
}

// Has a task a delay? All words are put together, which the compiler does several at a time (docs/PERFORMANCE.md).
pub fn any_delay(latest: &[u32], n: usize) -> bool
    requires { n ≤ length latest.now }
    ensures { result ≡ ltb 0 (largest_to (word_of latest.now) n) }
{
    let mut together = 0;
    for &delay in &latest[..n] {
        together |= delay;
    }
    0 < together
}
