// The task records: refusals 5 and 6, and the fields of each record, read once.
#![tactic(auto)]

ghost use Rattle.std.specs.Prelude.{◌≡◌, ◌+◌, ◌*◌, ◌≤◌, ◌<◌, length};
ghost use Rattle.tables.specs.Layout.{Sound, word_at, jitter_at, latest_at, record_from};
ghost use Rattle.tables.specs.Rules.{longest_deadline};
ghost use Rattle.tables.specs.Checks.{records_check, records_read};
ghost use Rattle.records.specs.Columns.{record_columns, row_columns, record_in, row_in, Lent, Filled};
ghost use Rattle.records.specs.Reading.{HeadRead, task_from, earliest_of, delay_at, at_record, record_fault};

use model::{Priority, Ticks};
use tables::fields::{within, word};
use tables::layout::{DelayFields, Layout};
use tables::{
    COST_AT, DEADLINE_AT, EARLIEST_AT, HEAD_SIZE, JITTER_AT, LATEST_AT, MOST_TICKS, Offset,
    PERIOD_AT, PRIORITY_AT, Refusal,
};

// The first record may have any priority that a byte holds.
const HIGHEST_PRIORITY: u8 = 255;

// One record's numbers.
#[derive(Clone, Copy, Debug, PartialEq, Eq)]
pub struct TaskRecord {
    pub priority: Priority,
    pub period: Ticks,
    pub cost: Ticks,
    pub deadline: Ticks,
    pub earliest: Ticks,
    pub latest: Ticks,
}

// Where the latest delay begins in a record. J is the latest (SPECIFICATION 2.2; document 02, L4).
fn latest_at(fields: DelayFields) -> usize
    ensures { (result ≡ latest_at fields) × (result ≤ 17) }
{
    match fields {
        DelayFields::Jitter => JITTER_AT,
        DelayFields::Pair => LATEST_AT,
    }
}

// The earliest delay, where the first of the delays' words is this: 0 where there is J alone (SPECIFICATION 2.3; document 02, L4).
fn earliest(fields: DelayFields, first: Ticks) -> Ticks
    ensures { result.0 ≡ earliest_of fields first.0 }
{
    match fields {
        DelayFields::Jitter => Ticks(0),
        DelayFields::Pair => first,
    }
}

// The latest delay of the record that begins at `at`, where the first of the delays' words is this.
fn latest(table: &[u8], fields: DelayFields, at: usize, first: Ticks) -> Ticks
    requires { (at + latest_at fields + 4 ≤ length table.now) × (first.0 ≡ word_at table.now (at + jitter_at)) }
    ensures { result.0 ≡ word_at table.now (at + latest_at fields) }
{
    match fields {
        DelayFields::Jitter => first,
        DelayFields::Pair => Ticks(word(table, at + LATEST_AT)),
    }
}

// The record that begins at `at`. A priority is a single byte.
pub fn read(table: &[u8], layout: Layout, at: usize) -> TaskRecord
    requires sound { Sound layout }
    requires size_in_bounds { at + layout.size ≤ length table.now }
    ensures result_value { task_from result ≡ record_from layout table.now at }
    ensures priority_bound { result.priority.0 < 256 }
{
    let fields = layout.delays;
    // the delays first: their jump would part the bytes of the others from where they are put together (docs/PERFORMANCE.md)
    let first = Ticks(word(table, at + JITTER_AT));
    let last = latest(table, fields, at, first);
    TaskRecord {
        priority: Priority(table[at + PRIORITY_AT]),
        period: Ticks(word(table, at + PERIOD_AT)),
        cost: Ticks(word(table, at + COST_AT)),
        deadline: Ticks(word(table, at + DEADLINE_AT)),
        earliest: earliest(fields, first),
        latest: last,
    }
}

// The longest deadline that a task of a right period may have.
fn longest_deadline(span: u32, period: Ticks) -> Ticks
    requires { (span ≤ 4) × (period.0 ≤ 1000000) }
    ensures { result.0 ≡ longest_deadline span period.0 }
{
    Ticks((span * period.0).min(MOST_TICKS))
}

// Where the delay begins that is at fault: the earliest, if that is out of range, else the latest (SPECIFICATION 3.1; document 02,
// L4).
fn delay_at(fields: DelayFields, earliest: Ticks) -> usize
    ensures { (result ≡ delay_at fields earliest.0) × (result ≤ 17) }
{
    if MOST_TICKS < earliest.0 {
        return EARLIEST_AT;
    }
    latest_at(fields)
}

// Tests the record that begins at `at`: T, C, D, the delays, and then the priority, which stands first and is tested last (document
// 02, L3). The first that is wrong is refused at its own first byte. An earliest that is at most a right latest is right.
pub fn check(
    task: TaskRecord,
    layout: Layout,
    span: u32,
    at: usize,
    highest: Priority,
) -> Result<(), Refusal>
    requires { (span ≤ 4) × (at < 65536) }
    ensures { result ≡ record_fault (at_record layout at span highest.0) (task_from task) }
{
    if !within(1, MOST_TICKS, task.period.0) {
        return Err(Refusal::NumberOutOfRange(Offset(at + PERIOD_AT)));
    }
    if !within(1, MOST_TICKS, task.cost.0) {
        return Err(Refusal::NumberOutOfRange(Offset(at + COST_AT)));
    }
    if !within(1, longest_deadline(span, task.period).0, task.deadline.0) {
        return Err(Refusal::NumberOutOfRange(Offset(at + DEADLINE_AT)));
    }
    if !within(task.earliest.0, MOST_TICKS, task.latest.0) {
        let fields = layout.delays;
        let delay = delay_at(fields, task.earliest);
        return Err(Refusal::NumberOutOfRange(Offset(at + delay)));
    }
    if !within(1, u32::from(highest.0), u32::from(task.priority.0)) {
        return Err(Refusal::PriorityOutOfOrder(Offset(at + PRIORITY_AT)));
    }
    Ok(())
}

// Takes the n records in order, and keeps the fields of those before the first fault.
pub fn read_all(
    table: &[u8],
    layout: Layout,
    span: u32,
    n: usize,
    room: usize,
    bytes: &mut [u8],
    words: &mut [u32],
) -> Result<(), Refusal>
    requires head_read { HeadRead table.now layout n × (span ≤ 4) }
    requires lent { Lent table.now room bytes.old words.old }
    ensures value { result ≡ records_check span table.now }
    ensures filled { Filled (record_in table.now) (records_read span table.now) (record_columns room bytes.old words.old) (record_columns room bytes.new words.new) }
    ensures filled_2 { Filled (row_in table.now) 0 (row_columns room bytes.old words.old) (row_columns room bytes.new words.new) }
{
    let mut highest = Priority(HIGHEST_PRIORITY);
    let mut at = HEAD_SIZE;
    for i in 0..n {
        let task = read(table, layout, at);
        check(task, layout, span, at, highest)?;
        bytes[i] = task.priority.0;
        words[i] = task.period.0;
        words[room + i] = task.cost.0;
        words[2 * room + i] = task.deadline.0;
        words[3 * room + i] = task.latest.0 - task.earliest.0;
        words[4 * room + i] = task.latest.0;
        // priorities may repeat, but not rise
        highest = task.priority;
        at += layout.size;
    }
    Ok(())
}
