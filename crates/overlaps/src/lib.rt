// The second analysis (SPECIFICATION 13.8; document 02, L8): deadlines may be past the period, so that jobs of one task may overlap.
#![tactic(auto)]

ghost use Rattle.std.specs.Prelude.{◌≡◌, true, ◌+◌, ◌≤◌, ◌<◌, length, Ok};
ghost use Rattle.model.specs.Choice.{pick};
ghost use Rattle.tables.specs.Layout.{task_count};
ghost use Rattle.tables.specs.Checks.{head_check};
ghost use Rattle.records.specs.Columns.{record_columns, row_columns, Lent, TableHeld};
ghost use Rattle.reading.specs.Sizes.{Sizes};
ghost use Rattle.blocking.specs.Sweep.{Zeros};
ghost use Rattle.marks.specs.Marks.{PeriodsHigh};
ghost use Rattle.jobs.specs.Answers.{word_of, Told};
ghost use Rattle.answering.specs.Slices.{DecodedFits, slice};
ghost use Rattle.answering.specs.Lent.{decoded_from};
ghost use Rattle.overlaps.specs.Outcome.{is_schedulable, is_calm, said_by, lending, leaving, PastOutcome};
ghost use Rattle.overlaps.specs.Columns.{AllFound};
ghost use Rattle.overlaps.specs.Numbers.{code_of, found_place, PackedOutcome};

use answering::{NO_GROUP, Tasks, group_of};
use jobs::{Answer, longest};
use marks::least_first;
use model::{Place, Ticks};
use reading::{
    LARGE_BYTES, LARGE_MARKS, LARGE_ROOM, LARGE_WORDS, SMALL_BYTES, SMALL_MARKS, SMALL_ROOM,
    SMALL_WORDS, any_delay, is_large,
};
use response::{Told, find_blocking, has_room, pack};
use tables::{FOUR_PERIODS, Refusal, TASK_COUNT_AT};

// What is said of a table.
#[derive(Clone, Copy, Debug, PartialEq, Eq)]
pub enum Found {
    // the table breaks a rule, or a slice is too short: refusals 1 to 8
    Refused(Refusal),
    // a task has a delay: refusal 11
    Delayed,
    Schedulable,
    // the first task that is late or open, by its own word
    Late(Place),
    Open(Place),
}

// Any bytes and any slices get an answer. A refusal changes no word; otherwise words 0 to n - 1 of `answers` are the tasks' longest response
// times, 0 for late and 4,294,967,295 for open, words 0 to n - 1 of `tried` the numbers of q tried, and later words stay.
pub fn analyse_past_period(table: &[u8], answers: &mut [u32], tried: &mut [u32]) -> Found
    ensures { PastOutcome (lending table.now answers.old tried.old) (leaving result answers.new tried.new) }
{
    let head = tables::head::check(table);
    if let Err(refusal) = head {
        return Found::Refused(refusal);
    }
    if is_large(table) {
        return analyse_sized::<LARGE_ROOM, LARGE_BYTES, LARGE_WORDS, LARGE_MARKS>(
            table, answers, tried,
        );
    }
    analyse_sized::<SMALL_ROOM, SMALL_BYTES, SMALL_WORDS, SMALL_MARKS>(table, answers, tried)
}

// Analyses a table with a right head, of at most `ROOM` tasks, in columns of just that room: versions 1 and 2 are given no more than they need.
fn analyse_sized<const ROOM: usize, const BYTES: usize, const WORDS: usize, const MARKS: usize>(
    table: &[u8],
    answers: &mut [u32],
    tried: &mut [u32],
) -> Found
    requires sizes { Sizes ROOM BYTES WORDS × (MARKS ≡ ROOM + 1) }
    requires table_fits { (head_check table.now ≡ Ok tt) × (task_count table.now ≤ ROOM) }
    ensures { PastOutcome (lending table.now answers.old tried.old) (leaving result answers.new tried.new) }
{
    let mut bytes = [0u8; BYTES];
    let mut words = [0u32; WORDS];
    // the blocking of each task; a mark for each, and one more
    let mut held = [0u32; ROOM];
    let mut marks = [0u32; MARKS];
    analyse_in(
        table, ROOM, &mut bytes, &mut words, &mut held, &mut marks, answers, tried,
    )
}

// Analyses a table with a right head in columns for `room` tasks, a zero for the blocking of each task, and marks.
fn analyse_in(
    table: &[u8],
    room: usize,
    bytes: &mut [u8],
    words: &mut [u32],
    held: &mut [u32],
    marks: &mut [u32],
    answers: &mut [u32],
    tried: &mut [u32],
) -> Found
    requires table_value { head_check table.now ≡ Ok tt }
    requires lent { Lent table.now room bytes.old words.old }
    requires zeros { Zeros held.old (task_count table.now) × (task_count table.now < length marks.old) }
    ensures { PastOutcome (lending table.now answers.old tried.old) (leaving result answers.new tried.new) }
{
    let checked = reading::read(table, FOUR_PERIODS, room, bytes, words);
    if let Err(refusal) = checked {
        return Found::Refused(refusal);
    }
    let n = usize::from(table[TASK_COUNT_AT]);
    if !has_room(n, answers.len(), tried.len()) {
        return Found::Refused(Refusal::NoRoom);
    }
    if any_delay(&words[4 * room..5 * room], n) {
        return Found::Delayed;
    }
    find(table, room, bytes, words, held, marks, answers, tried)
}

// Finds the words of a table that the columns hold and that has no delay, in slices that have room. The blocking of all tasks is found first.
fn find(
    table: &[u8],
    room: usize,
    bytes: &[u8],
    words: &[u32],
    held: &mut [u32],
    marks: &mut [u32],
    answers: &mut [u32],
    tried: &mut [u32],
) -> Found
    requires lent { Lent table.now room bytes.now words.now }
    requires zeros { Zeros held.old (task_count table.now) × (task_count table.now < length marks.old) }
    requires table_in_bounds { (task_count table.now ≤ length answers.old) × (task_count table.now ≤ length tried.old) }
    requires table_held { TableHeld 4 table.now (record_columns room bytes.now words.now) (row_columns room bytes.now words.now) × (is_calm table.now ≡ true) }
    ensures { PastOutcome (lending table.now answers.old tried.old) (leaving result answers.new tried.new) }
{
    let n = usize::from(table[TASK_COUNT_AT]);
    find_blocking(table, room, bytes, words, held);
    // of the words: periods, costs, deadlines, spreads, latest delays
    let tasks = Tasks {
        priorities: bytes,
        periods: &words[0..room],
        costs: &words[room..2 * room],
        deadlines: &words[2 * room..3 * room],
        spreads: &words[3 * room..4 * room],
        latest: &words[4 * room..5 * room],
        held,
        n,
    };
    find_all(tasks, answers, tried, marks)
}

// The words of the tasks, and what is found. Groups and their costs are found along the way, as the first analysis does. The words of `marks`
// are scratch, one for each task and one more, made once for a table.
fn find_all(tasks: Tasks, answers: &mut [u32], tried: &mut [u32], marks: &mut [u32]) -> Found
    requires decoded_fits { DecodedFits (decoded_from tasks) tasks.n }
    requires periods_high { PeriodsHigh tasks.periods.now tasks.n × (tasks.n < length marks.old) }
    requires n_in_bounds { (tasks.n ≤ length answers.old) × (tasks.n ≤ length tried.old) }
    ensures { AllFound (decoded_from tasks.entry) tasks.entry.n result (slice answers.old answers.new) (slice tried.old tried.new) }
{
    let least = least_first(tasks.periods, tasks.spreads, tasks.n);
    let mut group = NO_GROUP;
    let mut found = Found::Schedulable;
    for i in 0..tasks.n {
        group = group_of(tasks, group, i);
        let loads = tasks.loads(i, group.count);
        let cost = Ticks(tasks.costs[i]);
        let outcome = longest(
            loads,
            Ticks(tasks.held[i]),
            cost,
            Ticks(tasks.periods[i]),
            Ticks(tasks.deadlines[i]),
            Ticks(group.all.0 - cost.0),
            least,
            marks,
        );
        answers[i] = u32::from(outcome.answer);
        tried[i] = outcome.tried;
        found = with_answer(found, outcome.answer, Place(i));
    }
    found
}

// What is found with one task more: the first that is late or open stays.
fn with_answer(found: Found, answer: Answer, at: Place) -> Found
    requires { Told answer }
    ensures { result ≡ pick (is_schedulable found) (said_by (word_of answer) at) found }
{
    match (found, answer) {
        (Found::Schedulable, Answer::Late) => Found::Late(at),
        (Found::Schedulable, Answer::Open) => Found::Open(at),
        (before, _) => before,
    }
}

impl Told for Found {
    ghost code_of = { code_of };

    ghost place_of = { found_place };

    // The refusal's number; 0 for schedulable, 255 for late, 254 for open.
    fn code(self) -> u32 {
        match self {
            Found::Refused(refusal) => tables::number(refusal),
            Found::Delayed => 11,
            Found::Schedulable => 0,
            Found::Late(_) => 255,
            Found::Open(_) => 254,
        }
    }

    // The refusal's place (a byte of the table, or 0), or that of the first task that is late or open.
    fn place(self) -> usize {
        match self {
            Found::Refused(refusal) => tables::place(refusal),
            Found::Delayed | Found::Schedulable => 0,
            Found::Late(at) | Found::Open(at) => at.0,
        }
    }
}

// The same as a function, for who does without the trait: the refusal's number; 0 for schedulable, 255 for late, 254 for open.
pub fn code(found: Found) -> u32
    ensures { result ≡ code_of found }
{
    found.code()
}

// The refusal's place (a byte of the table, or 0), or that of the first task that is late or open.
pub fn place(found: Found) -> usize
    ensures { result ≡ found_place found }
{
    found.place()
}

// What `analyse_past_period` says, in one number, for C (crates/overlaps_c).
pub fn packed_past_period(table: &[u8], answers: &mut [u32], tried: &mut [u32]) -> u64
    ensures { PackedOutcome table.now answers.old tried.old result answers.new tried.new }
{
    pack(analyse_past_period(table, answers, tried))
}
