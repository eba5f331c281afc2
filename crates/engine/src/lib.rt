// Plays a table tick by tick (SPECIFICATION 9; document 02, L1, L6 and L9): the answers and the verdict of the analysis, found another way.
#![tactic(auto)]

ghost use Rattle.std.specs.Prelude.{◌≡◌, ◌==◌, ◌+◌, ◌-◌, ◌*◌, ◌≤◌, length, position, Ok};
ghost use Rattle.model.specs.Lists.{word_of};
ghost use Rattle.model.specs.Search.{any};
ghost use Rattle.tables.specs.Layout.{task_count, priority_in};
ghost use Rattle.tables.specs.Meaning.{TableRight};
ghost use Rattle.tables.specs.Checks.{head_check};
ghost use Rattle.records.specs.Columns.{part, Lent};
ghost use Rattle.reading.specs.Sizes.{Sizes};
ghost use Rattle.blocking.specs.Sweep.{Zeros};
ghost use Rattle.answering.specs.Results.{result_of};
ghost use Rattle.engine.specs.Held.{NumbersHeld};
ghost use Rattle.engine.specs.Outcome.{tied_at, Played};

use machine::tasks::Tasks;
use model::Place;
use reading::{
    LARGE_BYTES, LARGE_ROOM, LARGE_WORDS, SMALL_BYTES, SMALL_ROOM, SMALL_WORDS, any_delay, is_large,
};
use response::Verdict;
use tables::{HEAD_SIZE, ONE_PERIOD, ROW_COUNT_AT, Refusal, TASK_COUNT_AT, VERSION_AT};
use ticking::{largest, play_all};

// Any bytes and any slice get a verdict. A refusal changes no word; otherwise words 0 to n - 1 are written, and later words stay.
pub fn play(table: &[u8], answers: &mut [u32]) -> Verdict
    ensures { Played table.now answers.old result answers.new }
{
    let head = tables::head::check(table);
    if let Err(refusal) = head {
        return Verdict::Refused(refusal);
    }
    if is_large(table) {
        return play_sized::<LARGE_ROOM, LARGE_BYTES, LARGE_WORDS>(table, answers);
    }
    play_sized::<SMALL_ROOM, SMALL_BYTES, SMALL_WORDS>(table, answers)
}

// Plays a table with a right head, of at most `ROOM` tasks, in columns of just that room: versions 1 and 2 are given no more than they need.
fn play_sized<const ROOM: usize, const BYTES: usize, const WORDS: usize>(
    table: &[u8],
    answers: &mut [u32],
) -> Verdict
    requires sizes { Sizes ROOM BYTES WORDS }
    requires table_fits { (head_check table.now ≡ Ok tt) × (task_count table.now ≤ ROOM) }
    ensures { Played table.now answers.old result answers.new }
{
    let mut bytes = [0u8; BYTES];
    let mut words = [0u32; WORDS];
    // the work left and the next release of each task
    let mut left = [0u64; ROOM];
    let mut due = [0u32; ROOM];
    play_in(
        table, ROOM, &mut bytes, &mut words, &mut left, &mut due, answers,
    )
}

// Plays a table with a right head in columns for `room` tasks, with a zero for the work left and for the next release of each task.
fn play_in(
    table: &[u8],
    room: usize,
    bytes: &mut [u8],
    words: &mut [u32],
    left: &mut [u64],
    due: &mut [u32],
    answers: &mut [u32],
) -> Verdict
    requires table_value { head_check table.now ≡ Ok tt }
    requires lent { Lent table.now room bytes.old words.old }
    requires zeros { Zeros left.old (task_count table.now) × Zeros due.old (task_count table.now) }
    ensures { Played table.now answers.old result answers.new }
{
    let found = reading::read(table, ONE_PERIOD, room, bytes, words);
    if let Err(refusal) = found {
        return Verdict::Refused(refusal);
    }
    play_columns(table, room, words, left, due, answers)
}

// Plays a table that the columns hold, where the slice has room and there is no row, no delay and no tie. No earliest delay is above its
// latest.
fn play_columns(
    table: &[u8],
    room: usize,
    words: &[u32],
    left: &mut [u64],
    due: &mut [u32],
    answers: &mut [u32],
) -> Verdict
    requires words_len { length words.now ≡ 5 * room + 64 }
    requires numbers_held { NumbersHeld table.now (part 0 (room - 0) words.now) (part room (2 * room - room) words.now) (part (2 * room) (3 * room - 2 * room) words.now) (part (4 * room) (5 * room - 4 * room) words.now) }
    requires zeros { Zeros left.old (task_count table.now) × Zeros due.old (task_count table.now) }
    ensures { Played table.now answers.old result answers.new }
{
    let n = usize::from(table[TASK_COUNT_AT]);
    if answers.len() < n {
        return Verdict::Refused(Refusal::NoRoom);
    }
    if table[ROW_COUNT_AT] != 0 {
        return Verdict::Refused(Refusal::NotPlayable);
    }
    let latest = &words[4 * room..5 * room];
    if any_delay(latest, n) {
        return Verdict::Refused(Refusal::NotPlayable);
    }
    if any_tie(table, n) {
        return Verdict::Refused(Refusal::NotPlayable);
    }
    let periods = &words[0..room];
    let costs = &words[room..2 * room];
    let deadlines = &words[2 * room..3 * room];
    let tasks = Tasks::new(periods, costs, deadlines, n);
    let limit = largest(deadlines, n);
    // a bit for each of 256 places, and the earliest next release of each 64 of them
    let mut ready = [0u64; 4];
    let mut nexts = [0u32; 4];
    play_all(tasks, limit, left, due, &mut ready, &mut nexts, answers);
    result(answers, n)
}

// Has a task the priority of the one before it? Priorities do not rise, so that every tie is found. They are read from the table: the engine
// has no other use for their column, which the compiler then leaves out (docs/PERFORMANCE.md).
fn any_tie(table: &[u8], n: usize) -> bool
    requires { TableRight table.now × (n ≡ task_count table.now) }
    ensures { result ≡ any (tied_at (priority_in table.now)) n }
{
    // a task by itself needs no layout
    if n < 2 {
        return false;
    }
    let layout = tables::layout::of(table[VERSION_AT]);
    let size = layout.size;
    let mut at = HEAD_SIZE;
    for i in 1..n {
        let next = at + size;
        if table[next] == table[at] {
            return true;
        }
        at = next;
    }
    false
}

// The first place whose answer is 0.
fn first_late(answers: &[u32]) -> Option<usize>
    ensures { result ≡ position (λ answer. answer == 0) answers.now }
{
    answers.iter().position(|answer| *answer == 0)
}

// Late at the first place whose answer is 0.
fn result(answers: &[u32], n: usize) -> Verdict
    requires { n ≤ length answers.now }
    ensures { result ≡ result_of (word_of answers.now) n }
{
    match first_late(&answers[..n]) {
        Some(i) => Verdict::Late(Place(i)),
        None => Verdict::Schedulable,
    }
}
