// The public entry: the bytes of one table and two lent slices in, a verdict out, answers and rounds in the slices.
#![tactic(auto)]

ghost use Rattle.std.specs.Prelude.{◌≡◌, ℕ, ◌+◌, ◌*◌, ◌≤◌, ◌<◌, leb, length, Ok};
ghost use Rattle.model.specs.Choice.{both};
ghost use Rattle.model.specs.Lists.{filled};
ghost use Rattle.tables.specs.Layout.{task_count, table_of};
ghost use Rattle.tables.specs.Checks.{head_check};
ghost use Rattle.records.specs.Columns.{record_columns, row_columns, Lent, TableHeld};
ghost use Rattle.reading.specs.Sizes.{Sizes};
ghost use Rattle.blocking.specs.Ceilings.{blocking_of};
ghost use Rattle.blocking.specs.Sweep.{Zeros};
ghost use Rattle.response.specs.Verdicts.{code_of, verdict_place};
ghost use Rattle.response.specs.Outcome.{Outcome, lending, leaving};
ghost use Rattle.response.specs.Packing.{PackedOutcome};
ghost use Rattle.equation.specs.declared.Start.TheVariants.{EveryCost};

pub use answering::Verdict;
use answering::{Tasks, answer_all};
pub use equation::Start;
use reading::{
    LARGE_BYTES, LARGE_MARKS, LARGE_ROOM, LARGE_WORDS, ROW_ROOM, SMALL_BYTES, SMALL_MARKS,
    SMALL_ROOM, SMALL_WORDS, is_large,
};
use tables::{ONE_PERIOD, ROW_COUNT_AT, Refusal, TASK_COUNT_AT};

// What is told as two numbers: which case it is, and the place that the case has, or 0.
pub trait Told: Copy {
    ghost code_of: { Self → ℕ };

    ghost place_of: { Self → ℕ };

    fn code(self) -> u32
        ensures { result ≡ code_of self };

    fn place(self) -> usize
        ensures { result ≡ place_of self };
}

impl Told for Verdict {
    ghost code_of = { code_of };

    ghost place_of = { verdict_place };

    // The refusal's number; 0 for schedulable, 255 for late.
    fn code(self) -> u32 {
        match self {
            Verdict::Refused(refusal) => tables::number(refusal),
            Verdict::Schedulable => 0,
            Verdict::Late(_) => 255,
        }
    }

    // The refusal's place (a byte of the table, or 0), or the first late task's.
    fn place(self) -> usize {
        match self {
            Verdict::Refused(refusal) => tables::place(refusal),
            Verdict::Schedulable => 0,
            Verdict::Late(at) => at.0,
        }
    }
}

// The same as a function, for who does without the trait: the refusal's number; 0 for schedulable, 255 for late.
pub fn code(verdict: Verdict) -> u32
    ensures { result ≡ code_of verdict }
{
    verdict.code()
}

// The refusal's place (a byte of the table, or 0), or the first late task's.
pub fn place(verdict: Verdict) -> usize
    ensures { result ≡ verdict_place verdict }
{
    verdict.place()
}

// Both in one number, for C: the code in the upper 32 bits, the place in the lower 32. No place of a table's reaches 65,536, since a table
// states its length in two bytes.
pub fn pack<T: Told>(told: T) -> u64
    requires { T.place_of told < 65536 }
    ensures { result ≡ T.code_of told * 4294967296 + T.place_of told }
{
    u64::from(told.code()) * 4294967296 + told.place() as u64
}

// Any bytes and any slices get a verdict. A refusal changes no word; otherwise words 0 to n - 1 of `answers` and `rounds` are
// written, and later words stay. The rounds are those from the default start.
pub fn analyse(table: &[u8], answers: &mut [u32], rounds: &mut [u32]) -> Verdict
    ensures { Outcome EveryCost (lending table.now answers.old rounds.old) (leaving result answers.new rounds.new) }
{
    analyse_from(Start::EveryCost, table, answers, rounds)
}

// The same, with the rounds from either start (SPECIFICATION 5.1; document 02, L5). Verdict and answers do not depend on it.
pub fn analyse_from(start: Start, table: &[u8], answers: &mut [u32], rounds: &mut [u32]) -> Verdict
    ensures { Outcome start (lending table.now answers.old rounds.old) (leaving result answers.new rounds.new) }
{
    let head = tables::head::check(table);
    if let Err(refusal) = head {
        return Verdict::Refused(refusal);
    }
    if is_large(table) {
        return analyse_sized::<LARGE_ROOM, LARGE_BYTES, LARGE_WORDS, LARGE_MARKS>(
            start, table, answers, rounds,
        );
    }
    analyse_sized::<SMALL_ROOM, SMALL_BYTES, SMALL_WORDS, SMALL_MARKS>(
        start, table, answers, rounds,
    )
}

// Analyses a table with a right head, of at most `ROOM` tasks, in columns of just that room: versions 1 and 2 are given no more than they need.
fn analyse_sized<const ROOM: usize, const BYTES: usize, const WORDS: usize, const MARKS: usize>(
    start: Start,
    table: &[u8],
    answers: &mut [u32],
    rounds: &mut [u32],
) -> Verdict
    requires sizes { Sizes ROOM BYTES WORDS × (MARKS ≡ ROOM + 1) }
    requires table_fits { (head_check table.now ≡ Ok tt) × (task_count table.now ≤ ROOM) }
    ensures { Outcome start (lending table.now answers.old rounds.old) (leaving result answers.new rounds.new) }
{
    let mut bytes = [0u8; BYTES];
    let mut words = [0u32; WORDS];
    // the blocking of each task; a mark for each, and one more
    let mut held = [0u32; ROOM];
    let mut marks = [0u32; MARKS];
    analyse_in(
        start, table, ROOM, &mut bytes, &mut words, &mut held, &mut marks, answers, rounds,
    )
}

// Analyses a table with a right head in columns for `room` tasks, a zero for the blocking of each task, and marks.
fn analyse_in(
    start: Start,
    table: &[u8],
    room: usize,
    bytes: &mut [u8],
    words: &mut [u32],
    held: &mut [u32],
    marks: &mut [u32],
    answers: &mut [u32],
    rounds: &mut [u32],
) -> Verdict
    requires table_value { head_check table.now ≡ Ok tt }
    requires lent { Lent table.now room bytes.old words.old }
    requires zeros { Zeros held.old (task_count table.now) × (task_count table.now < length marks.old) }
    ensures { Outcome start (lending table.now answers.old rounds.old) (leaving result answers.new rounds.new) }
{
    let found = reading::read(table, ONE_PERIOD, room, bytes, words);
    if let Err(refusal) = found {
        return Verdict::Refused(refusal);
    }
    let n = usize::from(table[TASK_COUNT_AT]);
    if !has_room(n, answers.len(), rounds.len()) {
        return Verdict::Refused(Refusal::NoRoom);
    }
    answer(
        start, table, room, bytes, words, held, marks, answers, rounds,
    )
}

// Is there a word for each of n tasks in both slices?
pub fn has_room(n: usize, answers: usize, rounds: usize) -> bool
    ensures { result ≡ both (leb n answers) (leb n rounds) }
{
    if answers < n {
        return false;
    }
    n <= rounds
}

// B of each task of a table that the columns hold, however many periods its deadlines may span, in a slice that has a zero for each.
pub fn find_blocking(table: &[u8], room: usize, bytes: &[u8], words: &[u32], held: &mut [u32])
    requires lent { Lent table.now room bytes.now words.now }
    requires by_index { (span : ℕ) × TableHeld span table.now (record_columns room bytes.now words.now) (row_columns room bytes.now words.now) }
    requires zeros { Zeros held.old (task_count table.now) }
    ensures { held.new ≡ filled (blocking_of (table_of table.now)) (task_count table.now) held.old }
{
    let n = usize::from(table[TASK_COUNT_AT]);
    let m = usize::from(table[ROW_COUNT_AT]);
    // the priorities are the first bytes
    let places = &bytes[room..room + ROW_ROOM];
    let semaphores = &bytes[room + ROW_ROOM..room + 2 * ROW_ROOM];
    // of the words the longest sections are the last
    let longest = &words[5 * room..5 * room + ROW_ROOM];
    blocking::blocking(bytes, places, semaphores, longest, n, m, held);
}

// Answers a table that the columns hold, in slices that have room. The blocking of all tasks is found first.
fn answer(
    start: Start,
    table: &[u8],
    room: usize,
    bytes: &[u8],
    words: &[u32],
    held: &mut [u32],
    marks: &mut [u32],
    answers: &mut [u32],
    rounds: &mut [u32],
) -> Verdict
    requires lent { Lent table.now room bytes.now words.now }
    requires zeros { Zeros held.old (task_count table.now) × (task_count table.now < length marks.old) }
    requires table_in_bounds { (task_count table.now ≤ length answers.old) × (task_count table.now ≤ length rounds.old) }
    requires table_held { TableHeld 1 table.now (record_columns room bytes.now words.now) (row_columns room bytes.now words.now) }
    ensures { Outcome start (lending table.now answers.old rounds.old) (leaving result answers.new rounds.new) }
{
    let n = usize::from(table[TASK_COUNT_AT]);
    find_blocking(table, room, bytes, words, held);
    // of the words: periods, costs, deadlines, spreads, latest delays
    let tasks = Tasks {
        priorities: bytes,
        periods: &words[0..room],
        costs: &words[room..2 * room],
        deadlines: &words[2 * room..3 * room],
        spreads: &words[3 * room..4 * room],
        latest: &words[4 * room..5 * room],
        held,
        n,
    };
    answer_all(start, tasks, answers, rounds, marks)
}

// The analysis from either start, its verdict in one number, for C.
pub fn packed_from(start: Start, table: &[u8], answers: &mut [u32], rounds: &mut [u32]) -> u64
    ensures { PackedOutcome start table.now answers.old rounds.old result answers.new rounds.new }
{
    pack(analyse_from(start, table, answers, rounds))
}
