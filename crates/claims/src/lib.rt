// Checks claimed response times (SPECIFICATION 13.7; document 02, L7): each claim is looked at once, with one demand and no iteration.
#![tactic(auto)]

ghost use Rattle.std.specs.Prelude.{◌≡◌, ◌-◌, ◌≤◌, ◌<◌, length, Ok};
ghost use Rattle.model.specs.Lists.{sum_of};
ghost use Rattle.tables.specs.Layout.{task_count};
ghost use Rattle.tables.specs.Checks.{head_check};
ghost use Rattle.records.specs.Columns.{record_columns, row_columns, Lent, TableHeld};
ghost use Rattle.reading.specs.Sizes.{Sizes};
ghost use Rattle.blocking.specs.Sweep.{Zeros};
ghost use Rattle.equation.specs.Laws.{cost_of};
ghost use Rattle.equation.specs.Lent.{loads_from, Fit};
ghost use Rattle.answering.specs.Slices.{DecodedFits};
ghost use Rattle.answering.specs.Lent.{decoded_from};
ghost use Rattle.claims.specs.Claims.{claim_passes, compared_of, Checked};
ghost use Rattle.claims.specs.Columns.{passes_in};
ghost use Rattle.claims.specs.Numbers.{code_of, claimed_place, packed};

use answering::{NO_GROUP, Tasks, group_of};
use equation::Loads;
use model::{Place, Ticks};
use reading::{
    LARGE_BYTES, LARGE_ROOM, LARGE_WORDS, SMALL_BYTES, SMALL_ROOM, SMALL_WORDS, is_large,
};
use response::{Told, find_blocking, pack};
use tables::{ONE_PERIOD, Refusal, TASK_COUNT_AT};

// What is said of a list of claims.
#[derive(Clone, Copy, Debug, PartialEq, Eq)]
pub enum Claimed {
    // the table breaks a rule: refusals 1 to 7
    Refused(Refusal),
    // the list has fewer or more words than the table has tasks: refusal 10
    WrongCount,
    Pass,
    // the first place whose claim fails
    Fails(Place),
}

// Any bytes and any list get an answer. Nothing is written.
pub fn check_claims(table: &[u8], claims: &[u32]) -> Claimed
    ensures { Checked table.now claims.now result }
{
    let head = tables::head::check(table);
    if let Err(refusal) = head {
        return Claimed::Refused(refusal);
    }
    if is_large(table) {
        return check_sized::<LARGE_ROOM, LARGE_BYTES, LARGE_WORDS>(table, claims);
    }
    check_sized::<SMALL_ROOM, SMALL_BYTES, SMALL_WORDS>(table, claims)
}

// Checks the claims for a table with a right head, of at most `ROOM` tasks, in columns of just that room: versions 1 and 2 are given no more than
// they need.
fn check_sized<const ROOM: usize, const BYTES: usize, const WORDS: usize>(
    table: &[u8],
    claims: &[u32],
) -> Claimed
    requires sizes { Sizes ROOM BYTES WORDS }
    requires table_fits { (head_check table.now ≡ Ok tt) × (task_count table.now ≤ ROOM) }
    ensures { Checked table.now claims.now result }
{
    let mut bytes = [0u8; BYTES];
    let mut words = [0u32; WORDS];
    // the blocking of each task
    let mut held = [0u32; ROOM];
    check_in(table, ROOM, &mut bytes, &mut words, &mut held, claims)
}

// Checks the claims for a table with a right head, in columns for `room` tasks and a zero for the blocking of each task.
fn check_in(
    table: &[u8],
    room: usize,
    bytes: &mut [u8],
    words: &mut [u32],
    held: &mut [u32],
    claims: &[u32],
) -> Claimed
    requires table_value { head_check table.now ≡ Ok tt }
    requires lent { Lent table.now room bytes.old words.old × Zeros held.old (task_count table.now) }
    ensures { Checked table.now claims.now result }
{
    let found = reading::read(table, ONE_PERIOD, room, bytes, words);
    if let Err(refusal) = found {
        return Claimed::Refused(refusal);
    }
    let n = usize::from(table[TASK_COUNT_AT]);
    if claims.len() != n {
        return Claimed::WrongCount;
    }
    check_table(table, room, bytes, words, held, claims)
}

// Checks a claim for each task of a table that the columns hold. The blocking of all tasks is found first.
fn check_table(
    table: &[u8],
    room: usize,
    bytes: &[u8],
    words: &[u32],
    held: &mut [u32],
    claims: &[u32],
) -> Claimed
    requires lent { Lent table.now room bytes.now words.now × Zeros held.old (task_count table.now) }
    requires claims_len { length claims.now ≡ task_count table.now }
    requires table_held { TableHeld 1 table.now (record_columns room bytes.now words.now) (row_columns room bytes.now words.now) }
    ensures { Checked table.now claims.now result }
{
    let n = usize::from(table[TASK_COUNT_AT]);
    find_blocking(table, room, bytes, words, held);
    // of the words: periods, costs, deadlines, spreads, latest delays
    let tasks = Tasks {
        priorities: bytes,
        periods: &words[0..room],
        costs: &words[room..2 * room],
        deadlines: &words[2 * room..3 * room],
        spreads: &words[3 * room..4 * room],
        latest: &words[4 * room..5 * room],
        held,
        n,
    };
    check_all(tasks, claims)
}

// The first claim that fails, over the columns of a decoded table.
fn check_all(tasks: Tasks, claims: &[u32]) -> Claimed
    requires decoded_fits { DecodedFits (decoded_from tasks) tasks.n }
    requires n_in_bounds { tasks.n ≤ length claims.now }
    ensures { result ≡ compared_of (passes_in (decoded_from tasks.entry) tasks.entry.n claims.now) tasks.entry.n }
{
    let mut group = NO_GROUP;
    for i in 0..tasks.n {
        group = group_of(tasks, group, i);
        let loads = tasks.loads(i, group.count);
        let cost = tasks.costs[i];
        let base = Ticks(cost + tasks.held[i]);
        let others = Ticks(group.all.0 - cost);
        let latest = Ticks(tasks.latest[i]);
        let deadline = Ticks(tasks.deadlines[i]);
        if !passes(loads, base, others, latest, deadline, Ticks(claims[i])) {
            return Claimed::Fails(Place(i));
        }
    }
    Claimed::Pass
}

// Does a task's claim pass? `others` is one cost of each of its loads. "w = r minus the latest delay", for a claim r: no tick is taken off one
// that is too small, and nothing is asked for one that is past the deadline.
fn passes(
    loads: Loads,
    base: Ticks,
    others: Ticks,
    latest: Ticks,
    deadline: Ticks,
    claim: Ticks,
) -> bool
    requires loads_fit { Fit loads loads.count × (loads.own ≤ loads.count) × (others.0 ≡ sum_of cost_of (loads_from loads)) }
    requires deadline_bound { deadline.0 ≤ 1000000 }
    ensures { result ≡ claim_passes base.0 (loads_from loads.entry) latest.0 deadline.0 claim.0 }
{
    if claim.0 <= latest.0 || deadline.0 < claim.0 {
        return false;
    }
    let w = Ticks(claim.0 - latest.0);
    loads.demand(base, others, w) <= u64::from(w.0)
}

impl Told for Claimed {
    ghost code_of = { code_of };

    ghost place_of = { claimed_place };

    // The refusal's number; 0 for pass, 255 for fails.
    fn code(self) -> u32 {
        match self {
            Claimed::Refused(refusal) => tables::number(refusal),
            Claimed::WrongCount => 10,
            Claimed::Pass => 0,
            Claimed::Fails(_) => 255,
        }
    }

    // The refusal's place (a byte of the table, or 0), or that of the first task whose claim fails.
    fn place(self) -> usize {
        match self {
            Claimed::Refused(refusal) => tables::place(refusal),
            Claimed::WrongCount | Claimed::Pass => 0,
            Claimed::Fails(at) => at.0,
        }
    }
}

// The same as a function, for who does without the trait: the refusal's number; 0 for pass, 255 for fails.
pub fn code(claimed: Claimed) -> u32
    ensures { result ≡ code_of claimed }
{
    claimed.code()
}

// The refusal's place (a byte of the table, or 0), or that of the first task whose claim fails.
pub fn place(claimed: Claimed) -> usize
    ensures { result ≡ claimed_place claimed }
{
    claimed.place()
}

// What `check_claims` says, in one number, for C (crates/claims_c).
pub fn packed_claims(table: &[u8], claims: &[u32]) -> u64
    ensures { result ≡ packed table.now claims.now }
{
    pack(check_claims(table, claims))
}
