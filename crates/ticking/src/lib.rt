// The engine (SPECIFICATION 9; document 02, L1 and L9) over numbers alone, as crates/machine has it: it plays tick after tick, and knows no
// bytes and no tables.
#![tactic(auto)]

ghost use Rattle.std.specs.Prelude.{◌≡◌, ◌+◌, ◌-◌, ◌/◌, ◌≤◌, ◌<◌, eqb, ltb, length, set};
ghost use Rattle.model.specs.Choice.{pick};
ghost use Rattle.model.specs.Lists.{filled, largest_to, word_of};
ghost use Rattle.machine.specs.Machine as spec;
ghost use Rattle.machine.specs.Slices.{TasksHeld, DeadlinesHeld, WordsHeld, StateHeld, NextKnown, StartHeld, Leaves, PlayLeaves, HasNext, kept, place_or_none, released_in, served_in, reported_in};

use machine::tasks::Tasks;
use machine::words::next_place;
use machine::{release, words};
use model::{Place, Ticks};

// What a tick is told: the place that it serves where nothing is due, and the earliest tick at which a task is due.
#[derive(Clone, Copy, Debug, PartialEq, Eq)]
pub struct Ahead {
    pub place: Place,
    pub next: Ticks,
}

// The place served in a tick, and what the engine goes on with: the place of the next task, where a task has work, and the earliest tick at which
// a task is due.
#[derive(Clone, Copy, Debug, PartialEq, Eq)]
pub struct Tick {
    pub place: Place,
    pub following: Option<Place>,
    pub next: Ticks,
}

// Writes that the first job of a place is done after tick `at`, where the deadline is not past. Up to the deadline, which is within
// the period, there is no work but the first job's.
fn report(deadlines: &[u32], at: Ticks, place: Place, answers: &mut [u32])
    requires { (place.0 < length deadlines.now) × (place.0 < length answers.old) × (at.0 < 1000000) }
    ensures { answers.new ≡ set answers.old place.0 (pick (ltb at.0 (word_of deadlines.now place.0)) (at.0 + 1) (word_of answers.old place.0)) }
{
    let p = place.0;
    if deadlines[p] <= at.0 {
        return;
    }
    answers[p] = at.0 + 1;
}

// Takes one tick off the work left at the place of the next task, and tells the place of the task behind it. Where work is left, that is the
// same one; where that was the last, the place's bit goes off its ready word, and that is reported.
fn serve(
    tasks: Tasks,
    at: Ticks,
    place: Place,
    left: &mut [u64],
    ready: &mut [u64],
    answers: &mut [u32],
) -> Option<Place>
    requires n_bound { (tasks.n ≤ 200) × WordsHeld tasks.n ready.old × (place.0 ≡ spec.next_place (word_of ready.old)) }
    requires place_lt_n { (place.0 < tasks.n) × (place.0 < length left.old) × (1 ≤ word_of left.old place.0) }
    requires place_in_bounds { (place.0 < length tasks.deadlines.now) × (place.0 < length answers.old) × (at.0 < 1000000) }
    ensures left_after { left.new ≡ set left.old place.0 (word_of left.old place.0 - 1) }
    ensures ready_after { ready.new ≡ set ready.old (place.0 / 64) (spec.ready_after (eqb (word_of left.old place.0) 1) place.0 (word_of ready.old) (place.0 / 64)) }
    ensures result_value { result ≡ place_or_none (spec.next_place (spec.ready_after (eqb (word_of left.old place.0) 1) place.0 (word_of ready.old))) }
    ensures answers_after { answers.new ≡ set answers.old place.0 (reported_in (word_of left.old place.0) at.0 (word_of tasks.entry.deadlines.now place.0) (word_of answers.old place.0)) }
{
    let p = place.0;
    let rest = left[p] - 1;
    left[p] = rest;
    if rest != 0 {
        return Some(place);
    }
    report(tasks.deadlines, at, place, answers);
    words::clear(place, ready);
    next_place(ready, tasks.words)
}

// The releases of a tick, the place that it serves, and the earliest tick at which a task is due then. A tick before the next release has nothing
// to look at.
fn begin(
    tasks: Tasks,
    at: Ticks,
    left: &mut [u64],
    due: &mut [u32],
    ready: &mut [u64],
    nexts: &mut [u32],
    ahead: Ahead,
) -> Ahead
    requires tasks_held { TasksHeld tasks.periods.now tasks.costs.now tasks.n × (at.0 < 1000000) }
    requires state_held { StateHeld tasks.n at.0 (kept left.old due.old ready.old nexts.old) × NextKnown tasks.n at.0 (kept left.old due.old ready.old nexts.old) ahead.place.0 ahead.next.0 }
    requires has_next { HasNext tasks.n (released_in tasks.periods.now tasks.costs.now tasks.n at.0 (kept left.old due.old ready.old nexts.old)) }
    ensures leaves { Leaves tasks.entry.n (kept left.old due.old ready.old nexts.old) (released_in tasks.entry.periods.now tasks.entry.costs.now tasks.entry.n at.0 (kept left.old due.old ready.old nexts.old)) (kept left.new due.new ready.new nexts.new) result.next.0 }
    ensures place_value { result.place.0 ≡ spec.next_place (released_in tasks.entry.periods.now tasks.entry.costs.now tasks.entry.n at.0 (kept left.old due.old ready.old nexts.old)).ready }
{
    if at.0 < ahead.next.0 {
        return ahead;
    }
    let next = release::release(tasks, at, left, due, ready, nexts);
    let found = next_place(ready, tasks.words);
    Ahead {
        place: found.unwrap(),
        next,
    }
}

// One tick: releases what is due, then serves the most urgent ready task, and reports its first job where that is done.
pub fn step(
    tasks: Tasks,
    at: Ticks,
    left: &mut [u64],
    due: &mut [u32],
    ready: &mut [u64],
    nexts: &mut [u32],
    ahead: Ahead,
    answers: &mut [u32],
) -> Tick
    requires tasks_held { TasksHeld tasks.periods.now tasks.costs.now tasks.n }
    requires n_in_bounds { (tasks.n ≤ length tasks.deadlines.now) × (tasks.n ≤ length answers.old) × (at.0 < 1000000) }
    requires state_held { StateHeld tasks.n at.0 (kept left.old due.old ready.old nexts.old) × NextKnown tasks.n at.0 (kept left.old due.old ready.old nexts.old) ahead.place.0 ahead.next.0 }
    requires has_next { HasNext tasks.n (released_in tasks.periods.now tasks.costs.now tasks.n at.0 (kept left.old due.old ready.old nexts.old)) }
    ensures leaves { Leaves tasks.entry.n (kept left.old due.old ready.old nexts.old) (served_in tasks.entry.periods.now tasks.entry.costs.now tasks.entry.n at.0 (kept left.old due.old ready.old nexts.old)) (kept left.new due.new ready.new nexts.new) result.next.0 }
    ensures place_value { result.place.0 ≡ spec.next_place (released_in tasks.entry.periods.now tasks.entry.costs.now tasks.entry.n at.0 (kept left.old due.old ready.old nexts.old)).ready }
    ensures following_value { result.following ≡ place_or_none (spec.next_place (served_in tasks.entry.periods.now tasks.entry.costs.now tasks.entry.n at.0 (kept left.old due.old ready.old nexts.old)).ready) }
    ensures answers_after { answers.new ≡ set answers.old result.place.0 (reported_in ((released_in tasks.entry.periods.now tasks.entry.costs.now tasks.entry.n at.0 (kept left.old due.old ready.old nexts.old)).left result.place.0) at.0 (word_of tasks.entry.deadlines.now result.place.0) (word_of answers.old result.place.0)) }
{
    let begun = begin(tasks, at, left, due, ready, nexts, ahead);
    let following = serve(tasks, at, begun.place, left, ready, answers);
    Tick {
        place: begun.place,
        following,
        next: begun.next,
    }
}

// The largest of n counts of ticks.
pub fn largest(words: &[u32], n: usize) -> Ticks
    requires { n ≤ length words.now }
    ensures { result.0 ≡ largest_to (word_of words.now) n }
{
    Ticks(words[..n].iter().fold(0, |found, word| found.max(*word)))
}

// Where a play stops: the number of ticks that it played, the next task's place after them, where a task has work, and the earliest tick at which
// a task is due.
#[derive(Clone, Copy, Debug, PartialEq, Eq)]
pub struct Stopped {
    pub ticks: Ticks,
    pub place: Option<Place>,
    pub next: Ticks,
}

// Plays all n tasks at once, from tick 0, and writes when the first job of each is done: a 0 where none is. It plays at most `limit` ticks, and
// stops where no task has work left: then every first job is done, and no later tick can change an answer.
pub fn play_all(
    tasks: Tasks,
    limit: Ticks,
    left: &mut [u64],
    due: &mut [u32],
    ready: &mut [u64],
    nexts: &mut [u32],
    answers: &mut [u32],
) -> Stopped
    requires tasks_held { TasksHeld tasks.periods.now tasks.costs.now tasks.n }
    requires deadlines_held { DeadlinesHeld tasks.periods.now tasks.deadlines.now tasks.n }
    requires start_held { StartHeld tasks.n (kept left.old due.old ready.old nexts.old) }
    requires limit_bound { (limit.0 ≤ 1000000) × (tasks.n ≤ length answers.old) }
    ensures play_leaves { PlayLeaves tasks.entry.periods.now tasks.entry.costs.now tasks.entry.n limit.0 (kept left.old due.old ready.old nexts.old) (kept left.new due.new ready.new nexts.new) result.ticks.0 result.place result.next.0 }
    ensures answers_after { answers.new ≡ filled (spec.played (word_of tasks.entry.periods.now) (word_of tasks.entry.costs.now) tasks.entry.n (spec.up_to limit.0 (word_of tasks.entry.deadlines.now))) tasks.entry.n answers.old }
{
    answers[..tasks.n].fill(0);
    // all tasks are due in the first tick, which finds its place
    let mut ahead = Ahead {
        place: Place(0),
        next: Ticks(0),
    };
    for at in 0..limit.0 {
        let tick = step(tasks, Ticks(at), left, due, ready, nexts, ahead, answers);
        let next = tick.next;
        let Some(place) = tick.following else {
            return Stopped {
                ticks: Ticks(at + 1),
                place: None,
                next,
            };
        };
        ahead = Ahead { place, next };
    }
    Stopped {
        ticks: limit,
        place: next_place(ready, tasks.words),
        next: ahead.next,
    }
}
