// The releases of a tick.
ghost use Rattle.std.specs.Prelude.{◌≡◌, ◌+◌, ◌*◌, ◌≤◌, ◌<◌, min, eqb, length, set};
ghost use Rattle.model.specs.Lists.{word_of};
ghost use Rattle.model.specs.Choice.{on};
ghost use Rattle.machine.specs.Machine as spec;
ghost use Rattle.machine.specs.Slices.{TasksHeld, WorkHeld, StateHeld, NoneDue, SomeReleased, WordReleased, Leaves, kept, released_in, words_for};

use crate::tasks::Tasks;
use crate::words::{TASKS, mask};
use model::{Place, Ticks};

// A ready word with what is released, and the earliest tick at which a task of it is due again.
#[derive(Clone, Copy, Debug, PartialEq, Eq)]
struct Released {
    ready: u64,
    next: Ticks,
}

// Releases the task at a place, if it is due: its cost is work, its bit is set, and it is due again a period later.
fn release_one(
    period: Ticks,
    cost: Ticks,
    at: Ticks,
    place: Place,
    left: &mut [u64],
    due: &mut [u32],
    ready: u64,
) -> u64
    requires place_in_bounds { (place.0 < length left.old) × (place.0 < length due.old) }
    requires period_bound { (period.0 ≤ 1000000) × (cost.0 ≤ 1000000) × (word_of left.old place.0 ≤ 1000000000000) × (word_of due.old place.0 ≤ 2000000) }
    ensures left_after { left.new ≡ set left.old place.0 (word_of left.old place.0 + on (eqb (word_of due.old place.0) at.0) cost.0) }
    ensures due_after { due.new ≡ set due.old place.0 (word_of due.old place.0 + on (eqb (word_of due.old place.0) at.0) period.0) }
    ensures value { result ≡ spec.raised_by (eqb (word_of due.old place.0) at.0) place.0 ready }
{
    let p = place.0;
    if due[p] != at.0 {
        return ready;
    }
    left[p] += u64::from(cost.0);
    due[p] += period.0;
    ready | mask(place)
}

// Looks once at every task from place `first` to before place `to`, the tasks of one word.
fn release_some(
    tasks: Tasks,
    first: usize,
    to: usize,
    at: Ticks,
    left: &mut [u64],
    due: &mut [u32],
    ready: u64,
) -> Released
    requires tasks_held { TasksHeld tasks.periods.now tasks.costs.now to × WorkHeld first to left.old due.old }
    requires first_le_to { (first ≤ to) × NoneDue first at.0 due.old }
    ensures { SomeReleased tasks.entry.periods.now tasks.entry.costs.now first to at.0 left.old due.old ready left.new due.new result.ready result.next.0 }
{
    let mut word = ready;
    let mut earliest = u32::MAX;
    for p in first..to {
        word = release_one(
            Ticks(tasks.periods[p]),
            Ticks(tasks.costs[p]),
            at,
            Place(p),
            left,
            due,
            word,
        );
        earliest = earliest.min(due[p]);
    }
    Released {
        ready: word,
        next: Ticks(earliest),
    }
}

// Looks into word w where it has a task that is due, and tells the earliest tick at which one of its tasks is due then.
fn release_word(
    tasks: Tasks,
    w: usize,
    at: Ticks,
    left: &mut [u64],
    due: &mut [u32],
    ready: &mut [u64],
    nexts: &mut [u32],
) -> Ticks
    requires tasks_held { TasksHeld tasks.periods.now tasks.costs.now tasks.n × WorkHeld (64 * w) tasks.n left.old due.old × NoneDue (64 * w) at.0 due.old }
    requires w_bound { (w < words_for tasks.n) × (w < length ready.old) × (w < length nexts.old) }
    requires w_value { (word_of nexts.old w ≡ spec.next_in (word_of due.old) tasks.n w) × (at.0 ≤ word_of nexts.old w) }
    ensures { WordReleased tasks.entry.periods.now tasks.entry.costs.now tasks.entry.n w at.0 (kept left.old due.old ready.old nexts.old) (kept left.new due.new ready.new nexts.new) result.0 }
{
    let next = nexts[w];
    if at.0 < next {
        return Ticks(next);
    }
    let first = TASKS * w;
    let released = release_some(
        tasks,
        first,
        tasks.n.min(first + TASKS),
        at,
        left,
        due,
        ready[w],
    );
    ready[w] = released.ready;
    nexts[w] = released.next.0;
    released.next
}

// Looks into every word that has a task that is due, and tells the earliest tick at which a task is due then.
pub fn release(
    tasks: Tasks,
    at: Ticks,
    left: &mut [u64],
    due: &mut [u32],
    ready: &mut [u64],
    nexts: &mut [u32],
) -> Ticks
    requires tasks_held { TasksHeld tasks.periods.now tasks.costs.now tasks.n × (at.0 < 1000000) }
    requires state_held { StateHeld tasks.n at.0 (kept left.old due.old ready.old nexts.old) }
    ensures { Leaves tasks.entry.n (kept left.old due.old ready.old nexts.old) (released_in tasks.entry.periods.now tasks.entry.costs.now tasks.entry.n at.0 (kept left.old due.old ready.old nexts.old)) (kept left.new due.new ready.new nexts.new) result.0 }
{
    let mut earliest = u32::MAX;
    for w in 0..tasks.words {
        let again = release_word(tasks, w, at, left, due, ready, nexts);
        earliest = earliest.min(again.0);
    }
    Ticks(earliest)
}
