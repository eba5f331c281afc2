// Blocking by priority ceiling, of all tasks in one sweep from the last row and the last task to the first: each row is taken in once, and each
// task answered once. It rests on the order of an accepted table: priorities do not rise, and rows do not fall by place.
#![tactic(auto)]

ghost use Rattle.std.specs.Prelude.{◌≡◌, ℕ, ◌<◌, length, get_or, set};
ghost use Rattle.model.specs.Lists.{filled, largest_to, word_of};
ghost use Rattle.blocking.specs.Slices.{blocking_at, RowsHeld};
ghost use Rattle.blocking.specs.Sweep.{rows_of, kept_with, SemaphoresHeld, Zeros};

use model::{Priority, Ticks};

// How many rows name each semaphore.
fn rows_of(semaphores: &[u8], count: usize) -> [u8; 17]
    requires { SemaphoresHeld semaphores.now count }
    ensures { (s : ℕ) → s < 17 → get_or result s 0 ≡ rows_of semaphores.now s count }
{
    let mut found = [0u8; 17];
    for &semaphore in &semaphores[..count] {
        found[usize::from(semaphore)] += 1;
    }
    found
}

// The longest of the sections that are kept, one for each semaphore.
fn longest_kept(kept: &[u32]) -> Ticks
    requires { length kept.now ≡ 17 }
    ensures { result.0 ≡ largest_to (word_of kept.now) 17 }
{
    let mut most: u32 = 0;
    for &section in kept {
        most = most.max(section);
    }
    Ticks(most)
}

// Takes in a row of a semaphore of which `rest` rows stand before it. Where there is none, the row's task is at the ceiling: no task that is
// more urgent is blocked by that semaphore, so nothing is kept of it.
fn take_in(semaphore: usize, rest: u8, section: Ticks, most: Ticks, kept: &mut [u32]) -> Ticks
    requires kept_len { (length kept.old ≡ 17) × (semaphore < 17) }
    requires most_value { most.0 ≡ largest_to (word_of kept.old) 17 }
    ensures kept_after { kept.new ≡ set kept.old semaphore (kept_with rest section.0 (word_of kept.old semaphore)) }
    ensures result_value { result.0 ≡ largest_to (word_of kept.new) 17 }
{
    if rest == 0 {
        kept[semaphore] = 0;
        return longest_kept(kept);
    }
    kept[semaphore] = kept[semaphore].max(section.0);
    Ticks(most.0.max(section.0))
}

// B of each of n tasks, of which the last is answered first. Before a task is answered, the rows of all less urgent ones are taken in: `most`
// is then the longest section whose semaphore a task of at least its priority uses. Once no row is left, no task is blocked.
pub fn blocking(
    priorities: &[u8],
    places: &[u8],
    semaphores: &[u8],
    longest: &[u32],
    n: usize,
    count: usize,
    held: &mut [u32],
)
    requires rows_held { RowsHeld priorities.now places.now semaphores.now longest.now n count }
    requires zeros { Zeros held.old n }
    ensures { held.new ≡ filled (blocking_at priorities.now places.now semaphores.now longest.now count) n held.old }
{
    let mut rows = rows_of(semaphores, count);
    let mut kept = [0u32; 17];
    let mut most = Ticks(0);
    let mut left = count;
    let mut i = n;
    while 0 < i {
        if left == 0 {
            return;
        }
        let row = left - 1;
        let place = usize::from(places[row]);
        let owner = Priority(priorities[place]);
        let own = Priority(priorities[i - 1]);
        if owner.0 < own.0 {
            let semaphore = usize::from(semaphores[row]);
            let rest = rows[semaphore] - 1;
            rows[semaphore] = rest;
            most = take_in(semaphore, rest, Ticks(longest[row]), most, &mut kept);
            left = row;
            continue;
        }
        i -= 1;
        held[i] = most.0;
    }
}
