// The marks of loads. In w ticks a load begins as many of its periods as w + spread holds, rounded up. Its mark is the last w for which
// that number holds: until w has passed it, the load asks for no more than it did.
#![tactic(auto)]

ghost use Rattle.std.specs.Prelude.{◌≡◌, ◌+◌, ◌-◌, ◌*◌, ◌≤◌, ◌<◌, min, length, set};
ghost use Rattle.model.specs.Lists.{filled, word_of};
ghost use Rattle.marks.specs.Marks.{raise, never, first_mark, first_mark_at, first_mark_for, least_from, begun_past, moved_mark, Markable, NextBelow, Passable, Passed, Advanced};

use equation::{Loads, div_up};
use model::Ticks;

// A count of ticks, raised by the greatest spread. So no mark is below 0, though a load whose spread is longer than its period begins
// more than one period in every w.
#[derive(Clone, Copy, Debug, PartialEq, Eq)]
pub struct Mark(pub u32);

const RAISE: u32 = 1000000;

// No count of ticks passes it.
const NEVER: u32 = 4294967295;

// The running sum of what is asked for, and a mark that no load's mark is below.
#[derive(Clone, Copy, Debug, PartialEq, Eq)]
pub struct Tally {
    pub sum: u64,
    pub least: Mark,
}

pub fn raised(w: Ticks) -> Mark
    requires { w.0 ≤ 1000000000 }
    ensures { result.0 ≡ w.0 + raise }
{
    Mark(w.0 + RAISE)
}

// The mark of a load that has begun one period.
fn first_mark(period: Ticks, spread: Ticks) -> Mark
    requires { (period.0 ≤ 1000000) × (spread.0 ≤ 1000000) }
    ensures { result.0 ≡ first_mark period.0 spread.0 }
{
    Mark(period.0 + (RAISE - spread.0))
}

// The least first mark of the loads of n places. Until w has passed it, each of them asks for one cost.
pub fn least_first(periods: &[u32], spreads: &[u32], n: usize) -> Mark
    requires { Markable periods.now spreads.now n }
    ensures { result.0 ≡ least_from never (first_mark_at periods.now spreads.now) n }
{
    let mut least = Mark(NEVER);
    for k in 0..n {
        let mark = first_mark(Ticks(periods[k]), Ticks(spreads[k]));
        least = Mark(least.0.min(mark.0));
    }
    least
}

// How far ahead of w a pass looks for the least mark. Where no task has a spread, that is the shortest period: the load that has it, if it is
// one, has a mark no further from w than that.
pub fn look_ahead(least: Mark) -> Ticks
    ensures { result.0 ≡ least.0 - raise }
{
    Ticks(least.0.saturating_sub(RAISE))
}

// Sets the marks of the places of the loads to their first ones, but for the own place, whose mark is never passed. Behind them stands a 0,
// which ends every search.
pub fn set_first(loads: Loads, marks: &mut [u32])
    requires { Markable loads.periods.now loads.spreads.now loads.count × (loads.count < length marks.old) }
    ensures { marks.new ≡ set (filled (first_mark_for loads.entry.periods.now loads.entry.spreads.now loads.entry.own) loads.entry.count marks.old) loads.entry.count 0 }
{
    for k in 0..loads.count {
        let mark = first_mark(Ticks(loads.periods[k]), Ticks(loads.spreads[k]));
        marks[k] = mark.0;
    }
    marks[loads.count] = 0;
    if loads.own < loads.count {
        marks[loads.own] = NEVER;
    }
}

// The first place from `from` on whose mark is below `least`. There is one, up to `end`.
fn next_below(marks: &[u32], end: usize, least: Mark, from: usize) -> usize
    requires { (end < length marks.now) × (word_of marks.now end < least.0) × (from ≤ end) }
    ensures { NextBelow marks.now least.0 from result }
{
    let mut k = from;
    while least.0 <= marks[k] {
        k += 1;
    }
    k
}

// Where a mark stands once w has come, and what the load asks for on the way.
#[derive(Clone, Copy, Debug, PartialEq, Eq)]
struct Step {
    mark: Mark,
    more: u64,
}

// No divide where w has passed the mark by no more than a period, one elsewhere.
fn moved(period: Ticks, cost: Ticks, mark: Mark, w: Mark) -> Step
    requires { (1 ≤ period.0) × (period.0 ≤ 1000000) × (w.0 ≤ 1001000000) }
    ensures { (result.mark.0 ≡ moved_mark w.0 period.0 mark.0) × (result.more ≡ cost.0 * begun_past w.0 period.0 mark.0) }
{
    if w.0 <= mark.0 {
        return Step { mark, more: 0 };
    }
    let over = Ticks(w.0 - mark.0);
    if over.0 <= period.0 {
        return Step {
            mark: Mark(mark.0 + period.0),
            more: u64::from(cost.0),
        };
    }
    let begun = div_up(over, period);
    Step {
        mark: Mark(mark.0 + begun * period.0),
        more: u64::from(cost.0) * u64::from(begun),
    }
}

// Moves every mark that w has passed of the places of the loads. One comparison passes over a load: a mark that is not below the least
// so far, which w has not passed, is not passed either. The least is looked for up to `ahead` ticks from w on: marks further on are passed
// over in whatever order they stand.
fn pass(loads: Loads, w: Mark, ahead: Ticks, before: u64, marks: &mut [u32]) -> Tally
    requires { Passable loads.periods.now loads.costs.now marks.old loads.count w.0 ahead.0 before }
    ensures { Passed loads.entry.periods.now loads.entry.costs.now marks.old loads.entry.count w.0 ahead.0 before marks.new result.sum result.least.0 }
{
    let mut sum = before;
    let mut least = Mark(w.0 + ahead.0);
    let mut k = next_below(marks, loads.count, least, 0);
    while k < loads.count {
        let next = moved(
            Ticks(loads.periods[k]),
            Ticks(loads.costs[k]),
            Mark(marks[k]),
            w,
        );
        sum += next.more;
        marks[k] = next.mark.0;
        least = Mark(least.0.min(next.mark.0));
        k = next_below(marks, loads.count, least, k + 1);
    }
    Tally { sum, least }
}

// The tally and the marks for w. Where w is not above the least mark, they stay.
pub fn advance(loads: Loads, w: Mark, ahead: Ticks, before: Tally, marks: &mut [u32]) -> Tally
    requires { Passable loads.periods.now loads.costs.now marks.old loads.count w.0 ahead.0 before.sum }
    ensures { Advanced loads.entry.periods.now loads.entry.costs.now marks.old loads.entry.count w.0 ahead.0 before.sum before.least.0 marks.new result.sum result.least.0 }
{
    if w.0 <= before.least.0 {
        return before;
    }
    pass(loads, w, ahead, before.sum, marks)
}
