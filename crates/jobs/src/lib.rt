// One task: its jobs in the time that it and the tasks that interfere with it keep the processor busy, q = 0, 1, 2 and so on. Numbers only.
#![tactic(auto)]

ghost use Rattle.std.specs.Prelude.{◌≡◌, ◌<◌, length};
ghost use Rattle.jobs.specs.Slices.{studied_from, Beginnable, Searchable, LongestBy};
ghost use Rattle.jobs.specs.Answers.{word_of, Told};

use equation::Loads;
use marks::{Mark, Tally, look_ahead, set_first};
use model::{OPEN, Ticks};
use solver::{ends_at_once, follow};

// A task's longest response time; or that it is late; or that it is open, since none of the q tried ended it.
#[derive(Clone, Copy, Debug, PartialEq, Eq)]
pub enum Answer {
    Within(Ticks),
    Late,
    Open,
}

// The word that a slice gets for it: 0 for late, and OPEN.
impl From<Answer> for u32 {
    ghost from_gives = { λ answer word. word ≡ word_of answer };

    fn from(answer: Answer) -> u32 {
        match answer {
            Answer::Within(response) => response.0,
            Answer::Late => 0,
            Answer::Open => OPEN,
        }
    }
}

// What is found for one task: its answer, and the number of q tried.
#[derive(Clone, Copy, Debug, PartialEq, Eq)]
pub struct Outcome {
    pub answer: Answer,
    pub tried: u32,
}

// The longest response time of one task. `held` is its blocking, `others` one cost of every load, `least` a mark that none of the loads' first
// marks is below, nor the task's own. A first term that is late, or that has passed none of them, is answered without any mark.
pub fn longest(
    loads: Loads,
    held: Ticks,
    cost: Ticks,
    period: Ticks,
    deadline: Ticks,
    others: Ticks,
    least: Mark,
    marks: &mut [u32],
) -> Outcome
    requires { Beginnable loads.periods.now loads.costs.now loads.spreads.now loads.own loads.count (studied_from loads.periods.now loads.costs.now loads.spreads.now loads.own loads.count held.0 cost.0 period.0 deadline.0) others.0 least.0 × (loads.count < length marks.old) }
    ensures { LongestBy (studied_from loads.entry.periods.now loads.entry.costs.now loads.entry.spreads.now loads.entry.own loads.entry.count held.0 cost.0 period.0 deadline.0) (word_of result.answer) result.tried × Told result.answer }
{
    let once = Ticks(cost.0 + held.0 + others.0);
    if deadline.0 < once.0 {
        return Outcome {
            answer: Answer::Late,
            tried: 1,
        };
    }
    // `least` is not above the own first mark, which without delays is the period: a term that has passed no mark is within it
    if ends_at_once(once, once, least) {
        return Outcome {
            answer: Answer::Within(once),
            tried: 1,
        };
    }
    set_first(loads, marks);
    search(
        loads,
        held,
        cost,
        period,
        deadline,
        once,
        look_ahead(least),
        least,
        marks,
    )
}

// Tries q = 0, 1, 2 and so on, up to 63. `start` is above no w(0), and is what is asked for by then. From one q to the next nothing starts
// over: one cost more is asked for, w(q) and one cost is not above w(q + 1), and the marks stay.
fn search(
    loads: Loads,
    held: Ticks,
    cost: Ticks,
    period: Ticks,
    deadline: Ticks,
    start: Ticks,
    ahead: Ticks,
    first: Mark,
    marks: &mut [u32],
) -> Outcome
    requires { Searchable loads.periods.now loads.costs.now loads.spreads.now loads.own loads.count (studied_from loads.periods.now loads.costs.now loads.spreads.now loads.own loads.count held.0 cost.0 period.0 deadline.0) start.0 ahead.0 marks.old first.0 }
    ensures { LongestBy (studied_from loads.entry.periods.now loads.entry.costs.now loads.entry.spreads.now loads.entry.own loads.entry.count held.0 cost.0 period.0 deadline.0) (word_of result.answer) result.tried × Told result.answer }
{
    // B + (1 + q)C, the term to go on from, qT, D + qT, and the largest R(q) so far
    let mut base = cost.0 + held.0;
    let mut x = start.0;
    let mut passed: u32 = 0;
    let mut limit = deadline.0;
    let mut largest: u32 = 0;
    let mut least = first;
    for q in 0..64 {
        if limit < x {
            return Outcome {
                answer: Answer::Late,
                tried: q + 1,
            };
        }
        let before = Tally {
            sum: u64::from(x),
            least,
        };
        let followed = follow(
            loads,
            Ticks(base),
            Ticks(x),
            Ticks(0),
            Ticks(limit),
            ahead,
            before,
            marks,
        );
        let Some(window) = followed.window else {
            return Outcome {
                answer: Answer::Late,
                tried: q + 1,
            };
        };
        let response = window.0 - passed;
        largest = largest.max(response);
        if response <= period.0 {
            return Outcome {
                answer: Answer::Within(Ticks(largest)),
                tried: q + 1,
            };
        }
        base += cost.0;
        x = window.0 + cost.0;
        passed += period.0;
        limit += period.0;
        least = followed.least;
    }
    Outcome {
        answer: Answer::Open,
        tried: 64,
    }
}
