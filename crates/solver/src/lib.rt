// The solver: follows the written sequence of a task to its end, over numbers alone.
#![tactic(auto)]

ghost use Rattle.std.specs.Prelude.{◌+◌, ◌≤◌, ◌<◌, ◌≡◌, eqb, leb, length};
ghost use Rattle.model.specs.Choice.{both};
ghost use Rattle.equation.specs.Lent.{loads_from, Fit};
ghost use Rattle.marks.specs.Marks.{raise, Begun};
ghost use Rattle.solver.specs.Solver.{is_late, ticks_of, Solvable, SolvedBy, Followable, FollowedBy};

use equation::Loads;
use marks::{Mark, Tally};
use model::Ticks;

// A task's longest response time, none where it is late, and the rounds spent on it.
#[derive(Clone, Copy, Debug, PartialEq, Eq)]
pub struct Solved {
    pub response: Option<Ticks>,
    pub rounds: u32,
}

// What following the sequence comes to: its last term, which is the smallest solution, and none where it is late; the rounds; and a mark that
// none of the loads' marks is below.
#[derive(Clone, Copy, Debug, PartialEq, Eq)]
pub struct Followed {
    pub window: Option<Ticks>,
    pub rounds: u32,
    pub least: Mark,
}

// The answer of the written sequence from `start` on. A start that is late is answered without a sum, since the next term is no smaller.
// `others` is one cost of every load, `least` a mark that none of their first marks is below: until x has passed it, each load asks for one
// cost. Then the loads' marks stand in `marks`, which are scratch words, and the sequence is followed.
pub fn solve(
    loads: Loads,
    base: Ticks,
    others: Ticks,
    start: Ticks,
    least: Mark,
    late: Ticks,
    deadline: Ticks,
    marks: &mut [u32],
) -> Solved
    requires loads_fit { Fit loads loads.count × (loads.count < length marks.old) }
    requires solvable { Solvable base.0 (loads_from loads) start.0 late.0 deadline.0 }
    requires begun { Begun loads.periods.now loads.spreads.now loads.count (loads_from loads) base.0 others.0 start.0 least.0 }
    ensures { SolvedBy base.0 (loads_from loads.entry) start.0 late.0 deadline.0 (is_late result.response) (ticks_of result.response) result.rounds }
{
    let delay = late.0;
    if deadline.0 < start.0 + delay {
        return Solved {
            response: None,
            rounds: 1,
        };
    }
    let once = base.0 + others.0;
    if ends_at_once(start, Ticks(once), least) {
        return Solved {
            response: Some(Ticks(once + delay)),
            rounds: 1,
        };
    }
    marks::set_first(loads, marks);
    let before = Tally {
        sum: u64::from(once),
        least,
    };
    let ahead = marks::look_ahead(least);
    let followed = follow(loads, base, start, late, deadline, ahead, before, marks);
    Solved {
        response: followed.window.map(|window| Ticks(window.0 + delay)),
        rounds: followed.rounds,
    }
}

// Follows the written sequence from `start`, which is not late, to its first equal or late term. `before` and the marks are right for the
// start, or for a tick before it. Each round moves the marks that x has passed; where it has passed none, the next term is the sum that is
// there.
pub fn follow(
    loads: Loads,
    base: Ticks,
    start: Ticks,
    late: Ticks,
    deadline: Ticks,
    ahead: Ticks,
    before: Tally,
    marks: &mut [u32],
) -> Followed
    requires { Followable loads.periods.now loads.costs.now loads.spreads.now loads.own loads.count base.0 start.0 late.0 deadline.0 ahead.0 marks.old before.sum before.least.0 }
    ensures { FollowedBy loads.entry.periods.now loads.entry.costs.now loads.entry.spreads.now loads.entry.own loads.entry.count base.0 start.0 late.0 deadline.0 (is_late result.window) (ticks_of result.window) result.rounds marks.new result.least.0 }
{
    let limit = u64::from(deadline.0 - late.0);
    let mut x = start.0;
    let mut rounds: u32 = 1;
    let mut tally = before;
    loop {
        tally = marks::advance(loads, marks::raised(Ticks(x)), ahead, tally, marks);
        let next = tally.sum;
        let least = tally.least;
        if limit < next {
            return Followed {
                window: None,
                rounds,
                least,
            };
        }
        if next == u64::from(x) {
            return Followed {
                window: Some(Ticks(x)),
                rounds,
                least,
            };
        }
        x = next as u32;
        rounds += 1;
    }
}

// Is the start one cost of everything, and has it passed no mark? Then it is the next term too.
pub fn ends_at_once(start: Ticks, once: Ticks, least: Mark) -> bool
    requires { start.0 ≤ 1000000000 }
    ensures { result ≡ both (eqb start.0 once.0) (leb (start.0 + raise) least.0) }
{
    start == once && marks::raised(start).0 <= least.0
}
