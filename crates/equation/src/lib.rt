// Joseph and Pandya's equation, over numbers alone: no bytes, no tables, no tasks.
#![tactic(auto)]

ghost use Rattle.std.specs.Prelude.{◌≡◌, ◌+◌, ◌-◌, ◌≤◌};
ghost use Rattle.model.specs.Lists.{total, sum_of};
ghost use Rattle.equation.specs.Rounding.{ceil_div};
ghost use Rattle.equation.specs.Demand as spec;
ghost use Rattle.equation.specs.Slices.{load, more, LoadFits};
ghost use Rattle.equation.specs.Lent.{loads_from, more_from, Fit};
ghost use Rattle.equation.specs.Laws.{cost_of};
ghost use Rattle.equation.specs.Starts.{first_term};

use model::Ticks;

// Where the written sequence starts (SPECIFICATION 5.1; document 02, L5). Both starts lead to the same answers; the rounds differ.
#[derive(Clone, Copy, Debug, PartialEq, Eq)]
pub enum Start {
    // The default: the task's cost and blocking, and one cost of every task that interferes with it, as source document 002 has it.
    EveryCost,
    // The task's cost and blocking alone, as source document 000 has it: document 01's rounds.
    OwnCost,
}

// The first term from a start: `base` is the task's cost and blocking, `others` one cost of every task that interferes with it.
pub fn first_term(start: Start, base: Ticks, others: Ticks) -> Ticks
    requires { base.0 + others.0 ≤ 1000000000 }
    ensures { result.0 ≡ first_term start base.0 others.0 }
{
    match start {
        Start::EveryCost => Ticks(base.0 + others.0),
        Start::OwnCost => base,
    }
}

// n / d rounded up: no divide where n is at most d, one elsewhere (SPECIFICATION 13.2; document 02, L2), and right at 0 too.
pub fn div_up(n: Ticks, d: Ticks) -> u32
    requires { 1 ≤ d.0 }
    ensures { result ≡ ceil_div n.0 d.0 }
{
    if n.0 == 0 {
        return 0;
    }
    if n.0 <= d.0 {
        return 1;
    }
    (n.0 - 1) / d.0 + 1
}

// The sum with what a load asks for in w ticks, at least one, beside the cost that it asks for in any: nothing where one period covers them.
// It does not fit 32 bits.
fn with_load(sum: u64, period: Ticks, cost: Ticks, spread: Ticks, w: Ticks) -> u64
    requires { LoadFits (load period.0 cost.0 spread.0) × (1 ≤ w.0) × (w.0 ≤ 1000000000) × («sum» ≤ 10000000000000000000) }
    ensures { result ≡ «sum» + more w.0 (load period.0 cost.0 spread.0) }
{
    let window = Ticks(w.0 + spread.0);
    if window.0 <= period.0 {
        return sum;
    }
    sum + u64::from(cost.0) * u64::from(div_up(window, period) - 1)
}

// The loads of one task, over the periods, costs and spreads of a table's tasks: those of the first `count` places but for place `own`.
#[derive(Clone, Copy)]
pub struct Loads<'a> {
    pub periods: &'a [u32],
    pub costs: &'a [u32],
    pub spreads: &'a [u32],
    pub own: usize,
    pub count: usize,
}

impl Loads<'_> {
    // The sum with what the loads of some places, those from `from` on and before `to`, if there are any, ask for in w ticks, at least one,
    // beside one cost each.
    fn with_more(self, sum: u64, from: usize, to: usize, w: Ticks) -> u64
        requires loads_fit { Fit self to }
        requires le_w { (1 ≤ w.0) × (w.0 ≤ 1000000000) × («sum» ≤ 1000000000000000000) }
        ensures { result ≡ «sum» + (total (more_from self.entry w.0) to - total (more_from self.entry w.0) from) }
    {
        let mut all = sum;
        for k in from..to {
            all = with_load(
                all,
                Ticks(self.periods[k]),
                Ticks(self.costs[k]),
                Ticks(self.spreads[k]),
                w,
            );
        }
        all
    }

    // What a task and its loads ask for in w ticks, at least one: `base` is its cost and blocking, and `others` is one cost of each load. The
    // task's own place is one of the first `count` or the next.
    pub fn demand(self, base: Ticks, others: Ticks, w: Ticks) -> u64
        requires loads_fit { Fit self self.count × (self.own ≤ self.count) × (others.0 ≡ sum_of cost_of (loads_from self)) }
        requires le_w { (1 ≤ w.0) × (w.0 ≤ 1000000000) }
        ensures { result ≡ spec.demand base.0 (loads_from self.entry) w.0 }
    {
        let once = u64::from(base.0) + u64::from(others.0);
        let before = self.with_more(once, 0, self.own, w);
        self.with_more(before, self.own + 1, self.count, w)
    }
}
