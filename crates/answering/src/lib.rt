// The answers of a decoded table, task by task. It knows no bytes.
#![tactic(auto)]

ghost use Rattle.std.specs.Prelude.{◌≡◌, ◌+◌, ◌≤◌, ◌<◌, length};
ghost use Rattle.model.specs.Choice.{pick};
ghost use Rattle.model.specs.Lists.{total, word_of};
ghost use Rattle.marks.specs.Marks.{PeriodsHigh};
ghost use Rattle.solver.specs.Solver.{is_late};
ghost use Rattle.answering.specs.declared.Verdict.TheVariants.{Late};
ghost use Rattle.answering.specs.Results.{is_schedulable};
ghost use Rattle.answering.specs.Slices.{DecodedFits, Ranked, GroupBefore, GroupFound, slice, Answered};
ghost use Rattle.answering.specs.Lent.{decoded_from, OfTask};

use equation::{Loads, Start, first_term};
use marks::least_first;
use model::{Place, Ticks};
use solver::solve;
use tables::Refusal;

// What is said of a table.
#[derive(Clone, Copy, Debug, PartialEq, Eq)]
pub enum Verdict {
    Refused(Refusal),
    Schedulable,
    Late(Place),
}

// The verdict with one answer more, none where the task is late: the first late place stays.
fn with_answer(verdict: Verdict, response: Option<Ticks>, at: Place) -> Verdict
    ensures { result ≡ pick (is_late response) (pick (is_schedulable verdict) (Late at) verdict) verdict }
{
    match (verdict, response) {
        (Verdict::Schedulable, None) => Verdict::Late(at),
        (before, _) => before,
    }
}

// The n tasks of a decoded table, and their blocking: a number for each in each slice.
#[derive(Clone, Copy)]
pub struct Tasks<'a> {
    pub priorities: &'a [u8],
    pub periods: &'a [u32],
    pub costs: &'a [u32],
    pub deadlines: &'a [u32],
    pub spreads: &'a [u32],
    pub latest: &'a [u32],
    pub held: &'a [u32],
    pub n: usize,
}

impl<'a> Tasks<'a> {
    // The loads of the task at place `own`: those of the first `count` places without it.
    pub fn loads(self, own: usize, count: usize) -> Loads<'a>
        ensures { OfTask result self.entry own count }
    {
        Loads {
            periods: self.periods,
            costs: self.costs,
            spreads: self.spreads,
            own,
            count,
        }
    }
}

// What is known of the tasks that share a task's priority, its group.
#[derive(Clone, Copy, Debug, PartialEq, Eq)]
pub struct Group {
    // the task's loads are those of so many places, without its own
    pub count: usize,
    // one cost of every task up to the end of its group, its own with them
    pub all: Ticks,
    // one cost of every task up to the task itself, its own with them
    pub reached: Ticks,
    // where the last group ends that was looked for, and one cost of every task before that end
    pub end: usize,
    pub costs: Ticks,
}

// Before the first task nothing is known, and no cost is there.
pub const NO_GROUP: Group = Group {
    count: 0,
    all: Ticks(0),
    reached: Ticks(0),
    end: 0,
    costs: Ticks(0),
};

// The group of the task at place i. `before` is what is known from the task before. No place is looked at twice for an end.
pub fn group_of(tasks: Tasks, before: Group, i: usize) -> Group
    requires ranked { Ranked tasks.priorities.now tasks.costs.now tasks.n × (i < tasks.n) }
    requires group_before { GroupBefore tasks.priorities.now tasks.costs.now tasks.n i before.end before.costs.0 × (before.reached.0 ≡ total (word_of tasks.costs.now) i) }
    ensures group_found { GroupFound tasks.entry.priorities.now tasks.entry.costs.now tasks.entry.n i before.end before.costs.0 result.count result.all.0 result.end result.costs.0 }
    ensures reached { result.reached.0 ≡ total (word_of tasks.entry.costs.now) (i + 1) }
{
    let own = tasks.priorities[i];
    let reached = Ticks(before.reached.0 + tasks.costs[i]);
    // where the next priority is another, the group ends here. (The byte behind the last one may be anything: where it is the same, the end
    // is looked for.)
    if tasks.priorities[i + 1] != own {
        return Group {
            count: i,
            all: reached,
            reached,
            end: before.end,
            costs: before.costs,
        };
    }
    let known = before.end;
    let mut sum = before.costs.0;
    if i < known {
        return Group {
            count: known,
            all: before.costs,
            reached,
            end: known,
            costs: before.costs,
        };
    }
    for k in known..tasks.n {
        if tasks.priorities[k] < own {
            return Group {
                count: k,
                all: Ticks(sum),
                reached,
                end: k,
                costs: Ticks(sum),
            };
        }
        sum += tasks.costs[k];
    }
    Group {
        count: tasks.n,
        all: Ticks(sum),
        reached,
        end: tasks.n,
        costs: Ticks(sum),
    }
}

// Answers and rounds of the tasks, each from its own first term on. Groups and their costs are found along the way. The words of `marks` are
// scratch, one for each task and one more, made once for a table.
pub fn answer_all(
    start: Start,
    tasks: Tasks,
    answers: &mut [u32],
    rounds: &mut [u32],
    marks: &mut [u32],
) -> Verdict
    requires decoded_fits { DecodedFits (decoded_from tasks) tasks.n }
    requires periods_high { PeriodsHigh tasks.periods.now tasks.n × (tasks.n < length marks.old) }
    requires n_in_bounds { (tasks.n ≤ length answers.old) × (tasks.n ≤ length rounds.old) }
    ensures { Answered start (decoded_from tasks.entry) tasks.entry.n result (slice answers.old answers.new) (slice rounds.old rounds.new) }
{
    let least = least_first(tasks.periods, tasks.spreads, tasks.n);
    let mut group = NO_GROUP;
    let mut verdict = Verdict::Schedulable;
    for i in 0..tasks.n {
        group = group_of(tasks, group, i);
        let loads = tasks.loads(i, group.count);
        let cost = Ticks(tasks.costs[i]);
        let others = Ticks(group.all.0 - cost.0);
        let base = Ticks(cost.0 + tasks.held[i]);
        let solved = solve(
            loads,
            base,
            others,
            first_term(start, base, others),
            least,
            Ticks(tasks.latest[i]),
            Ticks(tasks.deadlines[i]),
            marks,
        );
        answers[i] = solved.response.map_or(0, |response| response.0);
        rounds[i] = solved.rounds;
        verdict = with_answer(verdict, solved.response, Place(i));
    }
    verdict
}
