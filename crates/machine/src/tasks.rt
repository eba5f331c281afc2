// The tasks that are played, by their places.
ghost use Rattle.std.specs.Prelude.{◌≡◌, ◌+◌, ◌^◌, ◌<◌};
ghost use Rattle.machine.specs.Slices.{words_for};

use crate::words::TASKS;

// The first n words of three slices, and how many words the bits of n tasks take.
#[derive(Clone, Copy)]
pub struct Tasks<'a> {
    pub periods: &'a [u32],
    pub costs: &'a [u32],
    pub deadlines: &'a [u32],
    pub n: usize,
    pub words: usize,
    ghost enough: { words ≡ words_for n },
}

impl<'a> Tasks<'a> {
    pub fn new(periods: &'a [u32], costs: &'a [u32], deadlines: &'a [u32], n: usize) -> Self
        ensures periods_are { result.periods.now ≡ periods.now }
        ensures costs_are { result.costs.now ≡ costs.now }
        ensures deadlines_are { result.deadlines.now ≡ deadlines.now }
        ensures n_is { result.n ≡ n }
    {
        Tasks {
            periods,
            costs,
            deadlines,
            n,
            words: n.div_ceil(TASKS),
        }
    }
}
