// How much time a table's tasks ask for, and the Liu and Layland bound that is printed beside it (SPECIFICATION 13.12; document 02, L10).
#![tactic(auto)]

ghost use Rattle.std.specs.Prelude.{◌≡◌, ◌≤◌};
ghost use Rattle.tables.specs.Layout.{tasks_of};
ghost use Rattle.tables.specs.Meaning.{TableRight};
ghost use Rattle.utilisation.specs.Utilisation.{share_of, utilisation_of};

use tables::fields::word;
use tables::{COST_AT, HEAD_SIZE, PERIOD_AT, TASK_COUNT_AT, VERSION_AT};

mod bounds;

pub use bounds::bound;

// "each task's share rounded up", in millionths: it does not fit 32 bits.
pub fn share(cost: u32, period: u32) -> u64
    requires { 1 ≤ period }
    ensures { result ≡ share_of cost period }
{
    (1000000 * u64::from(cost)).div_ceil(u64::from(period))
}

// "and then summed", for a table that was accepted.
pub fn utilisation(table: &[u8]) -> u64
    requires { TableRight table.now }
    ensures { result ≡ utilisation_of (tasks_of table.now) }
{
    let layout = tables::layout::of(table[VERSION_AT]);
    let n = usize::from(table[TASK_COUNT_AT]);
    let mut sum = 0;
    for record in table[HEAD_SIZE..].chunks_exact(layout.size).take(n) {
        sum += share(word(record, COST_AT), word(record, PERIOD_AT));
    }
    sum
}
