// The least common multiple of a table's periods (SPECIFICATION 13.12; document 02, L10).
#![tactic(auto)]

ghost use Rattle.std.specs.Prelude.{◌≡◌, [], ◌∷◌, ◌≤◌, ltb};
ghost use Rattle.tables.specs.Layout.{tasks_of};
ghost use Rattle.tables.specs.Meaning.{TableRight};
ghost use Rattle.multiples.specs.Divisors.{GreatestDivisor};
ghost use Rattle.multiples.specs.Multiples.{least_multiple, hyperperiod_of};

use tables::fields::word;
use tables::{HEAD_SIZE, PERIOD_AT, TASK_COUNT_AT, VERSION_AT};

// The largest multiple that is printed.
const LARGEST: u64 = 1000000000000;

// "the common divisor found by Euclid's rule calling itself on the remainder".
pub fn gcd(a: u64, b: u64) -> u64
    ensures { GreatestDivisor a b result }
{
    if b == 0 { a } else { gcd(b, a % b) }
}

// The least common multiple of two: that of the periods before, and one period more. Before the first period it is 1, and one that divides
// what is there changes nothing: neither needs Euclid's rule. The divide comes first, so that nothing wraps.
fn joined(before: u64, period: u32) -> u64
    requires le_before { (1 ≤ before) × (before ≤ 1000000000000) }
    requires le_period { (1 ≤ period) × (period ≤ 1000000) }
    ensures { result ≡ least_multiple (before ∷ (period ∷ [])) }
{
    let next = u64::from(period);
    if before == 1 {
        return next;
    }
    let rest = before % next;
    if rest == 0 {
        return before;
    }
    before / gcd(next, rest) * next
}

// "above 10^12 print "over"": 10^12 itself is a number. No table has just that, so a function of its own says it of every number.
fn is_over(multiple: u64) -> bool
    ensures { result ≡ ltb 1000000000000 multiple }
{
    LARGEST < multiple
}

// "the periods' least common multiple" of a table that was accepted; none where it is over. Once it is over it stays so: that of more
// periods is no less.
pub fn hyperperiod(table: &[u8]) -> Option<u64>
    requires { TableRight table.now }
    ensures { result ≡ hyperperiod_of (tasks_of table.now) }
{
    let layout = tables::layout::of(table[VERSION_AT]);
    let n = usize::from(table[TASK_COUNT_AT]);
    let mut common = 1;
    for record in table[HEAD_SIZE..].chunks_exact(layout.size).take(n) {
        common = joined(common, word(record, PERIOD_AT));
        if is_over(common) {
            return None;
        }
    }
    Some(common)
}
