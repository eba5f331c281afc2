// The ready words (SPECIFICATION 9; document 02, L9): the task at place p has bit p % 64 of word p / 64.
ghost use Rattle.std.specs.Prelude.{◌≡◌, ◌==◌, ℕ, not, position, ◌-◌, ◌/◌, ◌≤◌, ◌<◌, length, set};
ghost use Rattle.std.specs.Int.Bits.{bit_and};
ghost use Rattle.std.specs.Int.Count.{count_trailing_zeros};
ghost use Rattle.model.specs.Lists.{word_of};
ghost use Rattle.machine.specs.Machine as spec;
ghost use Rattle.machine.specs.Slices.{place_or_none};

use model::Place;

// Tasks to a word.
pub const TASKS: usize = 64;

// The word in which the bit of a place alone is set.
pub fn mask(place: Place) -> u64
    ensures { result ≡ spec.mask place.0 }
{
    1u64 << (place.0 % TASKS)
}

// The lowest bit that is set.
fn lowest(word: u64) -> usize
    requires { word ≡ 0 → ⊥ }
    ensures { (result ≡ count_trailing_zeros 64 word) × (result < 64) }
{
    u64::trailing_zeros(word) as usize
}

// The first word that has a bit.
fn first_used(ready: &[u64]) -> Option<usize>
    ensures { result ≡ position (λ word. not (word == 0)) ready.now }
{
    ready.iter().position(|word| *word != 0)
}

// The most urgent ready task: places stand in the order of urgency, the first at the lowest bit of the first word. Of the four words those
// from `count` on have no task.
pub fn next_place(ready: &[u64], count: usize) -> Option<Place>
    requires { (count ≤ 4) × (count ≤ length ready.now) × ((w : ℕ) → count ≤ w → word_of ready.now w ≡ 0) }
    ensures { result ≡ place_or_none (spec.next_place (word_of ready.now)) }
{
    let w = first_used(&ready[..count])?;
    Some(Place(TASKS * w + lowest(ready[w])))
}

// Takes the bit of a place off its word.
pub fn clear(place: Place, ready: &mut [u64])
    requires { place.0 / 64 < length ready.old }
    ensures { ready.new ≡ set ready.old (place.0 / 64) (bit_and (word_of ready.old (place.0 / 64)) (18446744073709551615 - spec.mask place.0)) }
{
    let w = place.0 / TASKS;
    ready[w] &= !mask(place);
}
