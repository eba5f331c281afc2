// A task table that people type: its text, read word by word (SPECIFICATION 14). The numbers go to lent slices as their lines end, so that a
// text and its lines may be of any length.
#![tactic(auto)]

ghost use Rattle.std.specs.Prelude.{◌+◌, ◌<◌, ◌≡◌, length, set};
ghost use Rattle.std.proofs.lemmas.List.Edits.{sets};
ghost use Rattle.model.specs.Choice.{pick};
ghost use Rattle.words.specs.Steps.{ends_word, line_by, spot_by, heard_by, spot_after, heard_in};
ghost use Rattle.typing.specs.Lines.{is_taken, field_for, fields_after};
ghost use Rattle.typing.specs.Reading.{state_heard, counts_with, counts_at_end, number_at_end, state_ended};
ghost use Rattle.typing.specs.Steps.{start, Few, Bounded, numbers_at_end, places_at_end, memory, memory_after};

pub use lines::{Counts, Fault, Kind, Line};
use words::{Amount, Spot};

mod lines;

// A table's numbers in one slice: the version; three for each section; six for each task.
pub const NUMBERS: usize = 1393;

// And the lines that they stand in, in another: one for the version, each section, and each task.
pub const PLACES: usize = 265;

// The numbers of one line.
pub const FIELDS: usize = 6;

// The line that is read: what stands before it, what it is so far, and its number, from 1 on.
#[derive(Clone, Copy, Debug, PartialEq, Eq)]
pub struct State {
    pub counts: Counts,
    pub line: Line,
    pub number: usize,
}

// How far a text is read: what stands before the next byte, and the line.
#[derive(Clone, Copy, Debug, PartialEq, Eq)]
pub struct Reader {
    pub spot: Spot,
    pub state: State,
}

// Before the first byte.
pub fn begin() -> Reader
    ensures { result ≡ start }
{
    Reader {
        spot: words::begin(),
        state: State {
            counts: Counts {
                stated: false,
                old: false,
                delayed: false,
                tasks: 0,
                sections: 0,
            },
            line: Line::Blank,
            number: 1,
        },
    }
}

// Reads one byte more.
pub fn take_byte(
    reader: Reader,
    byte: u8,
    fields: &mut [u32],
    numbers: &mut [u32],
    places: &mut [u64],
) -> Reader
    requires bounded { Bounded reader.state 1 }
    requires fields_len { length fields.old ≡ 6 }
    ensures spot_value { result.spot ≡ spot_by reader.spot byte }
    ensures places_after { memory result.state fields.new numbers.new places.new ≡ memory_after (memory reader.state fields.old numbers.old places.old) (heard_by reader.spot byte) }
{
    let spot = words::settle(reader.spot, byte);
    let heard = take_word(reader.state, spot, byte, fields);
    let state = take_end(heard, byte, fields, numbers, places);
    Reader {
        spot: words::go_on(spot, byte),
        state,
    }
}

// Takes the word that the byte ends, if it ends one.
fn take_word(state: State, spot: Spot, byte: u8, fields: &mut [u32]) -> State
    requires { length fields.old ≡ 6 }
    ensures value { result ≡ pick (ends_word spot byte) (state_heard state spot.spelling spot.amount) state }
    ensures fields_after { fields.new ≡ pick (ends_word spot byte) (fields_after state.line spot.amount fields.old) fields.old }
{
    if !words::ends_word(spot, byte) {
        return state;
    }
    keep_word(state.line, spot.amount, fields);
    hear(state, spot.spelling, spot.amount)
}

// The line with one word more.
#[tactic(auto, using(std::proofs::lemmas::Bool::Decides::nat_tests), unfolding(crate::specs::Reading::state_heard))]
fn hear(state: State, spelling: u64, amount: u64) -> State
    ensures { result ≡ state_heard state spelling amount }
{
    State {
        line: lines::after_word(state.counts, state.line, spelling, amount),
        ..state
    }
}

// The first word of a line empties the fields, and each number goes to its own.
#[tactic(auto, using(std::proofs::lemmas::Bool::Decides::nat_tests), unfolding(crate::specs::Lines::fields_after))]
fn keep_word(line: Line, amount: u64, fields: &mut [u32])
    requires { length fields.old ≡ 6 }
    ensures { fields.new ≡ fields_after line amount fields.old }
{
    match line {
        Line::Blank => fields.fill(0),
        Line::Filling(kind, count) => keep_number(kind, count, amount, fields),
        Line::Wrong(_) => {}
    }
}

#[tactic(auto, using(std::proofs::lemmas::Bool::Decides::nat_tests, crate::proofs::LineLaws::large_not_taken), unfolding(crate::specs::Lines::is_taken, words::specs::Steps::amount_for, words::specs::Steps::whole_for))]
fn keep_number(kind: Kind, count: usize, amount: u64, fields: &mut [u32])
    ensures { fields.new ≡ pick (is_taken kind count amount) (set fields.old (field_for kind count) amount) fields.old }
{
    match Amount::from(amount) {
        Amount::Whole(number) if kind.is_taken(count, amount) => {
            put(fields, kind.field(count), number)
        }
        _ => {}
    }
}

// Puts a value to its place, if the slice has one.
fn put<T: Copy>(slice: &mut [T], at: usize, value: T)
    ensures { slice.new ≡ set slice.old at value }
{
    if at < slice.len() {
        slice[at] = value;
    }
}

// Ends the line, if the byte does.
fn take_end(
    state: State,
    byte: u8,
    fields: &[u32],
    numbers: &mut [u32],
    places: &mut [u64],
) -> State
    requires bounded { Bounded state 1 }
    requires fields_len { length fields.now ≡ 6 }
    ensures { memory result fields.now numbers.new places.new ≡ memory_after (memory state fields.now numbers.old places.old) (line_by byte) }
{
    if byte != b'\n' {
        return state;
    }
    store(
        state.line,
        state.counts,
        state.number,
        fields,
        numbers,
        places,
    );
    end_line(state, fields[0])
}

// The next line's beginning; a line that is wrong stays the one that is read.
#[tactic(auto, using(std::proofs::lemmas::Bool::Decides::nat_tests), unfolding(crate::specs::Reading::state_ended))]
fn end_line(state: State, first: u32) -> State
    requires { Bounded state 1 }
    ensures { result ≡ state_ended state first }
{
    let line = lines::at_end(state.line);
    State {
        counts: counts_at_end(state.line, first, state.counts),
        line,
        number: next_number(line, state.number),
    }
}

fn next_number(line: Line, number: usize) -> usize
    requires { number + 1 < 18446744073709551616 }
    ensures { result ≡ number_at_end line number }
{
    match line {
        Line::Wrong(_) => number,
        _ => number + 1,
    }
}

// What stands before the next line: one line more, if this one is whole.
fn counts_at_end(line: Line, first: u32, counts: Counts) -> Counts
    requires { (counts.tasks + 1 < 18446744073709551616) × (counts.sections + 1 < 18446744073709551616) }
    ensures { result ≡ counts_at_end line first counts }
{
    match line {
        Line::Filling(kind, count) if kind.is_whole(count) => counts_with(kind, first, counts),
        _ => counts,
    }
}

fn counts_with(kind: Kind, first: u32, counts: Counts) -> Counts
    requires { (counts.tasks + 1 < 18446744073709551616) × (counts.sections + 1 < 18446744073709551616) }
    ensures { result ≡ counts_with kind first counts }
{
    match kind {
        Kind::VersionLine => Counts {
            stated: true,
            old: first == 1,
            ..counts
        },
        Kind::TaskLine | Kind::JitterLine => Counts {
            tasks: counts.tasks + 1,
            ..counts
        },
        Kind::DelaysLine => Counts {
            delayed: true,
            tasks: counts.tasks + 1,
            ..counts
        },
        Kind::SectionLine => Counts {
            sections: counts.sections + 1,
            ..counts
        },
    }
}

// Keeps a whole line's numbers, and the line's own number.
fn store(
    line: Line,
    counts: Counts,
    number: usize,
    fields: &[u32],
    numbers: &mut [u32],
    places: &mut [u64],
)
    requires few { Few counts }
    requires fields_len { length fields.now ≡ 6 }
    ensures numbers_after { numbers.new ≡ numbers_at_end line counts fields.now numbers.old }
    ensures places_after { places.new ≡ places_at_end line counts number places.old }
{
    match line {
        Line::Filling(kind, count) if kind.is_whole(count) => {
            put_all(numbers, kind.slot(counts), &fields[..kind.size()]);
            put(places, kind.place_slot(counts), number as u64);
        }
        _ => {}
    }
}

// Puts the words of one slice to a place of another.
fn put_all(numbers: &mut [u32], at: usize, fields: &[u32])
    requires { at + length fields.now < 18446744073709551616 }
    ensures { numbers.new ≡ sets numbers.old at fields.now }
{
    for (i, &field) in fields.iter().enumerate() {
        put(numbers, at + i, field);
    }
}

// Reads one piece more of a text.
pub fn go_on(
    reader: Reader,
    piece: &[u8],
    fields: &mut [u32],
    numbers: &mut [u32],
    places: &mut [u64],
) -> Reader
    requires bounded { Bounded reader.state (length piece.now) }
    requires fields_len { length fields.old ≡ 6 }
    ensures spot_value { result.spot ≡ spot_after reader.spot piece.now }
    ensures places_after { memory result.state fields.new numbers.new places.new ≡ memory_after (memory reader.state fields.old numbers.old places.old) (heard_in reader.spot piece.now) }
{
    let mut next = reader;
    for &byte in piece {
        next = take_byte(next, byte, fields, numbers, places);
    }
    next
}
