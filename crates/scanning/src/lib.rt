// Whole decimal numbers, read from a text: the mirror of `printing`. The text may come in pieces, so that no buffer has to hold all of it.
#![tactic(auto)]

ghost use Rattle.std.specs.Prelude.{◌+◌, ◌<◌, ◌≡◌, length, [], ◌∷◌};
ghost use Rattle.scanning.specs.Reading.{is_separator};
ghost use Rattle.scanning.specs.Steps.{after_outside, after_inside, with_value, after_of, ended_by, Kept};
ghost use Rattle.scanning.specs.Read.{Read};
ghost use Rattle.scanning.specs.Pieces.{start, More, Within, stuck, Ended, Passed};

// A byte's place in a text, counted from its first byte.
#[derive(Clone, Copy, Debug, PartialEq, Eq, PartialOrd, Ord)]
pub struct TextPlace(pub usize);

// Something in a text that can't be read, by its first byte.
#[derive(Clone, Copy, Debug, PartialEq, Eq)]
pub struct Unreadable(pub TextPlace);

// What stands before the next byte: no number, one that began at a place and has a value so far, or something that can't be read.
#[derive(Clone, Copy, Debug, PartialEq, Eq)]
pub enum State {
    Outside,
    Inside(TextPlace, u32),
    Stuck(TextPlace),
}

// How far a text is gone through: what stands before the next byte, that byte's place, and how many numbers ended before it.
#[derive(Clone, Copy, Debug, PartialEq, Eq)]
pub struct Scan {
    pub state: State,
    pub at: TextPlace,
    pub count: usize,
}

// Reads the numbers of a text into lent words, from the first word on, and says how many they are. Numbers that have no room are counted and
// not kept; later words stay; a text that can't be read changes no word, so the text is gone through first with no word lent.
pub fn numbers(text: &[u8], words: &mut [u32]) -> Result<usize, Unreadable>
    ensures { Read text.now words.old result words.new }
{
    let mut none = [0u32; 0];
    pass(text, &mut none)?;
    pass(text, words)
}

// Goes through a whole text, as one piece.
fn pass(text: &[u8], words: &mut [u32]) -> Result<usize, Unreadable>
    ensures { Passed text.now words.old result words.new }
{
    let scan = go_on(begin(), text, words);
    finish(scan, words)
}

// Before the first piece.
pub fn begin() -> Scan
    ensures { result ≡ start }
{
    Scan {
        state: State::Outside,
        at: TextPlace(0),
        count: 0,
    }
}

// Goes through one piece more, and keeps each number in the words where it ends. Numbers that have no room are counted and not kept.
pub fn go_on(scan: Scan, piece: &[u8], words: &mut [u32]) -> Scan
    requires { Within scan (length piece.now) }
    ensures { More scan piece.now words.old result words.new }
{
    let from = scan.at.0;
    let mut state = scan.state;
    let mut count = scan.count;
    for (i, &byte) in piece.iter().enumerate() {
        count = keep(state, byte, words, count);
        state = after(state, TextPlace(from + i), byte);
    }
    Scan {
        state,
        at: TextPlace(from + piece.len()),
        count,
    }
}

// Has something been found that can't be read? Whatever comes behind it makes no difference then.
pub fn is_stuck(scan: Scan) -> bool
    ensures { result ≡ stuck scan.state }
{
    matches!(scan.state, State::Stuck(_))
}

// Behind the last piece: the text's end ends a number as a separator does.
pub fn finish(scan: Scan, words: &mut [u32]) -> Result<usize, Unreadable>
    requires { Within scan 0 }
    ensures { Ended scan words.old result words.new }
{
    let count = keep(scan.state, b' ', words, scan.count);
    match scan.state {
        State::Stuck(place) => Err(Unreadable(place)),
        _ => Ok(count),
    }
}

// Keeps and counts the number that the byte ends, if it ends one.
fn keep(state: State, byte: u8, words: &mut [u32], count: usize) -> usize
    requires { count + length (ended_by state byte) < 18446744073709551616 }
    ensures { Kept (ended_by state byte) words.old count result words.new }
{
    match state {
        State::Inside(_, value) if is_separator(byte) => keep_at(value, words, count),
        _ => count,
    }
}

// Puts a number that ends to the words, where it has room.
fn keep_at(value: u32, words: &mut [u32], count: usize) -> usize
    requires { count + 1 < 18446744073709551616 }
    ensures { Kept (value ∷ []) words.old count result words.new }
{
    if count < words.len() {
        words[count] = value;
    }
    count + 1
}

// The state after one byte more.
fn after(state: State, at: TextPlace, byte: u8) -> State
    ensures { result ≡ after_of state at byte }
{
    match state {
        State::Outside => after_outside(at, byte),
        State::Inside(start, value) => after_inside(at, start, value, byte),
        State::Stuck(place) => State::Stuck(place),
    }
}

// A digit begins a number.
#[tactic(auto, using(crate::proofs::ByteLaws::digit_same))]
fn after_outside(at: TextPlace, byte: u8) -> State
    ensures { result ≡ after_outside at byte }
{
    if byte.is_ascii_digit() {
        return State::Inside(at, u32::from(byte - b'0'));
    }
    if is_separator(byte) {
        return State::Outside;
    }
    State::Stuck(at)
}

// A digit goes on with a number, and a separator ends it.
#[tactic(auto, using(crate::proofs::ByteLaws::digit_same))]
fn after_inside(at: TextPlace, start: TextPlace, value: u32, byte: u8) -> State
    ensures { result ≡ after_inside at start value byte }
{
    if byte.is_ascii_digit() {
        return with_value(start, 10 * u64::from(value) + u64::from(byte - b'0'));
    }
    if is_separator(byte) {
        return State::Outside;
    }
    State::Stuck(at)
}

// A number that is too large can't be read from its first byte on.
#[tactic(auto, using(std::proofs::lemmas::Bool::Decides::nat_tests), unfolding(crate::specs::Steps::with_value))]
fn with_value(start: TextPlace, value: u64) -> State
    ensures { result ≡ with_value start value }
{
    match u32::try_from(value) {
        Ok(value) => State::Inside(start, value),
        Err(_) => State::Stuck(start),
    }
}

// Is it a blank, a tab, a comma, or a character of a line end?
#[tactic(auto, using(std::proofs::lemmas::Bool::Decides::nat_tests), unfolding(crate::specs::Reading::is_separator))]
fn is_separator(byte: u8) -> bool
    ensures { result ≡ is_separator byte }
{
    matches!(byte, b' ' | b'\t' | b',' | b'\n' | b'\r')
}
