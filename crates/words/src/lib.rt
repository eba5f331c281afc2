// A text as lines of words, one byte after the other (SPECIFICATION 14.1). Of a word no more is kept than what tells it from others: how it
// is spelled, and its amount if it is a whole number. So a text and its lines may be of any length.
#![tactic(auto)]

ghost use Rattle.std.specs.Prelude.{◌≡◌};
ghost use Rattle.words.specs.Words.{is_blank, is_end, spelled_after, amount_after};
ghost use Rattle.words.specs.Steps.{whole_for, amount_for, begun, comment_begun, grown_by, settled_by, ends_word, went_by};

// How a word of no letter is spelled, and one of more than seven.
pub const NO_LETTER: u64 = 1;

const MANY_LETTERS: u64 = 9223372036854775808;

// Words of fewer than seven letters are spelled below this, 256^7.
const SEVEN_LETTERS: u64 = 72057594037927936;

// The amount of a number that is too large, and of a word that is no whole number.
pub const TOO_LARGE: u64 = 4294967296;

pub const NOT_WHOLE: u64 = 4294967297;

// What an amount says: the number that a word is, if it is a whole number and not too large.
#[derive(Clone, Copy, Debug, PartialEq, Eq)]
pub enum Amount {
    Whole(u32),
    TooLarge,
    NotWhole,
}

// What stands before the next byte: a CR of which it is not known yet whether an LF follows; a comment; the word that is not ended.
#[derive(Clone, Copy, Debug, PartialEq, Eq)]
pub struct Spot {
    pub returned: bool,
    pub commented: bool,
    pub spelling: u64,
    pub amount: u64,
}

// Before the first byte of a line.
pub fn begin() -> Spot
    ensures { result ≡ begun }
{
    Spot {
        returned: false,
        commented: false,
        spelling: NO_LETTER,
        amount: 0,
    }
}

// Behind the first byte of a comment.
fn begin_comment() -> Spot
    ensures { result ≡ comment_begun }
{
    Spot {
        returned: false,
        commented: true,
        spelling: NO_LETTER,
        amount: 0,
    }
}

// A CR that no LF follows is a letter: what follows is the byte at hand.
#[tactic(auto, using(std::proofs::lemmas::Bool::Decides::nat_tests), unfolding(crate::specs::Steps::settled_by))]
pub fn settle(spot: Spot, byte: u8) -> Spot
    ensures { result ≡ settled_by spot byte }
{
    if spot.returned && byte != b'\n' {
        return grow(spot, b'\r');
    }
    spot
}

// Does the byte end a word? In a comment there is none.
#[tactic(auto, using(std::proofs::lemmas::Bool::Decides::nat_tests), unfolding(crate::specs::Steps::ends_word))]
pub fn ends_word(spot: Spot, byte: u8) -> bool
    ensures { result ≡ ends_word spot byte }
{
    spot.spelling != NO_LETTER && is_end(byte)
}

// What stands behind the byte, once the CR before it is settled.
#[tactic(auto, using(std::proofs::lemmas::Bool::Decides::nat_tests), unfolding(crate::specs::Steps::went_by))]
pub fn go_on(spot: Spot, byte: u8) -> Spot
    ensures { result ≡ went_by spot byte }
{
    match byte {
        b'\n' => begin(),
        b'\r' => Spot {
            returned: true,
            ..spot
        },
        _ if spot.commented => spot,
        b'#' => begin_comment(),
        _ if is_blank(byte) => begin(),
        _ => grow(spot, byte),
    }
}

// One letter more, which makes no difference in a comment.
#[tactic(auto, using(std::proofs::lemmas::Bool::Decides::nat_tests), unfolding(crate::specs::Steps::grown_by))]
fn grow(spot: Spot, letter: u8) -> Spot
    ensures { result ≡ grown_by spot letter }
{
    if spot.commented {
        return begin_comment();
    }
    Spot {
        returned: false,
        commented: false,
        spelling: spell(spot.spelling, letter),
        amount: count(spot.amount, letter),
    }
}

// How a word is spelled with one letter more.
#[tactic(auto, using(std::proofs::lemmas::Bool::Decides::nat_tests), unfolding(crate::specs::Words::spelled_after))]
fn spell(spelling: u64, letter: u8) -> u64
    ensures { result ≡ spelled_after spelling letter }
{
    if spelling < SEVEN_LETTERS {
        return 256 * spelling + u64::from(letter);
    }
    MANY_LETTERS
}

// Its amount then.
#[tactic(auto, using(std::proofs::lemmas::Bool::Decides::nat_tests, scanning::proofs::ByteLaws::digit_same), unfolding(crate::specs::Words::amount_after))]
fn count(amount: u64, letter: u8) -> u64
    ensures { result ≡ amount_after amount letter }
{
    if !letter.is_ascii_digit() {
        return NOT_WHOLE;
    }
    if TOO_LARGE <= amount {
        return amount;
    }
    (10 * amount + u64::from(letter - b'0')).min(TOO_LARGE)
}

// A number above NOT_WHOLE says no more than that it is too large.
impl From<u64> for Amount {
    ghost from_gives = { λ number amount. amount ≡ amount_for number };

    #[tactic(auto, using(std::proofs::lemmas::Bool::Decides::nat_tests), unfolding(crate::specs::Steps::amount_for))]
    fn from(number: u64) -> Amount {
        match number {
            NOT_WHOLE => Amount::NotWhole,
            _ => whole(number),
        }
    }
}

// The amount of a whole number.
#[tactic(auto, using(std::proofs::lemmas::Bool::Decides::nat_tests), unfolding(crate::specs::Steps::whole_for))]
fn whole(number: u64) -> Amount
    ensures { result ≡ whole_for number }
{
    match u32::try_from(number) {
        Ok(number) => Amount::Whole(number),
        Err(_) => Amount::TooLarge,
    }
}

// Does the byte end a word that stands before it?
#[tactic(auto, using(std::proofs::lemmas::Bool::Decides::nat_tests), unfolding(crate::specs::Words::is_end))]
fn is_end(byte: u8) -> bool
    ensures { result ≡ is_end byte }
{
    matches!(byte, b'\n' | b'#') || is_blank(byte)
}

// Is it a blank or a tab?
#[tactic(auto, using(std::proofs::lemmas::Bool::Decides::nat_tests), unfolding(crate::specs::Words::is_blank))]
fn is_blank(byte: u8) -> bool
    ensures { result ≡ is_blank byte }
{
    matches!(byte, b' ' | b'\t')
}
