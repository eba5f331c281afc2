// A whole text: the bytes of the table that is typed in it, or the line of its fault; and the line of a byte of that table (SPECIFICATION 14).
#![tactic(auto)]

ghost use Rattle.std.specs.Prelude.{◌≤◌, ◌<◌, ◌≡◌, length, IfOk, IfErr};
ghost use Rattle.model.specs.Choice.{on};
ghost use Rattle.typing.specs.Lines.{no_fields};
ghost use Rattle.typed.specs.Answered.{end_in, says_faulty};
ghost use Rattle.texts.specs.Behind.{Empty, AfterText};
ghost use Rattle.texts.specs.declared.Unread.TheVariants.{TooLong};
ghost use Rattle.texts.specs.Given.{most_text, kind_of, end_of, TextGiven, PlaceGiven};

use typed::Faulty;
use typing::State;

// A proved count of lines has to end somewhere, and no text is that long: 2^59 bytes.
pub const MOST_TEXT: usize = 576460752303423488;

// Why a text has no answer: it can't be read, and the line for its fault stands at the buffer's beginning and ends there; or it is too long to
// count its lines, and nothing is put there.
#[derive(Clone, Copy, Debug, PartialEq, Eq)]
pub enum Unread {
    Faulty(usize),
    TooLong,
}

// The bytes of the table that is typed in a text, at the buffer's beginning, and where they end. 4,589 bytes (`typed::LONGEST`) hold any
// answer whole, and the line for any fault.
pub fn text_bytes(text: &[u8], out: &mut [u8]) -> Result<usize, Unread>
    ensures { TextGiven text.now out.old result out.new }
{
    let mut numbers = [0u32; typing::NUMBERS];
    let mut places = [0u64; typing::PLACES];
    let state = go_through(text, &mut numbers, &mut places)?;
    pass_on(typed::respond(state, &numbers, out))
}

// The line of the field that stands at a byte of that table.
pub fn place_line(text: &[u8], place: usize, out: &mut [u8]) -> Result<usize, Unread>
    ensures { PlaceGiven text.now place out.old result out.new }
{
    let mut numbers = [0u32; typing::NUMBERS];
    let mut places = [0u64; typing::PLACES];
    let state = go_through(text, &mut numbers, &mut places)?;
    pass_on(typed::places::respond_place(state, &numbers, &places, place, out))
}

// Goes through a text, and ends its last line.
fn go_through(text: &[u8], numbers: &mut [u32], places: &mut [u64]) -> Result<State, Unread>
    requires { Empty no_fields numbers.old places.old }
    ensures ok { IfOk result (λ state. (length text.now < most_text) × AfterText text.now state numbers.new places.new) }
    ensures err { IfErr result (λ why. (most_text ≤ length text.now) × (why ≡ TooLong)) }
{
    if MOST_TEXT <= text.len() {
        return Err(Unread::TooLong);
    }
    let mut fields = [0u32; typing::FIELDS];
    let reader = typing::go_on(typing::begin(), text, &mut fields, numbers, places);
    let last = typing::take_byte(reader, b'\n', &mut fields, numbers, places);
    Ok(last.state)
}

fn pass_on(answer: Result<usize, Faulty>) -> Result<usize, Unread>
    ensures { (kind_of result ≡ on (says_faulty answer) 1) × (end_of result ≡ end_in answer) }
{
    answer.map_err(|Faulty(end)| Unread::Faulty(end))
}
