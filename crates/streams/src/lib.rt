// What the programs do with a stream: they read from it, where a read that fails is the end or a reason not to go on, and say why something
// failed.
#![tactic(auto)]

ghost use Rattle.std.specs.Prelude.{◌≡◌, ◌≤◌, List, ℕ, length};
ghost use Rattle.io.specs.Counts.{IsPrefixLen};
ghost use Rattle.streams.specs.declared.Unread.TheVariants.{Failed};
ghost use denote.Ref.{Bor, MutBor};

use std::io::{Cursor, Error, Read, Result, Write};

// Room for the system's words for an error and its number: the library keeps 256 bytes of words.
const ROOM: usize = 300;

// Why an input was not gone through.
#[derive(Clone, Copy, Debug)]
pub enum Unread {
    // a read failed
    Failed(Error),
    TooLong,
}

impl From<Error> for Unread {
    ghost from_gives = { λ error why. why ≡ Failed error };

    fn from(error: Error) -> Unread {
        Unread::Failed(error)
    }
}

// Reads once, and answers how many bytes stand at the buffer's start: none at the end of the input, and none where the read fails.
pub fn read_some<R: Read>(input: &mut R, buffer: &mut [u8]) -> usize
    ensures { IsPrefixLen result buffer.new }
{
    input.read(buffer).unwrap_or(0)
}

// Reads until the buffer is full, the input ends or a read fails, and answers how many bytes stand at the buffer's start. On an empty
// buffer it does not read.
pub fn read_full<R: Read>(input: &mut R, buffer: &mut [u8]) -> usize
    ensures { IsPrefixLen result buffer.new }
{
    let mut done = 0;
    while done < buffer.len() {
        let count = read_some(input, &mut buffer[done..]);
        if count == 0 {
            break;
        }
        done += count;
    }
    done
}

// Reads a table, and has its text put into a buffer; answers where it ends, as `text` does.
pub fn text_of_input<R: Read, F: FnOnce(&[u8], &mut [u8]) -> usize>(
    input: &mut R,
    out: &mut [u8],
    text: F,
) -> usize
    requires { (table : Bor (List ℕ)) (lent : MutBor (List ℕ)) → lent.now ≡ out.old → F.pre text table lent }
    ensures { (table : Bor (List ℕ)) × (lent left : MutBor (List ℕ)) × (length table.now ≤ 4590) × (lent.now ≡ out.old) × (left.now ≡ out.new) × F.post text table lent result left }
{
    // one byte more than the longest table, so that a longer input is seen to be too long
    let mut table = [0u8; 4590];
    let length = read_full(input, &mut table);
    text(&table[..length], out)
}

// Writes a line to standard error: what failed, as the caller names it, a colon and the system's words for why.
pub fn fail(rt: HostRuntime, what: &[u8], error: Error) -> Result<()> {
    let mut line = Cursor::new([0u8; ROOM]);
    write!(line, "{error}")?;
    let end = line.position().min(ROOM as u64) as usize;
    let text = line.into_inner();
    let mut to = rt.stderr();
    Write::write_all(&mut to, what)?;
    Write::write_all(&mut to, b": ")?;
    Write::write_all(&mut to, words(&text[..end]))?;
    Write::write_all(&mut to, b"\n")
}

// The words alone: the library puts the error's number behind them, in brackets.
fn words(text: &[u8]) -> &[u8] {
    match text.iter().rposition(|byte| *byte == b'(') {
        Some(at) => text[..at].trim_ascii_end(),
        None => text,
    }
}
