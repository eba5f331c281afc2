// Reads the text of a table from standard input and writes the table's bytes. With one argument, a byte of the table, it writes the line of
// the text in which that field stands instead. A text that can't be read gets one line on standard error (SPECIFICATION 14).
#![tactic(auto)]

ghost use Rattle.std.specs.Prelude.{◌≤◌, length};
ghost use Rattle.typed.specs.Answered.{end_in};
ghost use Rattle.texts.specs.Behind.{Empty};
ghost use Rattle.to_bytes.specs.Texts.{Behind, After, Ended, text_read, AnswersText, AnswersPlace};

use std::env::{Env, FillError};
use std::io::{self, Read};
use streams::{Unread, fail};
use texts::MOST_TEXT;
use typed::Faulty;
use typing::{Reader, State};

fn main(rt: HostRuntime) -> io::Result<()> {
    let mut fields = [0u32; typing::FIELDS];
    let mut numbers = [0u32; typing::NUMBERS];
    let mut places = [0u64; typing::PLACES];
    match read_text(&mut rt.stdin(), &mut fields, &mut numbers, &mut places) {
        Ok(reader) => finish(rt, reader, &mut fields, &mut numbers, &mut places),
        Err(Unread::Failed(error)) => fail(rt, b"the text", error),
        Err(Unread::TooLong) => say_too_long(rt),
    }
}

// Goes through the input to its end, piece by piece as it is read.
fn read_text<I: Read>(
    input: &mut I,
    fields: &mut [u32],
    numbers: &mut [u32],
    places: &mut [u64],
) -> Result<Reader, Unread>
    requires { Empty fields.old numbers.old places.old }
    ensures { text_read result fields.new numbers.new places.new }
{
    let mut piece = [0u8; 65536];
    let mut reader = typing::begin();
    let mut total: usize = 0;
    while total < MOST_TEXT {
        let taken = input.read(&mut piece)?;
        if taken == 0 {
            return Ok(reader);
        }
        reader = typing::go_on(reader, &piece[..taken], fields, numbers, places);
        total += taken;
    }
    Err(Unread::TooLong)
}

fn say_too_long(rt: HostRuntime) -> io::Result<()> {
    rt.stderr().write_all(b"the text has 2^59 bytes or more\n")
}

// Ends the last line, and answers what the first argument asks for.
fn finish(
    rt: HostRuntime,
    reader: Reader,
    fields: &mut [u32],
    numbers: &mut [u32],
    places: &mut [u64],
) -> io::Result<()>
    requires { Behind reader fields.old numbers.old places.old }
{
    let state = typing::take_byte(reader, b'\n', fields, numbers, places).state;
    let mut text = [0u8; 4096];
    match rt.arg(1, &mut text) {
        Ok(length) => write_place(rt, &text[..length], state, numbers, places),
        Err(FillError::NotPresent) => write_answer(rt, state, numbers),
        // so many bytes are not one number
        Err(FillError::TooLong) => say_no_place(rt),
    }
}

// Writes the table's bytes, or on standard error the line for a text that can't be read.
fn write_answer(rt: HostRuntime, state: State, numbers: &[u32]) -> io::Result<()>
    requires { Ended state numbers.now }
{
    let mut out = [0u8; typed::LONGEST];
    let answer = respond(state, numbers, &mut out);
    send(rt, answer, &out)
}

// Puts the whole answer into a buffer that holds any.
fn respond(state: State, numbers: &[u32], out: &mut [u8]) -> Result<usize, Faulty>
    requires ended { Ended state numbers.now }
    requires in_bounds { 4589 ≤ length out.old }
    ensures answers_text { AnswersText state numbers.now out.old result out.new }
    ensures result_in_bounds { end_in result ≤ length out.new }
{
    typed::respond(state, numbers, out)
}

// Writes what was asked for to standard output, and what is wrong to standard error.
fn send(rt: HostRuntime, answer: Result<usize, Faulty>, out: &[u8]) -> io::Result<()>
    requires { end_in answer ≤ length out.now }
{
    match answer {
        Ok(end) => rt.stdout().write_all(&out[..end]),
        Err(Faulty(end)) => rt.stderr().write_all(&out[..end]),
    }
}

// Writes the line of the place that is asked for.
fn write_place(
    rt: HostRuntime,
    text: &[u8],
    state: State,
    numbers: &[u32],
    places: &[u64],
) -> io::Result<()>
    requires { After state numbers.now places.now }
{
    let mut words = [0u32; 1];
    match scanning::numbers(text, &mut words) {
        Ok(1) => say_place(rt, words[0], state, numbers, places),
        _ => say_no_place(rt),
    }
}

fn say_no_place(rt: HostRuntime) -> io::Result<()> {
    rt.stderr()
        .write_all(b"the argument is not a place: one whole number\n")
}

// Says in which line the field stands; a text that can't be read has none.
fn say_place(
    rt: HostRuntime,
    place: u32,
    state: State,
    numbers: &[u32],
    places: &[u64],
) -> io::Result<()>
    requires { After state numbers.now places.now }
{
    let mut out = [0u8; typed::LONGEST];
    let answer = respond_place(state, numbers, places, place as usize, &mut out);
    send(rt, answer, &out)
}

// Puts the line of the place into a buffer.
fn respond_place(
    state: State,
    numbers: &[u32],
    places: &[u64],
    place: usize,
    out: &mut [u8],
) -> Result<usize, Faulty>
    requires { After state numbers.now places.now }
    ensures answers_place { AnswersPlace state numbers.now places.now place out.old result out.new }
    ensures result_in_bounds { end_in result ≤ length out.new }
{
    typed::places::respond_place(state, numbers, places, place, out)
}
