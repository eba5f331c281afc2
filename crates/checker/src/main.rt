// Checks a list of claims against a table. The first argument names the file with the list's text; the table comes from standard input.
#![tactic(auto)]

ghost use Rattle.std.specs.Prelude.{◌≤◌, ◌≡◌, length};
ghost use Rattle.printing.specs.Longest.{Whole};
ghost use Rattle.scanning.specs.Pieces.{Within, words_at, gone};
ghost use Rattle.checking.specs.Pieces.{words_kept, line_after};
ghost use Rattle.checking.specs.Longest.{longest};
ghost use Rattle.checker.specs.Lists.{Behind, list_read, Taken};

use scanning::Scan;
use std::env::{Env, FillError};
use std::fs::File;
use std::io::{self, Read};
use std::ops::ControlFlow;
use streams::{Unread, fail, read_full};

// 2^63: a proved loop has to end, and the system counts the bytes of a file in 63 bits.
const MOST_TEXT: usize = 9223372036854775808;

fn main(rt: HostRuntime) -> io::Result<()> {
    let mut name = [0u8; 4096];
    match rt.arg(1, &mut name) {
        Ok(length) => check_named(rt, &name[..length]),
        Err(FillError::NotPresent) => say(rt, b"the file with the claims: Invalid argument\n"),
        Err(FillError::TooLong) => say(rt, b"the file with the claims: File name too long\n"),
    }
}

// Opens the file of that name, which the library takes as text alone.
fn check_named(rt: HostRuntime, name: &[u8]) -> io::Result<()> {
    let Ok(path) = str::from_utf8(name) else {
        return say(
            rt,
            b"the name of the file with the claims is not UTF-8 text\n",
        );
    };
    match File::open(&rt, path) {
        Ok(file) => check_file(rt, name, file),
        Err(error) => fail(rt, name, error),
    }
}

// Reads the list from the file, which has that name.
fn check_file(rt: HostRuntime, name: &[u8], mut file: File) -> io::Result<()> {
    let mut words = [0u32; checking::WORDS];
    match read_list(&mut file, &mut words) {
        Ok(scan) => check_input(rt, scan, &mut words),
        Err(Unread::Failed(error)) => fail(rt, name, error),
        Err(Unread::TooLong) => say_too_long(rt),
    }
}

// Goes through the file to its end, piece by piece as it is read, or to something that can't be read.
fn read_list<F: Read>(file: &mut F, words: &mut [u32]) -> Result<Scan, Unread>
    requires { length words.old ≡ words_kept }
    ensures { list_read result words.new }
{
    let mut piece = [0u8; 65536];
    let mut scan = scanning::begin();
    while scan.at.0 < MOST_TEXT {
        let taken = file.read(&mut piece)?;
        match take_in(scan, &piece[..taken], words) {
            ControlFlow::Break(last) => return Ok(last),
            ControlFlow::Continue(reached) => scan = reached,
        }
    }
    Err(Unread::TooLong)
}

// The list ends with a read that gives nothing, or where something can't be read, and nowhere else.
fn take_in(scan: Scan, piece: &[u8], words: &mut [u32]) -> ControlFlow<Scan, Scan>
    requires { Within scan (length piece.now) }
    ensures { Taken scan piece.now words.old result words.new }
{
    if piece.is_empty() {
        return ControlFlow::Break(scan);
    }
    let next = scanning::go_on(scan, piece, words);
    if scanning::is_stuck(next) {
        return ControlFlow::Break(next);
    }
    ControlFlow::Continue(next)
}

// Nothing is said of a list that was not read whole.
fn say_too_long(rt: HostRuntime) -> io::Result<()> {
    say(rt, b"the list has 2^63 bytes or more\n")
}

fn say(rt: HostRuntime, line: &[u8]) -> io::Result<()> {
    rt.stderr().write_all(line)
}

// Reads the table, and writes what is said of the claims in one call.
fn check_input(rt: HostRuntime, scan: Scan, words: &mut [u32]) -> io::Result<()>
    requires { Behind scan words.old }
{
    // one byte more than the longest table
    let mut input = [0u8; 4590];
    let length = read_full(&mut rt.stdin(), &mut input);
    let mut out = [0u8; checking::LONGEST];
    let end = check(scan, words, &input[..length], &mut out);
    rt.write_all(&out[..end])
}

// Puts the whole line for the list and the table into a buffer that holds any, and answers where it ends.
fn check(scan: Scan, words: &mut [u32], table: &[u8], out: &mut [u8]) -> usize
    requires behind { Behind scan words.old }
    requires longest_in_bounds { longest ≤ length out.old }
    ensures whole { Whole out.old (line_after (gone scan words.old) table.now) result out.new }
    ensures words_after { words.new ≡ words_at scan words.old }
{
    checking::check_list(scan, words, table, out)
}
