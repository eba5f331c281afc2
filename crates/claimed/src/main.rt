// Checks every list of the file `claims` against its table and prints what is said of it, to be held to an independent reference.
//
// An entry of the file is two bytes with the table's length, one byte with the number of claims, the table's bytes, and four bytes for each
// claim; numbers are big-endian, as in a table.
#![tactic(auto)]

ghost use Rattle.std.specs.Prelude.{◌≤◌, ◌<◌, length};

use printing::Page;
use std::fs::File;
use std::io::Result;
use streams::{fail, read_full};

// Bytes enough for two lines: at most 28 with the entry's number, and the answer's.
const ROOM: usize = checking::LONGEST + 28;

fn main(rt: HostRuntime) -> Result<()> {
    match File::open(&rt, "claims") {
        Ok(file) => check_all(rt, file),
        Err(error) => fail(rt, b"claims", error),
    }
}

// A proved loop has to end, and nothing says that a file does. So the loop counts the entries, up to a number that no file reaches.
fn check_all(rt: HostRuntime, mut file: File) -> Result<()> {
    for number in 0..u64::MAX {
        if !check_next(rt, &mut file, number)? {
            break;
        }
    }
    Ok(())
}

// Reads the lengths of the next entry and checks it; false where the file has ended.
fn check_next(rt: HostRuntime, file: &mut File, number: u64) -> Result<bool> {
    let mut head = [0u8; 3];
    if read_full(file, &mut head) < 3 {
        return Ok(false);
    }
    let length = u16::from_be_bytes([head[0], head[1]]);
    check_entry(rt, file, number, length, head[2])?;
    Ok(true)
}

// Reads the table and the claims of an entry, or what there is of them, and checks them.
fn check_entry(
    rt: HostRuntime,
    file: &mut File,
    number: u64,
    length: u16,
    claims: u8,
) -> Result<()> {
    let mut table = [0u8; 65536];
    let table_end = read_full(file, &mut table[..usize::from(length)]);
    let mut bytes = [0u8; 1020];
    let bytes_end = read_full(file, &mut bytes[..4 * usize::from(claims)]);
    let mut words = [0u32; 255];
    let n = words_of(&bytes[..bytes_end], &mut words);
    check(rt, number, &table[..table_end], &words[..n])
}

// The whole words of the bytes, as far as there is room; answers how many.
fn words_of(bytes: &[u8], words: &mut [u32]) -> usize
    ensures { result ≤ length words.new }
{
    let (chunks, _) = bytes.as_chunks();
    for (word, chunk) in words.iter_mut().zip(chunks) {
        *word = u32::from_be_bytes(*chunk);
    }
    words.len().min(chunks.len())
}

// Checks one list, and writes what is said of it in one call.
fn check(rt: HostRuntime, number: u64, table: &[u8], claims: &[u32]) -> Result<()> {
    let claimed = claims::check_claims(table, claims);
    let mut out = [0u8; ROOM];
    let mut page = Page {
        out: &mut out,
        at: 0,
    };
    page.line_with_number(b"claims ", number);
    checking::claimed_line(&mut page, claimed);
    let end = page.at;
    rt.write_all(&out[..end])
}
