// Reads many tables that stand end to end from standard input and prints a report of them, each table's line as soon as the table has come
// whole (SPECIFICATION 13.12; document 02, L10). It keeps the table at hand and three counts, however long the input is.
#![tactic(auto)]

ghost use Rattle.std.specs.Prelude.{◌≡◌, ◌≤◌, length, IfOk};
ghost use Rattle.printing.specs.Longest.{Whole};
ghost use Rattle.reporting.specs.Streaming.{store_size, GoesOn, Countable, closing_by, lines_room};
ghost use Rattle.reporting.specs.Longest.{closing_room};
ghost use Rattle.report.specs.Input.{input_read};

use reporting::{Report, Told};
use std::io::{self, Error, Read};
use streams::fail;

// A proved count of bytes has to end somewhere, and no input is that long: 2^63 bytes.
const MOST_BYTES: usize = 9223372036854775808;

// What was read of the input: so many bytes, to its end, or to where they close the report.
#[derive(Clone, Copy)]
enum Input {
    Read(Report, usize),
    Closed(Report, usize),
}

// Why it was not read so far.
#[derive(Clone, Copy)]
enum Failure {
    Unread(Error),
    Unwritten(Error),
    TooLong,
}

fn main(rt: HostRuntime) -> io::Result<()> {
    let mut store = [0u8; reporting::STORE];
    match report_all(rt, &mut store) {
        Ok(Input::Read(report, _) | Input::Closed(report, _)) => close(rt, report),
        Err(Failure::Unread(error)) => fail(rt, b"the tables", error),
        Err(Failure::Unwritten(error)) => fail(rt, b"the report", error),
        Err(Failure::TooLong) => say_too_long(rt),
    }
}

// Reads standard input piece by piece, and writes the lines of the tables that end in each piece before it reads the next.
fn report_all(rt: HostRuntime, store: &mut [u8]) -> Result<Input, Failure>
    requires { length store.old ≡ store_size }
    ensures { IfOk result (λ input. input_read input store.new) }
{
    let mut input = rt.stdin();
    let mut piece = [0u8; 4096];
    let mut out = [0u8; 65536];
    let mut report = reporting::begin();
    let mut total: usize = 0;
    while total < MOST_BYTES {
        let taken = input.read(&mut piece).map_err(Failure::Unread)?;
        if taken == 0 {
            return Ok(Input::Read(report, total));
        }
        let told = lines(report, &piece[..taken], store, &mut out);
        rt.write_all(&out[..told.end]).map_err(Failure::Unwritten)?;
        report = told.report;
        total += taken;
        if reporting::is_closed(report) {
            return Ok(Input::Closed(report, total));
        }
    }
    Err(Failure::TooLong)
}

// Puts the lines of the tables that end in a piece, all of them whole, into a buffer that has room.
fn lines(report: Report, more: &[u8], store: &mut [u8], out: &mut [u8]) -> Told
    requires countable { Countable report store.old (length more.now) }
    requires more_in_bounds { lines_room (length more.now) ≤ length out.old }
    ensures goes_on { GoesOn report store.old more.now out.old 0 result store.new out.new }
    ensures end_in_bounds { result.end ≤ length out.new }
{
    reporting::go_on(report, more, store, out, 0)
}

fn say_too_long(rt: HostRuntime) -> io::Result<()> {
    rt.stderr()
        .write_all(b"the tables have 2^63 bytes or more\n")
}

// Writes the totals, and that the input is broken where it is.
fn close(rt: HostRuntime, report: Report) -> io::Result<()> {
    let mut out = [0u8; 4096];
    let end = closing(report, &mut out);
    rt.write_all(&out[..end])
}

// Puts them into a buffer that has room.
fn closing(report: Report, out: &mut [u8]) -> usize
    requires { closing_room ≤ length out.old }
    ensures { Whole out.old (closing_by report) result out.new }
{
    reporting::finish(report, out, 0)
}
