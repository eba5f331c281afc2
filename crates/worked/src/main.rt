// Judges every table of the file `tables` and prints each one's text, to be held to an independent reference. Then the engine plays
// it, and a line says with which verdict; where it takes a table and does not say and leave what the analysis does, a line says so.
// A line tells the rounds from the old start; where that changes the verdict or an answer, a line says so. The last lines tell what the second
// analysis finds and leaves.
//
// An entry of the file is two bytes with the table's length, one byte with the length of the slice to lend for answers, one byte
// with that of the slice to lend for rounds, and the table's bytes.
#![tactic(auto)]

ghost use Rattle.std.specs.Prelude.{◌≡◌, length};
ghost use Rattle.printing.specs.Page.{Wrote};
ghost use Rattle.worked.specs.Stay.{stays, stay_line};

mod comparing;
mod numbers;
mod past;
mod playing;
mod starts;

use comparing::same_outcome;
use model::Place;
use printing::Page;
use response::{Start, Verdict};
use std::fs::File;
use std::io::Result;
use streams::{fail, read_full};

// What each lent word holds before a call, so that a word that stays can be seen to stay.
const FILLER: u32 = 2779096485;

// Bytes enough for all lines of an entry: its table's text, and at most 27 with its number, 8 on the words that stay, 34 of the engine
// and 1,617 with the rounds of 200 tasks from the old start.
const ROOM: usize = printing::LONGEST + 1686;

fn main(rt: HostRuntime) -> Result<()> {
    match File::open(&rt, "tables") {
        Ok(file) => judge_all(rt, file),
        Err(error) => fail(rt, b"tables", error),
    }
}

// A proved loop has to end, and nothing says that a file does. So the loop counts the tables, up to a number that no file reaches.
fn judge_all(rt: HostRuntime, mut file: File) -> Result<()> {
    for number in 0..u64::MAX {
        if !judge_next(rt, &mut file, number)? {
            break;
        }
    }
    Ok(())
}

// Reads the next entry, or what there is of its table, and judges it; false where the file has ended.
fn judge_next(rt: HostRuntime, file: &mut File, number: u64) -> Result<bool> {
    let mut head = [0u8; 4];
    if read_full(file, &mut head) < 4 {
        return Ok(false);
    }
    let [high, low, answers, rounds] = head;
    let mut space = [0u8; 65536];
    let room = &mut space[..usize::from(u16::from_be_bytes([high, low]))];
    let taken = read_full(file, room);
    lend(rt, number, &room[..taken], answers, rounds)?;
    lend_past(rt, &room[..taken], answers, rounds)?;
    Ok(true)
}

// Lends slices of the lengths that the entry names; the engine's is as long as that for answers.
fn lend(rt: HostRuntime, number: u64, table: &[u8], answers: u8, rounds: u8) -> Result<()> {
    let (words, counts) = (usize::from(answers), usize::from(rounds));
    judge(
        rt,
        number,
        table,
        &mut filler()[..words],
        &mut filler()[..counts],
        &mut filler()[..words],
        &mut filler()[..words],
        &mut filler()[..counts],
    )
}

// The same for the second analysis: two slices, as long as the first analysis's.
fn lend_past(rt: HostRuntime, table: &[u8], answers: u8, tried: u8) -> Result<()> {
    past::judge(
        rt,
        table,
        &mut filler()[..usize::from(answers)],
        &mut filler()[..usize::from(tried)],
    )
}

// Words enough for any length that a byte can name.
fn filler() -> [u32; 256]
    ensures { 256 ≡ length result }
{
    [FILLER; 256]
}

// Judges one table, and writes its text in one call.
fn judge(
    rt: HostRuntime,
    number: u64,
    table: &[u8],
    answers: &mut [u32],
    rounds: &mut [u32],
    played: &mut [u32],
    old_answers: &mut [u32],
    old_rounds: &mut [u32],
) -> Result<()> {
    let verdict = response::analyse(table, answers, rounds);
    let old = response::analyse_from(Start::OwnCost, table, old_answers, old_rounds);
    let heard = engine::play(table, played);
    let mut out = [0u8; ROOM];
    let mut page = Page {
        out: &mut out,
        at: 0,
    };
    page.line_with_number(b"table ", number);
    page.text(table, verdict, answers, rounds);
    let first = first_to_stay(table, verdict);
    append_stay(&mut page, stay(answers, first) && stay(rounds, first));
    playing::append_played(
        &mut page,
        heard,
        playing::agree(verdict, heard, answers, played),
    );
    starts::append_own_cost(
        &mut page,
        old_rounds,
        first.0,
        same_outcome(verdict, old, answers, old_answers) && stay(old_rounds, first),
    );
    let end = page.at;
    rt.write_all(&out[..end])
}

// The first word that is not to be written: a refusal changes no word.
fn first_to_stay(table: &[u8], verdict: Verdict) -> Place {
    match verdict {
        Verdict::Refused(_) => Place(0),
        Verdict::Schedulable | Verdict::Late(_) => Place(printing::task_count(table)),
    }
}

// Do the words from `first` on still hold the filler?
pub fn stay(words: &[u32], first: Place) -> bool
    ensures { result ≡ stays words.now first.0 }
{
    words.iter().skip(first.0).all(|word| *word == FILLER)
}

// Appends the last line.
fn append_stay(page: &mut Page, stayed: bool)
    ensures { Wrote page.old (stay_line stayed) page.new }
{
    if stayed {
        page.append(b"stayed\n");
    } else {
        page.append(b"changed\n");
    }
}
