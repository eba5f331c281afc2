// Which field stands at a byte of the table that is typed, and in which line of its text (SPECIFICATION 14.6).
ghost use Rattle.std.specs.Prelude.{◌≤◌, ◌≡◌, ltb, length};
ghost use Rattle.model.specs.Choice.{on};
ghost use Rattle.printing.specs.Appended.{Appended};
ghost use Rattle.printing.specs.Page.{Wrote};
ghost use Rattle.typing.specs.Kept.{number_at, row_line_kept};
ghost use Rattle.typed.specs.Bytes.{Roomy, version_kept};
ghost use Rattle.typed.specs.Places.{line_said, said, head_name, delay_name, record_name, row_name, head_said, row_said, place_kept, PlaceAnswered};

use crate::{Faulty, fault_line, version_of};
use printing::Page;
use tables::layout::DelayFields;
use tables::{HEAD_SIZE, ROW_SIZE};
use typing::{Counts, Line, State};

// The answer for a byte of the table of a text that is gone through: the line of what stands there, or, where the text can't be read, the
// one for its fault.
pub fn respond_place(
    state: State,
    numbers: &[u32],
    places: &[u64],
    place: usize,
    out: &mut [u8],
) -> Result<usize, Faulty>
    requires roomy { Roomy state.counts }
    requires numbers_len { (length numbers.now ≡ 1393) × (length places.now ≡ 265) }
    ensures { PlaceAnswered state numbers.now places.now place out.old result out.new }
{
    match state.line {
        Line::Wrong(fault) => Err(Faulty(fault_line(out, state.number, fault))),
        _ => Ok(line_of(state.counts, numbers, places, place, out)),
    }
}

// The line for a byte of the table in the version that it has.
fn line_of(counts: Counts, numbers: &[u32], places: &[u64], place: usize, out: &mut [u8]) -> usize
    requires roomy { Roomy counts }
    requires numbers_len { (length numbers.now ≡ 1393) × (length places.now ≡ 265) }
    ensures { Appended out.old 0 (place_kept counts (version_kept counts (number_at numbers.now 0)) places.now place) result out.new }
{
    let version = version_of(counts, numbers[0]);
    let mut page = Page { out, at: 0 };
    place_line(&mut page, counts, version, places, place);
    page.at
}

// Appends the line for a byte of the table.
fn place_line(page: &mut Page, counts: Counts, version: u8, places: &[u64], place: usize)
    requires roomy { Roomy counts }
    requires places_len { length places.now ≡ 265 }
    ensures { Wrote page.old (place_kept counts version places.now place) page.new }
{
    let layout = tables::layout::of(version);
    if place < HEAD_SIZE {
        in_head(page, place, places[0]);
        return;
    }
    let behind = place - HEAD_SIZE;
    let records = layout.size * counts.tasks;
    if behind < records {
        let size = layout.size;
        let line = places[65 + behind / size];
        in_record(page, line, layout.delays, behind % size);
    } else {
        in_row(page, counts.sections, places, behind - records);
    }
}

// Of the head only the version may stand in a line.
#[tactic(auto, using(std::proofs::lemmas::Bool::Decides::nat_tests), unfolding(crate::specs::Places::head_said))]
fn in_head(page: &mut Page, at: usize, line: u64)
    ensures { Wrote page.old (head_said line at) page.new }
{
    say(page, if at < 1 { line } else { 0 }, head_name(at));
}

fn in_record(page: &mut Page, line: u64, delays: DelayFields, at: usize)
    ensures { Wrote page.old (said line (record_name delays at)) page.new }
{
    say(page, line, record_name(delays, at));
}

// Behind the last row nothing stands in a line.
#[tactic(auto, using(std::proofs::lemmas::Bool::Decides::nat_tests), unfolding(crate::specs::Places::row_said))]
fn in_row(page: &mut Page, count: usize, places: &[u64], at: usize)
    requires count_bound { count ≤ 64 }
    requires places_len { length places.now ≡ 265 }
    ensures { Wrote page.old (row_said count (row_line_kept places.now) at) page.new }
{
    say(
        page,
        row_line(count, places, at / ROW_SIZE),
        row_name(at % ROW_SIZE),
    );
}

fn row_line(count: usize, places: &[u64], k: usize) -> u64
    requires count_bound { count ≤ 64 }
    requires places_len { length places.now ≡ 265 }
    ensures { result ≡ on (ltb k count) (row_line_kept places.now k) }
{
    if k < count { places[1 + k] } else { 0 }
}

// The line for a field of that name.
fn say(page: &mut Page, line: u64, name: &[u8])
    ensures { Wrote page.old (said line name.now) page.new }
{
    say_line(page, line);
    page.append(name);
    page.append(b"\n");
}

fn say_line(page: &mut Page, line: u64)
    ensures { Wrote page.old (line_said line) page.new }
{
    if line == 0 {
        page.append(b"no line: ");
    } else {
        page.append_with_number(b"line ", line);
        page.append(b": ");
    }
}

#[tactic(auto, using(std::proofs::lemmas::Bool::Decides::nat_tests), unfolding(crate::specs::Places::head_name))]
fn head_name(at: usize) -> &'static [u8]
    ensures { result.now ≡ head_name at }
{
    match at {
        0 => b"version",
        1 | 2 => b"length",
        3 => b"number of tasks",
        _ => b"number of sections",
    }
}

#[tactic(auto, using(std::proofs::lemmas::Bool::Decides::nat_tests), unfolding(crate::specs::Places::record_name))]
fn record_name(delays: DelayFields, at: usize) -> &'static [u8]
    ensures { result.now ≡ record_name delays at }
{
    match at {
        0 => b"priority",
        1..=4 => b"period",
        5..=8 => b"cost",
        9..=12 => b"deadline",
        _ => delay_name(delays, at),
    }
}

fn delay_name(delays: DelayFields, at: usize) -> &'static [u8]
    ensures { result.now ≡ delay_name delays at }
{
    match delays {
        DelayFields::Jitter => b"jitter",
        DelayFields::Pair if at < 17 => b"earliest delay",
        DelayFields::Pair => b"latest delay",
    }
}

#[tactic(auto, using(std::proofs::lemmas::Bool::Decides::nat_tests), unfolding(crate::specs::Places::row_name))]
fn row_name(at: usize) -> &'static [u8]
    ensures { result.now ≡ row_name at }
{
    match at {
        0 => b"place",
        1 => b"semaphore",
        _ => b"length",
    }
}
