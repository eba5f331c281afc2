// House form, versions 1 to 3: where each field stands, the refusals in their order, and the table that accepted bytes mean.
#![tactic(auto)]

ghost use Rattle.std.specs.Prelude.{◌≡◌};
ghost use Rattle.tables.specs.Refusals.{number_of, place_of};

pub mod fields;
pub mod head;
pub mod layout;

// Sizes in bytes: what stands before the first record, and a section row. A record's size is its layout's.
pub const HEAD_SIZE: usize = 5;

pub const ROW_SIZE: usize = 6;

// Where fields begin: the version and the two counts in the table, a task's numbers in its record, a section's in its row. The layout
// says whether J stands in a record, or the two delays.
pub const VERSION_AT: usize = 0;

pub const TASK_COUNT_AT: usize = 3;

pub const ROW_COUNT_AT: usize = 4;

pub const PRIORITY_AT: usize = 0;

pub const PERIOD_AT: usize = 1;

pub const COST_AT: usize = 5;

pub const DEADLINE_AT: usize = 9;

pub const JITTER_AT: usize = 13;

pub const EARLIEST_AT: usize = 13;

pub const LATEST_AT: usize = 17;

pub const PLACE_AT: usize = 0;

pub const SEMAPHORE_AT: usize = 1;

pub const LONGEST_AT: usize = 2;

// A row out of order is told at its first byte (SPECIFICATION 3.3; document 02, L3).
pub const ORDER_AT: usize = 0;

// Limits: the number of rows, a period, a cost or a delay, a semaphore.
pub const MOST_ROWS: u32 = 64;

pub const MOST_TICKS: u32 = 1000000;

pub const MOST_SEMAPHORE: u32 = 16;

// How many periods a deadline may span: "D is 1 to T" (SPECIFICATION 2.3; document 01).
pub const ONE_PERIOD: u32 = 1;

// "D may be up to 4T here" (SPECIFICATION 13.8; document 02, L8): in the second analysis alone.
pub const FOUR_PERIODS: u32 = 4;

// A byte's place in the table, counted from its first byte. It is no task's place.
#[derive(Clone, Copy, Debug, PartialEq, Eq)]
pub struct Offset(pub usize);

// Why a table is refused (SPECIFICATION 3; document 01, "Refusals"), and where a field is at fault its first byte (document 02, L3). The
// last one is the engine's (SPECIFICATION 9; document 02, L1 and L6): the analysis never gives it.
#[derive(Clone, Copy, Debug, PartialEq, Eq)]
pub enum Refusal {
    TooShort,
    UnknownVersion,
    CountOutOfRange(Offset),
    LengthsDiffer,
    NumberOutOfRange(Offset),
    PriorityOutOfOrder(Offset),
    SectionRow(Offset),
    NoRoom,
    NotPlayable,
}

// The refusal's number (SPECIFICATION 3.2).
pub fn number(refusal: Refusal) -> u32
    ensures { result ≡ number_of refusal }
{
    match refusal {
        Refusal::TooShort => 1,
        Refusal::UnknownVersion => 2,
        Refusal::CountOutOfRange(_) => 3,
        Refusal::LengthsDiffer => 4,
        Refusal::NumberOutOfRange(_) => 5,
        Refusal::PriorityOutOfOrder(_) => 6,
        Refusal::SectionRow(_) => 7,
        Refusal::NoRoom => 8,
        Refusal::NotPlayable => 9,
    }
}

// The place of the fault: the faulty field's first byte, and 0 where no field is at fault.
pub fn place(refusal: Refusal) -> usize
    ensures { result ≡ place_of refusal }
{
    match refusal {
        Refusal::TooShort => 0,
        Refusal::UnknownVersion => 0,
        Refusal::CountOutOfRange(at) => at.0,
        Refusal::LengthsDiffer => 0,
        Refusal::NumberOutOfRange(at) => at.0,
        Refusal::PriorityOutOfOrder(at) => at.0,
        Refusal::SectionRow(at) => at.0,
        Refusal::NoRoom => 0,
        Refusal::NotPlayable => 0,
    }
}
