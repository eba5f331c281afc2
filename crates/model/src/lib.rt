// Three kinds of number that must not be mixed up by accident: a count of ticks, a priority, and a task's place in its table.
// A slice holds plain u32 or u8; a single value is one of these, and crossing from one to another is written out.
#![tactic(auto)]

#[derive(Clone, Copy, Debug, PartialEq, Eq, PartialOrd, Ord)]
pub struct Ticks(pub u32);

#[derive(Clone, Copy, Debug, PartialEq, Eq, PartialOrd, Ord)]
pub struct Priority(pub u8);

#[derive(Clone, Copy, Debug, PartialEq, Eq, PartialOrd, Ord)]
pub struct Place(pub usize);

// What an answer slice has for a task that is open: no response time is as long (SPECIFICATION 13.8; document 02, L8).
pub const OPEN: u32 = 4294967295;
