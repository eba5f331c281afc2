// The engine (SPECIFICATION 9; document 02, L1 and L9) over numbers alone: the words with a bit for each task that has work, and the releases
// of a tick. It knows no bytes and no tables.
#![tactic(auto)]

pub mod release;
pub mod tasks;
pub mod words;
