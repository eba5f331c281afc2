// The first five bytes: refusals 1 to 4.
ghost use Rattle.std.specs.Prelude.{◌≡◌};
ghost use Rattle.tables.specs.Checks.{head_check};

use crate::fields::{half, within};
use crate::{
    HEAD_SIZE, MOST_ROWS, Offset, ROW_COUNT_AT, ROW_SIZE, Refusal, TASK_COUNT_AT, VERSION_AT,
    layout,
};

pub fn check(table: &[u8]) -> Result<(), Refusal>
    ensures { result ≡ head_check table.now }
{
    if table.len() < HEAD_SIZE {
        return Err(Refusal::TooShort);
    }
    let layout = layout::of(table[VERSION_AT]);
    if !layout.known {
        return Err(Refusal::UnknownVersion);
    }
    let n = usize::from(table[TASK_COUNT_AT]);
    let m = usize::from(table[ROW_COUNT_AT]);
    if !within(1, layout.most, n as u32) {
        return Err(Refusal::CountOutOfRange(Offset(TASK_COUNT_AT)));
    }
    if !within(0, MOST_ROWS, m as u32) {
        return Err(Refusal::CountOutOfRange(Offset(ROW_COUNT_AT)));
    }
    if half(table, 1) as usize != table.len() {
        return Err(Refusal::LengthsDiffer);
    }
    if HEAD_SIZE + layout.size * n + ROW_SIZE * m != table.len() {
        return Err(Refusal::LengthsDiffer);
    }
    Ok(())
}
