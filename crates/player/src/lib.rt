// The engine's C interface, in a library of its own: one that links the analysis alone does not carry it, or pay for it.
#![tactic(auto)]

ghost use Rattle.player.specs.Packing.{PackedPlay};

use response::pack;

// include/ulmerascio.h says how to call it and how to take the number apart.
#[unsafe(no_mangle)]
pub extern "C" fn ulmerascio_play(table: &[u8], answers: &mut [u32]) -> u64
    ensures { PackedPlay table.now answers.old result answers.new }
{
    pack(engine::play(table, answers))
}
