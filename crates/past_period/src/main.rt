// Reads a table from standard input and prints what the second analysis says of it (SPECIFICATION 10 and 13.8; document 02, L8).
#![tactic(auto)]

ghost use Rattle.std.specs.Prelude.{◌≤◌, length};
ghost use Rattle.printing.specs.Longest.{Whole};
ghost use Rattle.past_text.specs.Answered.{past_text};
ghost use Rattle.past_text.specs.Longest.{longest_past};

use std::io::Result;
use streams::text_of_input;

fn main(rt: HostRuntime) -> Result<()> {
    let mut out = [0u8; past_text::LONGEST];
    let end = text_of_input(&mut rt.stdin(), &mut out, answer);
    rt.write_all(&out[..end])
}

// Puts the whole text of what the second analysis says of the table into a buffer that holds any, and answers where it ends.
fn answer(table: &[u8], out: &mut [u8]) -> usize
    requires { longest_past ≤ length out.old }
    ensures { Whole out.old (past_text table.now) result out.new }
{
    past_text::past_text(table, out)
}
