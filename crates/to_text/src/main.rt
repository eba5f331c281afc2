// Reads a table from standard input and prints its text form (SPECIFICATION 14).
#![tactic(auto)]

ghost use Rattle.std.specs.Prelude.{◌≤◌, length};
ghost use Rattle.printing.specs.Longest.{Whole};
ghost use Rattle.writing.specs.Text.{form_text};
ghost use Rattle.writing.specs.Longest.{longest_form};

use std::io::Result;
use streams::text_of_input;

fn main(rt: HostRuntime) -> Result<()> {
    let mut out = [0u8; writing::LONGEST];
    let end = text_of_input(&mut rt.stdin(), &mut out, answer);
    rt.write_all(&out[..end])
}

// Puts the whole text for the table into a buffer that holds any, and answers where it ends.
fn answer(table: &[u8], out: &mut [u8]) -> usize
    requires { longest_form ≤ length out.old }
    ensures { Whole out.old (form_text table.now) result out.new }
{
    writing::form_text(table, out)
}
