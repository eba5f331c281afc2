// The old start's side of an entry (SPECIFICATION 5.1; document 02, L5): the rounds from it, and whether all else is as from the default.
ghost use Rattle.printing.specs.Page.{Wrote};
ghost use Rattle.worked.specs.Starts.{own_cost_text};

use crate::comparing::append_unless;
use crate::numbers::append_line;
use printing::Page;

// Appends the line with the rounds of `count` tasks, and one more where verdict or answers differ.
pub fn append_own_cost(page: &mut Page, rounds: &[u32], count: usize, agreed: bool)
    ensures { Wrote page.old (own_cost_text rounds.now count agreed) page.new }
{
    append_line(page, b"own cost", rounds, count);
    append_unless(page, agreed);
}
