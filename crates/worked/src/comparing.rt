// Do two calls say and leave the same?
ghost use Rattle.std.specs.Prelude.{◌≡◌};
ghost use Rattle.printing.specs.Page.{Wrote};
ghost use Rattle.worked.specs.Compared.{same_outcome, unless_agreed};

use printing::Page;
use response::{Told, Verdict};

// Is the verdict the same, and the words too?
pub fn same_outcome(verdict: Verdict, other: Verdict, answers: &[u32], others: &[u32]) -> bool
    ensures { result ≡ same_outcome verdict other answers.now others.now }
{
    verdict.code() == other.code() && verdict.place() == other.place() && answers == others
}

// Appends a line more where two calls do not agree.
pub fn append_unless(page: &mut Page, agreed: bool)
    ensures { Wrote page.old (unless_agreed agreed) page.new }
{
    if !agreed {
        page.append(b"differs\n");
    }
}
