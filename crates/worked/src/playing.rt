// The engine's side of an entry: its verdict, and whether it agrees with the analysis.
ghost use Rattle.std.specs.Prelude.{◌≡◌};
ghost use Rattle.printing.specs.Page.{Wrote};
ghost use Rattle.worked.specs.Played.{is_refused, agrees, played_text};

use crate::comparing::{append_unless, same_outcome};
use model::Place;
use printing::Page;
use response::Verdict;

fn is_refused(verdict: Verdict) -> bool
    ensures { result ≡ is_refused verdict }
{
    matches!(verdict, Verdict::Refused(_))
}

// A refusal of the engine leaves every word as it was; where neither refuses, both say the same, and leave the same words. (The
// analysis alone refuses where there is no room for rounds.)
pub fn agree(verdict: Verdict, heard: Verdict, answers: &[u32], played: &[u32]) -> bool
    ensures { result ≡ agrees verdict heard answers.now played.now }
{
    if is_refused(heard) {
        return crate::stay(played, Place(0));
    }
    if is_refused(verdict) {
        return true;
    }
    same_outcome(verdict, heard, answers, played)
}

// Appends the engine's line, and one more where it does not agree.
pub fn append_played(page: &mut Page, heard: Verdict, agreed: bool)
    ensures { Wrote page.old (played_text heard agreed) page.new }
{
    page.append(b"engine ");
    page.verdict_line(heard);
    append_unless(page, agreed);
}
