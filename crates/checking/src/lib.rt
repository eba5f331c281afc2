// The text of a list of claims and the bytes of a table in, one line of text out (SPECIFICATION 10.2; document 02, L7).
#![tactic(auto)]

ghost use Rattle.std.specs.Prelude.{◌≡◌, length};
ghost use Rattle.printing.specs.Appended.{Appended};
ghost use Rattle.printing.specs.Page.{Wrote};
ghost use Rattle.scanning.specs.Pieces.{Within, words_at, gone};
ghost use Rattle.checking.specs.Text.{claimed_line};
ghost use Rattle.checking.specs.Pieces.{words_kept, line_after};

use claims::{Claimed, check_claims};
use printing::Page;
use scanning::{Scan, Unreadable, finish};

// Bytes enough for any line, and for the longest no more than enough: `longest` of specs/Longest.antt.
pub const LONGEST: usize = 35;

// One word more than any table has tasks, so that a longer list is seen to be too long: `words_kept` of specs/Pieces.antt.
pub const WORDS: usize = 201;

// The line for a list whose text is gone through, with its numbers kept in the words, and for a table. It is put at the buffer's beginning; the
// answer is where it ends.
pub fn check_list(scan: Scan, words: &mut [u32], table: &[u8], out: &mut [u8]) -> usize
    requires within { Within scan 0 }
    requires words_len { length words.old ≡ words_kept }
    ensures words_after { words.new ≡ words_at scan words.old }
    ensures appended { Appended out.old 0 (line_after (gone scan words.old) table.now) result out.new }
{
    let mut page = Page { out, at: 0 };
    match finish(scan, words) {
        Ok(count) => claimed_line(&mut page, check_claims(table, &words[..count.min(WORDS)])),
        Err(Unreadable(place)) => page.line_with_number(b"unreadable at ", place.0 as u64),
    }
    page.at
}

// Appends the line that says what was found of the claims.
pub fn claimed_line(page: &mut Page, claimed: Claimed)
    ensures { Wrote page.old (claimed_line claimed) page.new }
{
    match claimed {
        Claimed::Refused(refusal) => page.refused(refusal),
        Claimed::WrongCount => page.refusal_line(10, 0),
        Claimed::Pass => page.append(b"pass\n"),
        Claimed::Fails(place) => page.line_with_number(b"fails ", place.0 as u64),
    }
}
