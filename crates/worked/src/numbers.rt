// Numbers of tasks, in a line.
ghost use Rattle.printing.specs.Page.{Wrote};
ghost use Rattle.worked.specs.Numbers.{numbers_text, numbers_line};

use model::Place;
use printing::{Page, word};

// Appends the first words of a slice, each behind a space.
fn append_numbers(page: &mut Page, words: &[u32], count: usize)
    ensures { Wrote page.old (numbers_text words.now count) page.new }
{
    for i in 0..count {
        page.append_with_number(b" ", u64::from(word(words, Place(i))));
    }
}

// Appends a line with a label and the first words of a slice.
pub fn append_line(page: &mut Page, label: &[u8], words: &[u32], count: usize)
    ensures { Wrote page.old (numbers_line label.now words.now count) page.new }
{
    page.append(label);
    append_numbers(page, words, count);
    page.append(b"\n");
}
