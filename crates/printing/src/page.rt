// A text in a lent buffer. What has no room is cut off.
ghost use Rattle.printing.specs.Appended.{Appended};
ghost use Rattle.printing.specs.Page.{Wrote};
ghost use Rattle.printing.specs.Text.{decimal_of, with_number, line_with_number};

// The buffer, and where its next byte goes.
#[derive(Drop)]
pub struct Page<'a> {
    pub out: &'a mut [u8],
    pub at: usize,
}

impl<'a> Page<'a> {
    // Appends the bytes.
    pub fn append(&mut self, bytes: &[u8])
        ensures { Wrote self.old bytes.now self.new }
    {
        let start = self.at.min(self.out.len());
        let count = bytes.len().min(self.out.len() - start);
        self.out[start..start + count].copy_from_slice(&bytes[..count]);
        self.at += count;
    }

    // Appends the number's decimal digits.
    pub fn append_number(&mut self, number: u64)
        ensures { Wrote self.old (decimal_of number) self.new }
    {
        let mut digits = [0u8; 20];
        let count = io::decimal(number, &mut digits);
        self.append(&digits[..count]);
    }

    // Appends a word and a number.
    pub fn append_with_number(&mut self, word: &[u8], number: u64)
        ensures { Wrote self.old (with_number word.now number) self.new }
    {
        self.append(word);
        self.append_number(number);
    }

    // Appends a line of a word and a number.
    pub fn line_with_number(&mut self, word: &[u8], number: u64)
        ensures { Wrote self.old (line_with_number word.now number) self.new }
    {
        self.append_with_number(word, number);
        self.append(b"\n");
    }
}

// Appends bytes to a buffer whose next place the caller keeps by itself, as an intake does its fill; answers where the next byte goes.
pub fn append(out: &mut [u8], at: usize, bytes: &[u8]) -> usize
    ensures { Appended out.old at bytes.now result out.new }
{
    let mut page = Page { out, at };
    page.append(bytes);
    page.at
}
