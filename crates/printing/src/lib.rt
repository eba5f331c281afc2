// The text for a table and its verdict (SPECIFICATION 10; document 01); the tasks' lines in it are those of both analyses (document 02,
// L8). It is built in a lent buffer, so that a program writes it in one call.
#![tactic(auto)]

ghost use Rattle.std.specs.Prelude.{◌≡◌, ◌<◌, get_or};
ghost use Rattle.tables.specs.Layout.{task_count};
ghost use Rattle.printing.specs.Appended.{Appended};
ghost use Rattle.printing.specs.Page.{Wrote};
ghost use Rattle.printing.specs.Answered.{answer_text};
ghost use Rattle.printing.specs.Text.{text_of, judged_text, verdict_line, refusal_line, refused_line, tasks_text, task_line, response_text, deadline_shown};

use model::{OPEN, Place, Ticks};
use response::{Start, Verdict};
use tables::{DEADLINE_AT, HEAD_SIZE, Refusal, TASK_COUNT_AT, VERSION_AT};

mod page;

pub use page::{Page, append};

// Bytes enough for the text of any table, and for the longest no more than enough: `longest` of specs/Longest.antt.
pub const LONGEST: usize = 10512;

// Analyses the table from either start, and puts the text of what the analysis says at the buffer's beginning; answers where it ends.
pub fn answer_text(start: Start, table: &[u8], out: &mut [u8]) -> usize
    ensures { Appended out.old 0 (answer_text start table.now) result out.new }
{
    let mut answers = [0u32; 200];
    let mut rounds = [0u32; 200];
    let verdict = response::analyse_from(start, table, &mut answers, &mut rounds);
    let mut page = Page { out, at: 0 };
    page.text(table, verdict, &answers, &rounds);
    page.at
}

impl<'a> Page<'a> {
    // Appends the text for a table, its verdict and the words of both slices.
    pub fn text(&mut self, table: &[u8], verdict: Verdict, answers: &[u32], rounds: &[u32])
        ensures { Wrote self.old (text_of table.now verdict answers.now rounds.now) self.new }
    {
        match verdict {
            Verdict::Refused(_) => self.verdict_line(verdict),
            Verdict::Schedulable | Verdict::Late(_) => self.judged(table, verdict, answers, rounds),
        }
    }

    // The tasks' lines, with their rounds, and the verdict's.
    fn judged(&mut self, table: &[u8], verdict: Verdict, answers: &[u32], rounds: &[u32])
        ensures { Wrote self.old (judged_text table.now verdict answers.now rounds.now) self.new }
    {
        self.tasks(table, b" rounds ", answers, rounds);
        self.verdict_line(verdict);
    }

    // The line that says the verdict.
    pub fn verdict_line(&mut self, verdict: Verdict)
        ensures { Wrote self.old (verdict_line verdict) self.new }
    {
        match verdict {
            Verdict::Refused(refusal) => self.refused(refusal),
            Verdict::Schedulable => self.append(b"schedulable\n"),
            Verdict::Late(first) => self.line_with_number(b"late ", first.0 as u64),
        }
    }

    // A refusal's one line.
    pub fn refused(&mut self, refusal: Refusal)
        ensures { Wrote self.old (refused_line refusal) self.new }
    {
        self.refusal_line(tables::number(refusal), tables::place(refusal));
    }

    // The same by the refusal's number and place.
    pub fn refusal_line(&mut self, number: u32, place: usize)
        ensures { Wrote self.old (refusal_line number place) self.new }
    {
        self.append_with_number(b"refused ", u64::from(number));
        self.line_with_number(b" at ", place as u64);
    }

    // The number of tasks, and a line for each, with the label in front of its last number.
    pub fn tasks(&mut self, table: &[u8], label: &[u8], answers: &[u32], counts: &[u32])
        ensures { Wrote self.old (tasks_text label.now table.now answers.now counts.now) self.new }
    {
        let n = task_count(table);
        self.line_with_number(b"tasks ", n as u64);
        for i in 0..n {
            let place = Place(i);
            let answer = Ticks(word(answers, place));
            let due = deadline(table, place);
            self.task(label, place, answer, due, word(counts, place));
        }
    }

    // One task's line.
    fn task(&mut self, label: &[u8], place: Place, answer: Ticks, deadline: Ticks, count: u32)
        ensures { Wrote self.old (task_line label.now place.0 answer.0 deadline.0 count) self.new }
    {
        self.append_number(place.0 as u64);
        self.response(answer);
        self.append_with_number(b" deadline ", u64::from(deadline.0));
        self.line_with_number(label, u64::from(count));
    }

    // An answer of 0 is late, and the open word is open.
    fn response(&mut self, answer: Ticks)
        ensures { Wrote self.old (response_text answer.0) self.new }
    {
        match answer.0 {
            0 => self.append(b" late"),
            OPEN => self.append(b" open"),
            ticks => self.append_with_number(b" response ", u64::from(ticks)),
        }
    }
}

// The number of tasks that the table states; 0 where it ends before that byte.
pub fn task_count(table: &[u8]) -> usize
    ensures { (result ≡ task_count table.now) × (result < 256) }
{
    match table.get(TASK_COUNT_AT) {
        Some(byte) => usize::from(*byte),
        None => 0,
    }
}

// The deadline of the record at a place; 0 where the table ends before it does, as no accepted table does.
#[tactic(auto, using(crate::proofs::TextLaws::deadline_near))]
fn deadline(table: &[u8], place: Place) -> Ticks
    requires { place.0 < 256 }
    ensures { result.0 ≡ deadline_shown table.now place.0 }
{
    let Some(version) = table.get(VERSION_AT) else {
        return Ticks(0);
    };
    let layout = tables::layout::of(*version);
    let at = HEAD_SIZE + layout.size * place.0 + DEADLINE_AT;
    if table.len() < at + 4 {
        return Ticks(0);
    }
    Ticks(tables::fields::word(table, at))
}

// The word at a place; 0 past the end, which no accepted table reaches.
pub fn word(words: &[u32], place: Place) -> u32
    ensures { result ≡ get_or words.now place.0 0 }
{
    words.get(place.0).copied().unwrap_or(0)
}
