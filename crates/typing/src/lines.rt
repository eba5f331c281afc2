// One line of a text, word by word (SPECIFICATION 14.2): what it is, how many of its numbers are there, and the first that is wrong in it.
ghost use Rattle.std.specs.Prelude.{◌+◌, ◌≡◌, ◌≤◌, ◌<◌};
ghost use Rattle.typing.specs.Lines.{needed_for, byte_below, limit_for, field_for, task_begun, section_begun, version_begun, begun_by, number_line, delays_behind, behind_of, went_on, line_after, is_taken, ended_line, is_whole};
ghost use Rattle.typing.specs.Steps.{Few, slot_for, size_for, place_slot};

use words::Amount;

// The words that mean something, by their spelling (crates/words/specs/Words.antt).
const TASK: u64 = 6247510891;

const SECTION: u64 = 104538694188887918;

const VERSION: u64 = 105383183526752110;

const JITTER: u64 = 398476134606194;

const DELAYS: u64 = 391861749512563;

// The most tasks and sections that any table has.
pub const MOST_TASKS: usize = 200;

pub const MOST_SECTIONS: usize = 64;

// The largest number of a field of one byte.
const LARGEST_BYTE: u32 = 255;

// The field of the latest delay, which is J.
const LATEST: usize = 5;

// Where the tasks' numbers begin in the slice of all numbers, and their lines in the other.
const TASKS_FROM: usize = 193;

const PLACES_FROM: usize = 65;

// What a line is. A task's line becomes one with jitter or with delays at that word.
#[derive(Clone, Copy, Debug, PartialEq, Eq)]
pub enum Kind {
    VersionLine,
    TaskLine,
    JitterLine,
    DelaysLine,
    SectionLine,
}

// Why a text can't be read.
#[derive(Clone, Copy, Debug, PartialEq, Eq)]
pub enum Fault {
    UnknownWord,
    TooFew,
    TooMany,
    NotWhole,
    TooLarge,
    TaskBehind,
    VersionBehind,
    NoDelays,
    ManyTasks,
    ManySections,
}

// A line so far: no word, so many numbers of a kind, or a fault, which stays.
#[derive(Clone, Copy, Debug, PartialEq, Eq)]
pub enum Line {
    Blank,
    Filling(Kind, usize),
    Wrong(Fault),
}

// What stands in the lines before: a version, and whether it is 1; a task with the word `delays`; and how many tasks and sections.
#[derive(Clone, Copy, Debug, PartialEq, Eq)]
pub struct Counts {
    pub stated: bool,
    pub old: bool,
    pub delayed: bool,
    pub tasks: usize,
    pub sections: usize,
}

impl Kind {
    // How many numbers a whole line has.
    pub(crate) fn needed(self) -> usize
        ensures { (result ≡ needed_for self) × (result ≤ 6) }
    {
        match self {
            Kind::VersionLine => 1,
            Kind::TaskLine => 4,
            Kind::JitterLine => 5,
            Kind::DelaysLine => 6,
            Kind::SectionLine => 3,
        }
    }

    // The largest that the number at a place of a line may be: what its field holds.
    fn limit(self, at: usize) -> u32
        ensures { result ≡ limit_for self at }
    {
        match self {
            Kind::VersionLine => LARGEST_BYTE,
            Kind::TaskLine | Kind::JitterLine | Kind::DelaysLine => byte_below(1, at),
            Kind::SectionLine => byte_below(2, at),
        }
    }

    // Which of six fields the number at this place of the line is for: the last one is the latest delay, which is J.
    pub(crate) fn field(self, at: usize) -> usize
        ensures { result ≡ field_for self at }
    {
        match self {
            Kind::JitterLine => LATEST,
            _ => at,
        }
    }

    // Is it a number that the field at this place of the line holds?
    #[tactic(auto, using(std::proofs::lemmas::Bool::Decides::nat_tests), unfolding(crate::specs::Lines::is_taken))]
    pub(crate) fn is_taken(self, count: usize, amount: u64) -> bool
        ensures { result ≡ is_taken self count amount }
    {
        count < self.needed() && amount <= u64::from(self.limit(count))
    }

    // Are all of its numbers there?
    #[tactic(auto, using(std::proofs::lemmas::Bool::Decides::nat_tests), unfolding(crate::specs::Lines::is_whole))]
    pub(crate) fn is_whole(self, count: usize) -> bool
        ensures { result ≡ is_whole self count }
    {
        self.needed() <= count
    }

    // Where the numbers of the next line of this kind begin.
    pub(crate) fn slot(self, counts: Counts) -> usize
        requires { Few counts }
        ensures { (result ≡ slot_for self counts) × (result + 6 < 18446744073709551616) }
    {
        match self {
            Kind::VersionLine => 0,
            Kind::TaskLine | Kind::JitterLine | Kind::DelaysLine => TASKS_FROM + 6 * counts.tasks,
            Kind::SectionLine => 1 + 3 * counts.sections,
        }
    }

    // How many of the fields they are.
    pub(crate) fn size(self) -> usize
        ensures { (result ≡ size_for self) × (result ≤ 6) }
    {
        match self {
            Kind::VersionLine => 1,
            Kind::TaskLine | Kind::JitterLine | Kind::DelaysLine => 6,
            Kind::SectionLine => 3,
        }
    }

    // Where the line's number goes.
    pub(crate) fn place_slot(self, counts: Counts) -> usize
        requires { Few counts }
        ensures { result ≡ place_slot self counts }
    {
        match self {
            Kind::VersionLine => 0,
            Kind::TaskLine | Kind::JitterLine | Kind::DelaysLine => PLACES_FROM + counts.tasks,
            Kind::SectionLine => 1 + counts.sections,
        }
    }
}

// The first numbers of a line are for fields of one byte.
#[tactic(auto, using(std::proofs::lemmas::Bool::Decides::nat_tests))]
fn byte_below(first: usize, at: usize) -> u32
    ensures { result ≡ byte_below first at }
{
    if at < first { LARGEST_BYTE } else { u32::MAX }
}

// The line behind one word more.
#[tactic(auto, using(std::proofs::lemmas::Bool::Decides::nat_tests), unfolding(crate::specs::Lines::line_after))]
pub fn after_word(counts: Counts, line: Line, spelling: u64, amount: u64) -> Line
    ensures { result ≡ line_after counts line spelling amount }
{
    match line {
        Line::Blank => begin(counts, spelling),
        Line::Filling(kind, count) => go_on(counts.old, kind, count, spelling, amount),
        Line::Wrong(_) => line,
    }
}

// The first word says what the line is.
#[tactic(auto, using(std::proofs::lemmas::Bool::Decides::nat_tests), unfolding(crate::specs::Lines::begun_by, words::specs::Words::spelled_from, words::specs::Words::spelled_after))]
fn begin(counts: Counts, spelling: u64) -> Line
    ensures { result ≡ begun_by counts spelling }
{
    match spelling {
        TASK => begin_task(counts),
        SECTION => begin_section(counts),
        VERSION => begin_version(counts),
        _ => Line::Wrong(Fault::UnknownWord),
    }
}

#[tactic(auto, using(std::proofs::lemmas::Bool::Decides::nat_tests), unfolding(crate::specs::Lines::task_begun))]
fn begin_task(counts: Counts) -> Line
    ensures { result ≡ task_begun counts }
{
    if 0 < counts.sections {
        return Line::Wrong(Fault::TaskBehind);
    }
    if MOST_TASKS <= counts.tasks {
        return Line::Wrong(Fault::ManyTasks);
    }
    Line::Filling(Kind::TaskLine, 0)
}

#[tactic(auto, using(std::proofs::lemmas::Bool::Decides::nat_tests), unfolding(crate::specs::Lines::section_begun))]
fn begin_section(counts: Counts) -> Line
    ensures { result ≡ section_begun counts }
{
    if MOST_SECTIONS <= counts.sections {
        return Line::Wrong(Fault::ManySections);
    }
    Line::Filling(Kind::SectionLine, 0)
}

#[tactic(auto, using(std::proofs::lemmas::Bool::Decides::nat_tests), unfolding(crate::specs::Lines::version_begun))]
fn begin_version(counts: Counts) -> Line
    ensures { result ≡ version_begun counts }
{
    if counts.stated || 0 < counts.tasks || 0 < counts.sections {
        return Line::Wrong(Fault::VersionBehind);
    }
    Line::Filling(Kind::VersionLine, 0)
}

// A number, as long as numbers are missing; behind them a task may have one word more.
#[tactic(auto, using(std::proofs::lemmas::Bool::Decides::nat_tests), unfolding(crate::specs::Lines::went_on, words::specs::Steps::amount_for, words::specs::Steps::whole_for))]
fn go_on(old: bool, kind: Kind, count: usize, spelling: u64, amount: u64) -> Line
    ensures { result ≡ went_on old kind count spelling amount }
{
    if count < kind.needed() {
        return take_number(kind, count, amount);
    }
    match Amount::from(amount) {
        Amount::NotWhole => take_behind(old, kind, spelling),
        _ => Line::Wrong(Fault::TooMany),
    }
}

#[tactic(auto, using(std::proofs::lemmas::Bool::Decides::nat_tests, crate::proofs::LineLaws::limit_small), unfolding(crate::specs::Lines::number_line, words::specs::Steps::amount_for, words::specs::Steps::whole_for))]
fn take_number(kind: Kind, count: usize, amount: u64) -> Line
    requires { count < needed_for kind }
    ensures { result ≡ number_line kind count amount }
{
    match Amount::from(amount) {
        Amount::Whole(number) if number <= kind.limit(count) => Line::Filling(kind, count + 1),
        Amount::NotWhole => Line::Wrong(Fault::NotWhole),
        _ => Line::Wrong(Fault::TooLarge),
    }
}

// What a word that is no number says behind the last number of a line.
fn take_behind(old: bool, kind: Kind, spelling: u64) -> Line
    ensures { result ≡ behind_of old kind spelling }
{
    match kind {
        Kind::TaskLine => take_delays(old, spelling),
        _ => Line::Wrong(Fault::UnknownWord),
    }
}

// Version 1 has no place for an earliest delay (SPECIFICATION 2.2).
#[tactic(auto, using(std::proofs::lemmas::Bool::Decides::nat_tests), unfolding(crate::specs::Lines::delays_behind, words::specs::Words::spelled_from, words::specs::Words::spelled_after))]
fn take_delays(old: bool, spelling: u64) -> Line
    ensures { result ≡ delays_behind old spelling }
{
    match spelling {
        JITTER => Line::Filling(Kind::JitterLine, 4),
        DELAYS if old => Line::Wrong(Fault::NoDelays),
        DELAYS => Line::Filling(Kind::DelaysLine, 4),
        _ => Line::Wrong(Fault::UnknownWord),
    }
}

// The line at its end, before the next one begins: a fault stays, and so does that numbers are missing.
#[tactic(auto, using(std::proofs::lemmas::Bool::Decides::nat_tests), unfolding(crate::specs::Lines::ended_line, crate::specs::Lines::whole_line))]
pub fn at_end(line: Line) -> Line
    ensures { result ≡ ended_line line }
{
    match line {
        Line::Filling(kind, count) if !kind.is_whole(count) => Line::Wrong(Fault::TooFew),
        Line::Wrong(_) => line,
        _ => Line::Blank,
    }
}
