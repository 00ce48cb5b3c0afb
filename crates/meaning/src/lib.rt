// The types of the product: what a step carries and what is answered. They are plain data, by value.
// What they mean stands in specs/, a file a subject; the functions here are conversions of these types, in `conversions`.
#![tactic(auto)]

mod conversions;

// A finding as a log keeps it, four words of a table: the node that wrote it, its timestamp, the block and the verdict.
#[derive(Clone, Copy)]
pub struct Record {
    pub origin: u32,
    pub timestamp: u32,
    pub block: u32,
    pub verdict: u32,
}

// What a step does: exactly one of four actions, each with its own fields, as wide as in the frame.
#[derive(Clone, Copy)]
pub enum Action {
    Write {
        node: u8,
        timestamp: u32,
        block: u32,
        verdict: u8,
    },
    Session {
        a: u8,
        b: u8,
        ca: u32,
        cb: u32,
        outcome: u8,
    },
    Purge {
        node: u8,
    },
    Deliver {
        node: u8,
    },
}

// A step carries its line number and its action.
#[derive(Clone, Copy)]
pub struct Step {
    pub line: usize,
    pub action: Action,
}

// Why an input is refused. The numbers are those that C and the printed text tell.
#[derive(Clone, Copy, Debug, PartialEq, Eq)]
pub enum Refusal {
    // A table that is not sound, a fresh one's count or length, a list of records to be counted.
    Unsound,
    // A session's outcome is above 3.
    SessionOutcome,
    // A node number is n or more.
    NodeAbsent,
    // A session names one node twice.
    NodeTwice,
    // A write's timestamp is not above the writer's own entry, or a session's reading is below its node's.
    TimeBehind,
    // A log would hold more than 64.
    LogFull,
    // A list is too short for what is due.
    ListShort,
    // A line's kind is none that is known.
    KindUnknown,
    // A character is no digit.
    DigitStray,
    // A line's bytes do not sum to zero.
    SumWrong,
    // Bytes are left, and no LF follows.
    LineUnended,
    // A start has a wrong n, stands in a later line, or is not the first.
    StartWrong,
    // A journal is longer than the program takes.
    JournalLong,
    // Too few bytes or words are lent.
    RoomShort,
    // A line has no digits, or an odd number of them.
    DigitsOdd,
    // A line is not as long as its kind's.
    LengthWrong,
    // A line's outcome is above 3.
    LineOutcome,
    // A delivery on a table of columns.
    OnColumns,
}

// What an accepted step reports: a session how many records it carried to each side, a purge how many it removed and the node that lags, a delivery how
// many it wrote into the list, a write nothing.
#[derive(Clone, Copy)]
pub enum Report {
    Written,
    Carried { a: u32, b: u32 },
    Purged { removed: u32, lags: u8 },
    Delivered { records: u32 },
}

// What a step answers: its report, or why it is refused. Steps.antt gives both.
pub type Reply = Result<Report, Refusal>;

// The smallest entry of a row, and the lowest place that has it: a node's number, where the row is one of a node's.
#[derive(Clone, Copy)]
pub struct Least {
    pub value: u32,
    pub at: usize,
}

// What is wrong with a line: why it is refused, and the place in the line, from 0, of the first character at fault.
#[derive(Clone, Copy)]
pub struct Fault {
    pub refusal: Refusal,
    pub place: usize,
}

// What a single line says, where it is accepted: it starts a table of n nodes, or it is a step.
#[derive(Clone, Copy)]
pub enum Said {
    Begin { n: u8 },
    Act { step: Step },
}

// What a single line says, or what is wrong with it.
pub type Line = Result<Said, Fault>;

// What writing a frame answers: its length, LF included, or why it is refused.
pub type Framed = Result<usize, Refusal>;

// What a line says that stands in its turn, a journal's first or a later one, and the place after it.
#[derive(Clone, Copy)]
pub enum NextLine {
    Begin { n: u8, next: usize },
    Act { step: Step, next: usize },
}

// What the journal reader finds at its position: a line, or none at the end, or what is wrong with the line there.
pub type Next = Result<Option<NextLine>, Fault>;

// A journal's replay that came to its end: n nodes, all step lines and those refused.
#[derive(Clone, Copy)]
pub struct Done {
    pub n: u32,
    pub steps: usize,
    pub refused: usize,
}

// Why a journal's replay ends before: a refused line, with what is wrong with it; or the table's or the journal's length, before a line is read, so
// that there is neither line nor place.
#[derive(Clone, Copy)]
pub enum Stopped {
    Bad { line: usize, fault: Fault },
    Unread { refusal: Refusal },
}

// How a journal's replay ends.
pub type Outcome = Result<Done, Stopped>;

// What one line on a table answers: the report of its step, or what is wrong: of a step that is refused the place is 0.
pub type Answer = Result<Report, Fault>;

// How far lines came on a table: the steps applied, how many of them were refused, where the reading stopped, and what is wrong with the line
// there, nothing at the end.
#[derive(Clone, Copy)]
pub struct Progress {
    pub steps: usize,
    pub refused: usize,
    pub stop: usize,
    pub fault: Option<Fault>,
}

// The class of a verdict byte.
#[derive(Clone, Copy)]
pub enum Class {
    NotRead,
    PageCache,
    PlatterGood,
    PlatterBad,
    Repaired,
    Reserved,
}

// The blocks that a verdict count found scrubbed and touched, and the difference.
#[derive(Clone, Copy)]
pub struct Tally {
    pub scrubbed: u32,
    pub touched: u32,
    pub gap: u32,
}

// What a verdict count answers.
pub type Count = Result<Tally, Refusal>;
