// "The journal reader holds the lent journal and its position": the struct, whose methods are thin over the functions of `journal` and `lineparts` on
// slice and place. What stands last is for a caller that keeps the place and has no reader.
#![tactic(auto)]

ghost use Rattle.std.specs.Prelude.{◌≡◌};
ghost use Rattle.meaning.specs.Journals.{next_at};
ghost use Rattle.finder.specs.Parts.{Part};
ghost use Rattle.lineparts.specs.Reached.{part_at, position_at};
ghost use Rattle.reader.specs.Standing.{Stands};

use meaning::Next;

// The lent journal and its position.
#[derive(Clone, Copy)]
pub struct Reader<'a> {
    pub journal: &'a [u8],
    pub at: usize,
}

impl<'a> Reader<'a> {
    // A reader at a place of a journal: 0 is its start.
    pub fn new(journal: &'a [u8], at: usize) -> Reader<'a>
        ensures { Stands journal.entry at result }
    {
        Reader { journal, at }
    }

    // What the reader finds at its position, told the line number.
    pub fn next(self, line: usize) -> Next
        ensures { result ≡ next_at self.entry.journal.now self.entry.at line }
    {
        journal::next_at(self.journal, self.at, line)
    }

    // That line's part of the caller's journal, empty with a refusal and at the end.
    pub fn part(self, line: usize) -> &'a [u8]
        ensures { Part self.entry.journal self.entry.at (part_at self.entry.journal.now self.entry.at line) result }
    {
        lineparts::part_at(self.journal, self.at, line)
    }

    // The reader after that line, or where it was with a refusal and at the end.
    pub fn moved(self, line: usize) -> Reader<'a>
        ensures { Stands self.entry.journal (position_at self.entry.journal.now self.entry.at line) result }
    {
        let at = lineparts::position_at(self.journal, self.at, line);
        Reader { at, ..self }
    }
}

// What a reader at a place finds.
pub fn next_from(s: &[u8], at: usize, line: usize) -> Next
    ensures { result ≡ next_at s.now at line }
{
    Reader::new(s, at).next(line)
}

// The part that a reader at a place hands back.
pub fn part_from(s: &[u8], at: usize, line: usize) -> &[u8]
    ensures { Part s.entry at (part_at s.now at line) result }
{
    Reader::new(s, at).part(line)
}

// The position of a reader at a place after that line.
pub fn place_from(s: &[u8], at: usize, line: usize) -> usize
    ensures { result ≡ position_at s.now at line }
{
    Reader::new(s, at).moved(line).at
}
