// The journal reader on a slice and a place: the part of the journal that the line there is, and the place after it.
#![tactic(auto)]

ghost use Rattle.std.specs.Prelude.{◌≡◌, Ok, Some};
ghost use Rattle.meaning.specs.Journals.{position};
ghost use Rattle.finder.specs.Parts.{Part};
ghost use Rattle.lineparts.specs.Reached.{part_at, position_at};

use journal::next_at;
use meaning::NextLine;

// The place after a line.
fn after(found: NextLine) -> usize
    ensures { result ≡ position 0 (Ok (Some found)) }
{
    match found {
        NextLine::Begin { next, .. } | NextLine::Act { next, .. } => next,
    }
}

// "hands back each line ..; with a refusal the part is empty"
pub fn part_at(s: &[u8], at: usize, line: usize) -> &[u8]
    ensures { Part s.entry at (part_at s.now at line) result }
{
    match next_at(s, at, line) {
        Ok(Some(found)) => &s[at..after(found) - 1],
        Ok(None) => &s[s.len()..],
        Err(_) => &s[at..at],
    }
}

// The position afterwards: "A refused line .. leaves the position at that line's start."
pub fn position_at(s: &[u8], at: usize, line: usize) -> usize
    ensures { result ≡ position_at s.now at line }
{
    match next_at(s, at, line) {
        Ok(Some(found)) => after(found),
        Ok(None) | Err(_) => at,
    }
}
