// The line at a place of a journal: where it ends, and the part of the caller's bytes that it is.
#![tactic(auto)]

ghost use Rattle.std.specs.Prelude.{◌≡◌, ◌==◌, position};
ghost use Rattle.meaning.specs.Journals.{line_at};
ghost use Rattle.finder.specs.Found.{found_at};
ghost use Rattle.finder.specs.Parts.{Part};

// What stands at a place: a line, with the place of the LF that ends it; bytes that no LF ends; or nothing, at the end or beyond.
// Three answers of equal rank: an Option or a Result would tell two of them as one.
#[derive(Clone, Copy)]
pub enum Found {
    Line { end: usize },
    Unended,
    Over,
}

// The place of the first LF.
fn first_lf(s: &[u8]) -> Option<usize>
    ensures { result ≡ position (λ c. c == 10) s.now }
{
    s.iter().position(|c| *c == b'\n')
}

// "The next line runs from the position to the next LF"
pub fn find(s: &[u8], at: usize) -> Found
    ensures { result ≡ found_at s.now at }
{
    if s.len() <= at {
        return Found::Over;
    }
    match first_lf(&s[at..]) {
        Some(past) => Found::Line { end: at + past },
        None => Found::Unended,
    }
}

// "hands back each line as the part of the caller's journal between two LF bytes": empty, at its place, where none is found
pub fn line(s: &[u8], at: usize) -> &[u8]
    ensures { Part s.entry at (line_at s.now at) result }
{
    match find(s, at) {
        Found::Line { end } => &s[at..end],
        Found::Unended => &s[at..at],
        Found::Over => &s[s.len()..],
    }
}
