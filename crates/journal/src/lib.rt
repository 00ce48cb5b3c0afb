// The journal reader on a slice and a place: what the line there says, in its turn. Its part and the place after it are `lineparts`'.
#![tactic(auto)]

ghost use Rattle.std.specs.Prelude.{◌≡◌};
ghost use Rattle.meaning.specs.Frames.{read_line};
ghost use Rattle.meaning.specs.Journals.{next_in, next_at, in_turn};

use finder::{Found, find};
use meaning::{Fault, Line, Next, NextLine, Refusal, Said};

// What a line says in its turn, with the place after it: refused where the first line is no start, or a later one is.
#[tactic(auto, unfolding(meaning::specs::Refusals::refusal_of))]
fn in_turn(first: bool, next: usize, said: Line) -> Next
    ensures { result ≡ in_turn first next said }
{
    match said? {
        Said::Begin { n } if first => Ok(Some(NextLine::Begin { n, next })),
        Said::Act { step } if !first => Ok(Some(NextLine::Act { step, next })),
        _ => Err(Refusal::StartWrong.into()),
    }
}

// What a line says in its turn, with the place after it. The one caller of `read_line`, which is then compiled into it.
pub fn said(line: &[u8], number: usize, first: bool, next: usize) -> Next
    ensures { result ≡ in_turn first next (read_line number line.now) }
{
    in_turn(first, next, reading::read_line(line, number))
}

// What the reader finds at a place, told the line number and whether the line there is the first. What lacks at bytes that no LF ends is the LF,
// after all that is left. Which line is the first is told as the definition `Journals.next_in` has it: among many lines on a table none is.
pub fn next_in(s: &[u8], at: usize, line: usize, first: bool) -> Next
    ensures { result ≡ next_in first s.now at line }
{
    match find(s, at) {
        Found::Over => Ok(None),
        Found::Unended => Err(Fault {
            refusal: Refusal::LineUnended,
            place: s.len() - at,
        }),
        Found::Line { end } => said(&s[at..end], line, first, end + 1),
    }
}

// In a journal "the line read at place 0 is the first, and no other is".
pub fn next_at(s: &[u8], at: usize, line: usize) -> Next
    ensures { result ≡ next_at s.now at line }
{
    next_in(s, at, line, at == 0)
}
