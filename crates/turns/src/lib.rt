// One line of a journal as one turn of the loop over its lines, where it can be told at once: the kind's two characters tell the length, an LF ends
// it there, and the kind's function takes its step. What is no step, or is not told so, is left to the reader of lines.
// Inner functions of the loop: what they require, it shows.
#![tactic(auto)]

ghost use Rattle.std.specs.Prelude.{◌≡◌, ◌≤◌, ◌<◌, length};
ghost use Rattle.steplines.specs.StepLines.{Turned};
ghost use Rattle.turns.specs.Turns.{some_due, ends_at, due_at, said_at};
ghost use Rattle.looks.specs.Words.{SameWords};

use looks::SoundTable;
use sessionline::session_line;
use steplines::{Turn, short_step, write_line};

// So many characters, where an LF ends them.
fn ends_at(s: &[u8], at: usize, due: usize) -> Option<usize>
    requires { (at ≤ length s.now) × (0 < due) }
    ensures { result ≡ some_due (ends_at s.now at due) }
{
    if s.len() - at <= due {
        return None;
    }
    if s[at + due] != b'\n' {
        return None;
    }
    Some(due)
}

// The digits of the line at a place, by its kind's two characters, where an LF ends it there; none where none does.
#[tactic(auto, using(crate::proofs::TurnLaws::due_is, crate::proofs::TurnLaws::due_write, crate::proofs::TurnLaws::due_session, crate::proofs::TurnLaws::due_purge, crate::proofs::TurnLaws::due_delivery))]
pub fn due_at(s: &[u8], at: usize) -> Option<usize>
    requires { at ≤ length s.now }
    ensures { result ≡ some_due (due_at s.now at) }
{
    if s.len() - at < 7 {
        return None;
    }
    if s[at] != b'0' {
        return None;
    }
    match s[at + 1] {
        b'1' => ends_at(s, at, 24),
        b'2' => ends_at(s, at, 26),
        b'3' => ends_at(s, at, 6),
        b'5' => ends_at(s, at, 6),
        _ => None,
    }
}

// One turn: the line at a place, told its digits. What is left to the reader of lines leaves the table as it was.
pub fn turn(s: &[u8], at: usize, due: usize, t: &mut SoundTable) -> Turn
    requires { (at ≤ length s.now) × (due ≡ due_at s.now at) }
    ensures turned { Turned t.old.words.now (said_at s.now at) result t.new.words.now }
    ensures same { SameWords t.old t.new }
{
    match due {
        24 => write_line(&s[at..at + 24], t),
        26 => session_line(&s[at..at + 26], t),
        6 => short_step(&s[at..at + 6], t),
        _ => Turn::Unsure,
    }
}
