// The step of one line that is known to be as long as a session's and to begin with its kind, as `steplines` has it of a write and a purge.
// Inner function of the loop over a journal's lines: what it requires, the loop shows.
#![tactic(auto)]

ghost use Rattle.meaning.specs.Frames.{read_line};
ghost use Rattle.steplines.specs.StepLines.{Turned, Begins};
ghost use Rattle.looks.specs.Words.{SameWords};

use digits::values;
use looks::SoundTable;
use numbers::{byte_of, word_of};
use steplines::Turn;

// The step of a session's 26 characters. The sum is taken over the last 24, which fill whole vectors, and lacks the kind's 2.
pub fn session_line(s: &[u8], t: &mut SoundTable) -> Turn
    requires { Begins s.now 26 50 }
    ensures turned { Turned t.old.words.now (read_line 1 s.now) result t.new.words.now }
    ensures same { SameWords t.old t.new }
{
    let mut v = [0u8; 24];
    if values(&s[2..26], &mut v[..]) != Some(254) {
        return Turn::Unsure;
    }
    let outcome = byte_of(&v[..], 20);
    if 3 < outcome {
        return Turn::Unsure;
    }
    let reply = sessions::session(
        t,
        byte_of(&v[..], 0),
        byte_of(&v[..], 2),
        word_of(&v[..], 4),
        word_of(&v[..], 12),
        outcome,
    );
    Turn::from(reply)
}
