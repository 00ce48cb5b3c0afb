// The step of one line that is known to be as long as a write's and to begin with its kind, or to have six characters: the step's function takes
// the numbers of the digits. What is not told so to be a step is left to the reader of lines. A session's line is `sessionline`'s.
// Inner functions of the loop over a journal's lines: what they require, it shows.
#![tactic(auto)]

ghost use Rattle.std.specs.Prelude.{◌≡◌, length, get_or};
ghost use Rattle.meaning.specs.Frames.{read_line};
ghost use Rattle.heads.specs.Heads.{short_of};
ghost use Rattle.steplines.specs.StepLines.{turn_of, Turned, Begins};
ghost use Rattle.looks.specs.Words.{SameWords};

use digits::values;
use heads::{Short, short_line};
use looks::SoundTable;
use meaning::Reply;
use numbers::{byte_of, word_of};

// What a turn makes of a line: its step is done, its step is refused, or it is not told to be a step.
#[derive(Clone, Copy, PartialEq, Eq)]
pub enum Turn {
    Done,
    Refused,
    Unsure,
}

impl From<Reply> for Turn {
    ghost from_gives = { λ r told. told ≡ turn_of r };

    fn from(reply: Reply) -> Turn {
        match reply {
            Ok(_) => Turn::Done,
            Err(_) => Turn::Refused,
        }
    }
}

// The step of a write's 24 characters.
pub fn write_line(s: &[u8], t: &mut SoundTable) -> Turn
    requires { Begins s.now 24 49 }
    ensures turned { Turned t.old.words.now (read_line 1 s.now) result t.new.words.now }
    ensures same { SameWords t.old t.new }
{
    let mut v = [0u8; 24];
    if values(s, &mut v[..]) != Some(0) {
        return Turn::Unsure;
    }
    let reply = writes::write(
        t,
        byte_of(&v[..], 2),
        word_of(&v[..], 4),
        word_of(&v[..], 12),
        byte_of(&v[..], 20),
    );
    Turn::from(reply)
}

// The six characters of a start, a purge or a delivery; none where they are no line.
fn short_at(s: &[u8]) -> Option<Short>
    requires { length s.now ≡ 6 }
    ensures { result ≡ short_of s.now }
{
    short_line(s[0], s[1], s[2], s[3], s[4], s[5])
}

// The step of a purge's six characters. Which node lags is asked by nobody here.
fn purge_line(s: &[u8], t: &mut SoundTable) -> Turn
    requires { (length s.now ≡ 6) × (get_or s.now 1 0 ≡ 51) }
    ensures turned { Turned t.old.words.now (read_line 1 s.now) result t.new.words.now }
    ensures same { SameWords t.old t.new }
{
    let Some(purge) = short_at(s) else {
        return Turn::Unsure;
    };
    match purges::purge_alone(t, purge.field) {
        Ok(()) => Turn::Done,
        Err(_) => Turn::Refused,
    }
}

// The step of a delivery's six characters.
fn deliver_line(s: &[u8], t: &mut SoundTable) -> Turn
    requires { (length s.now ≡ 6) × (get_or s.now 1 0 ≡ 53) }
    ensures turned { Turned t.old.words.now (read_line 1 s.now) result t.new.words.now }
    ensures same { SameWords t.old t.new }
{
    let Some(delivery) = short_at(s) else {
        return Turn::Unsure;
    };
    Turn::from(deliveries::deliver_alone(t, delivery.field))
}

// The step of six characters, a purge's or a delivery's: the kind's second character tells them apart before a digit is read, so that each is read
// as if it were the only one. A start is none.
pub fn short_step(s: &[u8], t: &mut SoundTable) -> Turn
    requires { length s.now ≡ 6 }
    ensures turned { Turned t.old.words.now (read_line 1 s.now) result t.new.words.now }
    ensures same { SameWords t.old t.new }
{
    match s[1] {
        b'3' => purge_line(s, t),
        b'5' => deliver_line(s, t),
        _ => Turn::Unsure,
    }
}
