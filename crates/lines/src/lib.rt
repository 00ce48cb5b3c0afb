// What lines do to a table that is there already, up to the first refused one.
// The entry point, `apply_lines`, takes any words and any bytes at all.
#![tactic(auto)]

ghost use Rattle.std.specs.Prelude.{◌≡◌, ◌+◌, ◌≤◌, length};
ghost use Rattle.looks.specs.Words.{SameWords};
ghost use Rattle.lines.specs.Applying.{halted_at, one_of, Stepped, Takes, AppliedFrom, AppliedLines};

use looks::SoundTable;
use meaning::{Fault, NextLine, Progress, Refusal, Step};
use steplines::Turn;
use turns::{due_at, turn};

// One step on a sound table: whether it was refused.
fn step(t: &mut SoundTable, x: Step) -> Turn
    ensures stepped { Stepped t.old.words.now x.action result t.new.words.now }
    ensures same { SameWords t.old t.new }
{
    Turn::from(table::apply_sound(t, x.action))
}

// 1 for a refused step
fn count(told: Turn) -> usize
    ensures { result ≡ one_of told }
{
    match told {
        Turn::Refused => 1,
        _ => 0,
    }
}

// How far the lines were read.
fn halted(steps: usize, refused: usize, stop: usize, fault: Option<Fault>) -> Progress
    ensures { result ≡ halted_at steps refused stop fault }
{
    Progress {
        steps,
        refused,
        stop,
        fault,
    }
}
// A line that is taken in one turn: whether its step was refused, and the place after it.
#[derive(Clone, Copy)]
struct Taken {
    told: Turn,
    next: usize,
}

// The line at a place, where it is told at once to be a step; none where it is left to the reader of lines, the table then as it was.
fn take_turn(s: &[u8], at: usize, t: &mut SoundTable) -> Option<Taken>
    requires { at ≤ length s.now }
    ensures taken { Takes s.now at t.old.words.now result t.new.words.now }
    ensures same { SameWords t.old t.new }
{
    let due = due_at(s, at)?;
    let told = turn(s, at, due, t);
    if told == Turn::Unsure {
        return None;
    }
    let next = at + due + 1;
    Some(Taken { told, next })
}

// The steps from a place on, up to the end or the first refused line, on a sound table; `first` is the number of the line there. A line that is told
// at once to be a step is taken in one turn; the reader of lines answers for any other.
pub fn apply_from(s: &[u8], from: usize, first: usize, t: &mut SoundTable) -> Progress
    requires { (first ≤ from + 1) × (from ≤ length s.now) }
    ensures applied { AppliedFrom s.now from first t.old.words.now result t.new.words.now }
    ensures same { SameWords t.old t.new }
{
    let mut steps = 0;
    let mut refused = 0;
    let mut stop = from;
    loop {
        if let Some(x) = take_turn(s, stop, t) {
            steps += 1;
            refused += count(x.told);
            stop = x.next;
            continue;
        }
        match journal::next_in(s, stop, first + steps, false) {
            Ok(Some(NextLine::Begin { .. })) => {
                return halted(steps, refused, stop, Some(Refusal::StartWrong.into()));
            }
            Ok(Some(NextLine::Act { step: x, next })) => {
                steps += 1;
                refused += count(step(t, x));
                stop = next;
            }
            Ok(None) => return halted(steps, refused, stop, None),
            Err(fault) => return halted(steps, refused, stop, Some(fault)),
        }
    }
}

// Many lines on any words, after one look over them: a table that is not sound is refused before any line is read.
pub fn apply_lines(t: &mut [u32], s: &[u8]) -> Progress
    ensures { AppliedLines t.old s.now result t.new }
{
    if !soundness::is_sound(t) {
        return halted(0, 0, 0, Some(Refusal::Unsound.into()));
    }
    let mut sound = SoundTable { words: t };
    apply_from(s, 0, 1, &mut sound)
}
