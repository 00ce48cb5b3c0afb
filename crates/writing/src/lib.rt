// Frames written: a step's frame and a start's, into lent bytes.
#![tactic(auto)]

ghost use Rattle.meaning.specs.Frames.{Wrote, Began};

use meaning::{Action, Framed, Refusal, Step};

pub mod write;

// A step's frame, LF included, into lent bytes of any length: refused for a session's outcome above 3, then where the bytes are too few;
// otherwise the frame from place 0 and its length. The line number is no part of it.
pub fn write_step(out: &mut [u8], step: Step) -> Framed
    ensures { Wrote out.old step.action result out.new }
{
    match step.action {
        Action::Write {
            node,
            timestamp,
            block,
            verdict,
        } => write::write(out, node, timestamp, block, verdict),
        Action::Session {
            a,
            b,
            ca,
            cb,
            outcome,
        } => write::session(out, a, b, ca, cb, outcome),
        Action::Purge { node } => write::purge(out, node),
        Action::Deliver { node } => write::deliver(out, node),
    }
}

// A start's frame, LF included, into lent bytes of any length: refused where n is not 2 to 16, as by the reader, then where the bytes are too few.
pub fn write_start(out: &mut [u8], n: u8) -> Framed
    ensures { Began out.old n result out.new }
{
    match n {
        2..=16 => write::start(out, n),
        _ => Err(Refusal::StartWrong),
    }
}
