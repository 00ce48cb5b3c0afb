// What an accepted line says. Inner functions: what they require, `reading` shows.
#![tactic(auto)]

ghost use Rattle.std.specs.Prelude.{◌≡◌, true, length};
ghost use Rattle.meaning.specs.declared.Said.TheVariants.{Act};
ghost use Rattle.meaning.specs.Frames.{all_digits};
ghost use Rattle.heads.specs.Heads.{Whole, write_at, session_at, purge_at, deliver_at};
ghost use Rattle.heads.specs.Kinds.{kind_number};
ghost use Rattle.actions.specs.Actions.{said_of};

use heads::kinds::Kind;
use meaning::{Action, Said, Step};
use numbers::{byte, word};

// The write that a line of 24 digits holds.
fn write_at(s: &[u8]) -> Action
    requires { (all_digits s.now ≡ true) × (length s.now ≡ 24) }
    ensures { result ≡ write_at s.now }
{
    Action::Write {
        node: byte(s, 1),
        timestamp: word(s, 2),
        block: word(s, 6),
        verdict: byte(s, 10),
    }
}

// The session that a line of 26 digits holds.
fn session_at(s: &[u8]) -> Action
    requires { (all_digits s.now ≡ true) × (length s.now ≡ 26) }
    ensures { result ≡ session_at s.now }
{
    Action::Session {
        a: byte(s, 1),
        b: byte(s, 2),
        ca: word(s, 3),
        cb: word(s, 7),
        outcome: byte(s, 11),
    }
}

// The purge that a line of 6 digits holds.
fn purge_at(s: &[u8]) -> Action
    requires { (all_digits s.now ≡ true) × (length s.now ≡ 6) }
    ensures { result ≡ purge_at s.now }
{
    Action::Purge { node: byte(s, 1) }
}

// The delivery that a line of 6 digits holds.
fn deliver_at(s: &[u8]) -> Action
    requires { (all_digits s.now ≡ true) × (length s.now ≡ 6) }
    ensures { result ≡ deliver_at s.now }
{
    Action::Deliver { node: byte(s, 1) }
}

// The step of an action.
fn act(line: usize, action: Action) -> Said
    ensures { result ≡ Act (record { line = line; action = action }) }
{
    Said::Act {
        step: Step { line, action },
    }
}

// What a line says, by its kind: a start, or the step with the line number that is told.
#[tactic(auto, using(crate::proofs::ActionLaws::lines))]
pub fn said(s: &[u8], kind: Kind, line: usize) -> Said
    requires { Whole s.now (kind_number kind) }
    ensures { result ≡ said_of line s.now }
{
    match kind {
        Kind::Start => Said::Begin { n: byte(s, 1) },
        Kind::Write => act(line, write_at(s)),
        Kind::Session => act(line, session_at(s)),
        Kind::Purge => act(line, purge_at(s)),
        Kind::Deliver => act(line, deliver_at(s)),
    }
}
