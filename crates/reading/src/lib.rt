// Frames read: what a single line says, whatever its bytes.
#![tactic(auto)]

ghost use Rattle.std.specs.Prelude.{◌≡◌, ◌+◌, ◌<◌, length, get_or};
ghost use Rattle.meaning.specs.Frames.{read_line, line_fault, line_values};

use meaning::{Fault, Line};

// What is wrong with a single line (without its LF), for any bytes at all: the first refusal that applies, with its place; none where it is accepted.
// The other way is lent a part of the slice, so that the slice itself stays in registers.
pub fn check(s: &[u8]) -> Option<Fault>
    ensures { result ≡ line_fault s.now }
{
    if quick::sure(s) {
        return None;
    }
    let n = s.len();
    faults::refusal(&s[0..n])
}

// The kind of a line shorter than a write's.
#[tactic(auto, using(crate::proofs::LineLaws::kind_held, crate::proofs::LineLaws::kind_none))]
fn short_kind(s: &[u8]) -> u32
    requires { length s.now < 24 }
    ensures { result ≡ get_or (line_values (read_line 0 s.now)) 2 0 }
{
    match quick::short_held(s) {
        Some(held) => held.kind as u32,
        None => 0,
    }
}

// The kind of a line, 0 for one that is refused. A start's is 0 too: the check tells them apart.
pub fn kind(s: &[u8]) -> u32
    ensures { result ≡ get_or (line_values (read_line 0 s.now)) 2 0 }
{
    if s.len() < 24 {
        return short_kind(s);
    }
    match s.len() {
        24 => if quick::is_write(&s[0..24]) { 1 } else { 0 },
        26 => if quick::is_session(&s[0..26]) { 2 } else { 0 },
        _ => 0,
    }
}

// The field of a line at this place among its kind's fields, from 0; 0 for a refused line and for a field that the kind has not.
pub fn field(s: &[u8], index: u32) -> u32
    ensures { result ≡ get_or (line_values (read_line 0 s.now)) (3 + index) 0 }
{
    if s.len() < 24 {
        return contents::short_field(s, index);
    }
    match s.len() {
        24 => contents::write_field(&s[0..24], index),
        26 => contents::session_field(&s[0..26], index),
        _ => 0,
    }
}

// What a single line (without its LF) says, for any bytes at all: the start, the step with the line number that it is told, or what is wrong with it.
// It is read where the quick way did not tell a line at once, so it is settled first; `quick::sure` has one caller, `check`, and is compiled into it.
#[tactic(auto, using(crate::proofs::LineLaws::line_said, crate::proofs::LineLaws::line_wrong, heads::proofs::HeadLaws::whole_part))]
pub fn read_line(s: &[u8], line: usize) -> Line
    ensures { result ≡ read_line line s.now }
{
    let n = s.len();
    let kind = faults::settle(&s[0..n])?;
    Ok(actions::said(s, kind, line))
}
