// The cases as the file stdin has them. A line's first byte says what it asks:
//   `=` and a frame: it is applied to the table, and nothing is said; a start makes the table fresh
//   `+`, a frame, a space and a name: it is applied, and what it replied is printed
//   `?` and bytes: they are given to the frame reader as a line
//   `>` and a name: the bytes from the next line up to a `.` are walked as a journal
// Every other line is a comment.
ghost use Rattle.std.specs.Prelude.{◌≤◌, ◌<◌, length};

use crate::{say, walk};
use meaning::{Reply, Report, Said};

// What stands before the first such byte and what stands after it, all and nothing where it is not there.
fn cut(s: &[u8], byte: u8) -> (&[u8], &[u8])
    ensures within { length result.1.now ≤ length s.now }
    ensures shorter { 0 < length s.now → length result.1.now < length s.now }
{
    match s.iter().position(|b| *b == byte) {
        Some(at) => (&s[..at], &s[at + 1..]),
        None => (s, &[]),
    }
}

// What a frame does to the table.
fn apply(t: &mut [u32], frame: &[u8]) -> Reply {
    match reading::read_line(frame, 2) {
        Ok(Said::Begin { n }) => {
            table::fresh(t, u32::from(n))?;
            Ok(Report::Written)
        }
        Ok(Said::Act { step }) => table::apply(t, step),
        Err(fault) => Err(fault.refusal),
    }
}

// A frame applied, and what it replied.
fn said(rt: &HostRuntime, t: &mut [u32], case: &[u8]) {
    let (frame, name) = cut(case, b' ');
    let before = say::digest(t);
    let r = apply(t, frame);
    say::reply(rt, t, name, r, before);
}

// One case that stands on a line.
fn line(rt: &HostRuntime, t: &mut [u32], case: &[u8]) {
    match case {
        [b'=', frame @ ..] => {
            let _ = apply(t, frame);
        }
        [b'+', rest @ ..] => said(rt, t, rest),
        [b'?', bytes @ ..] => say::frame(rt, bytes),
        _ => {}
    }
}

// Every case, in order. A journal's name stands on its line, and the journal from the next one on, up to a `.`: a turn takes one piece or two, so
// this is no `for`.
pub(crate) fn all(rt: &HostRuntime, t: &mut [u32], cases: &[u8]) {
    let mut rest = cases;
    while !rest.is_empty() {
        let (case, after) = cut(rest, b'\n');
        rest = after;
        match case {
            [b'>', name @ ..] => {
                let (journal, after) = cut(rest, b'.');
                walk::journal(rt, name, journal);
                rest = after;
            }
            _ => line(rt, t, case),
        }
    }
}
