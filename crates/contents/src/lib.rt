// One field of a line, by its place among its kind's fields. Inner functions: what they require, `reading` shows.
#![tactic(auto)]

ghost use Rattle.std.specs.Prelude.{◌≡◌, true, ◌+◌, ◌<◌, length, get_or};
ghost use Rattle.meaning.specs.Frames.{all_digits, fields_of, line_values, read_line};
ghost use Rattle.heads.specs.Heads.{write_at, session_at};

use numbers::{byte, word};

// A field of a write by its place among the fields, 0 beyond them.
fn of_write(s: &[u8], index: u32) -> u32
    requires { (all_digits s.now ≡ true) × (length s.now ≡ 24) }
    ensures { result ≡ get_or (fields_of (write_at s.now)) index 0 }
{
    match index {
        0 => byte(s, 1) as u32,
        1 => word(s, 2),
        2 => word(s, 6),
        3 => byte(s, 10) as u32,
        _ => 0,
    }
}

// A field of a session by its place among the fields, 0 beyond them.
fn of_session(s: &[u8], index: u32) -> u32
    requires { (all_digits s.now ≡ true) × (length s.now ≡ 26) }
    ensures { result ≡ get_or (fields_of (session_at s.now)) index 0 }
{
    match index {
        0 => byte(s, 1) as u32,
        1 => byte(s, 2) as u32,
        2 => word(s, 3),
        3 => word(s, 7),
        4 => byte(s, 11) as u32,
        _ => 0,
    }
}

// The field at a place of a line of 24 characters, 0 where it is refused.
pub fn write_field(s: &[u8], index: u32) -> u32
    requires { length s.now ≡ 24 }
    ensures { result ≡ get_or (line_values (read_line 0 s.now)) (3 + index) 0 }
{
    if !quick::is_write(s) {
        return 0;
    }
    of_write(s, index)
}

// The field at a place of a line of 26 characters, 0 where it is refused.
pub fn session_field(s: &[u8], index: u32) -> u32
    requires { length s.now ≡ 26 }
    ensures { result ≡ get_or (line_values (read_line 0 s.now)) (3 + index) 0 }
{
    if !quick::is_session(s) {
        return 0;
    }
    of_session(s, index)
}

// The field at a place of a line shorter than a write's, 0 where it is refused.
#[tactic(auto, using(crate::proofs::ContentLaws::field_held, crate::proofs::ContentLaws::field_past, crate::proofs::ContentLaws::field_none))]
pub fn short_field(s: &[u8], index: u32) -> u32
    requires { length s.now < 24 }
    ensures { result ≡ get_or (line_values (read_line 0 s.now)) (3 + index) 0 }
{
    match quick::short_held(s) {
        Some(held) if index == 0 => held.field as u32,
        _ => 0,
    }
}
