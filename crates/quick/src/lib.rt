// The quick way: whether a line of one of the kinds' lengths is accepted, sure in both directions. A line of 24 characters can only be a write, one
// of 26 a session, one of six a start, a purge or a delivery. Inner functions: what they require, `contents`, `reading` and `words` show.
#![tactic(auto)]

ghost use Rattle.std.specs.Prelude.{◌≡◌, ◌<◌, length};
ghost use Rattle.heads.specs.Heads.{is_outcome, short_of, accepted};

use digits::total;
use heads::{Short, short_line};

// Whether 24 characters are a write's.
pub fn is_write(s: &[u8]) -> bool
    requires { length s.now ≡ 24 }
    ensures { result ≡ accepted s.now }
{
    if s[0] != b'0' {
        return false;
    }
    if s[1] != b'1' {
        return false;
    }
    total(s) == Some(0)
}

// Whether two characters are an outcome's, 0 to 3.
#[tactic(auto, unfolding(heads::specs::Heads::is_outcome))]
fn is_outcome(high: u8, low: u8) -> bool
    ensures { result ≡ is_outcome high low }
{
    if high != b'0' {
        return false;
    }
    match low {
        b'0'..=b'3' => true,
        _ => false,
    }
}

// Whether 26 characters are a session's. The sum is taken over the last 24, which fill whole vectors, and lacks the kind's 2.
pub fn is_session(s: &[u8]) -> bool
    requires { length s.now ≡ 26 }
    ensures { result ≡ accepted s.now }
{
    if s[0] != b'0' {
        return false;
    }
    if s[1] != b'2' {
        return false;
    }
    if !is_outcome(s[22], s[23]) {
        return false;
    }
    total(&s[2..26]) == Some(254)
}

// What a line shorter than a write's holds, as a line of six characters; no other is accepted. It is compiled into its callers, so that no Option goes
// through memory.
#[inline(always)]
pub fn short_held(s: &[u8]) -> Option<Short>
    requires { length s.now < 24 }
    ensures { result ≡ short_of s.now }
{
    if s.len() != 6 {
        return None;
    }
    short_line(s[0], s[1], s[2], s[3], s[4], s[5])
}

// Whether any line is accepted. The short ones come first, and an arm for each other length, which the pass over the line then knows.
pub fn sure(s: &[u8]) -> bool
    ensures { result ≡ accepted s.now }
{
    if s.len() < 24 {
        return short_held(s).is_some();
    }
    match s.len() {
        24 => is_write(&s[0..24]),
        26 => is_session(&s[0..26]),
        _ => false,
    }
}
