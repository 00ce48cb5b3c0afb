// A session's kind and fields as six words, by the quick way, as `six` has it of a write. Nothing is written for a line that is refused.
// Inner functions: what they require, `words` shows.
#![tactic(auto)]

ghost use Rattle.std.specs.Prelude.{◌≡◌, length, leb};
ghost use Rattle.numbers.specs.Numbers.{joined_at, Joins};
ghost use Rattle.six.specs.Six.{met_words, Puts};

use digits::values;
use numbers::{byte_of, word_of};
use six::put;

// A session's six words, by the numbers of the digits after its kind; none where the outcome is above 3.
#[inline(always)]
#[tactic(auto, using(crate::proofs::SessionWordLaws::met))]
fn put_met(v: &[u8], words: &mut [u32]) -> bool
    requires { Joins v.now 0 12 × (length words.old ≡ 6) }
    ensures { (result ≡ leb (joined_at v.now 20 1) 3) × (words.new ≡ met_words v.now words.old) }
{
    let outcome = byte_of(v, 20);
    if 3 < outcome {
        return false;
    }
    put(
        words,
        [
            2,
            byte_of(v, 0) as u32,
            byte_of(v, 2) as u32,
            word_of(v, 4),
            word_of(v, 12),
            outcome as u32,
        ],
    );
    true
}

// 26 characters: a session's, or none. The sum is of the last 24, and lacks the kind's 2. It is compiled into its callers, with what it calls:
// called, it cost a line with a wrong first character 91 instructions for 85.
#[inline(always)]
#[tactic(auto, using(crate::proofs::SessionWordLaws::session_lacks))]
pub fn put_session(s: &[u8], words: &mut [u32]) -> bool
    requires { (length s.now ≡ 26) × (length words.old ≡ 6) }
    ensures { Puts s.now words.old result words.new }
{
    if s[0] != b'0' {
        return false;
    }
    if s[1] != b'2' {
        return false;
    }
    let mut v = [0u8; 24];
    if values(&s[2..26], &mut v[..]) != Some(254) {
        return false;
    }
    put_met(&v[..], words)
}
