// A write's kind and fields as six words, by the quick way: the digits' numbers are kept in an array of the function's own, and the fields joined from
// them. Nothing is written for a line that is refused. A session's are `sessionwords`'. Inner functions: what they require, `words` shows.
#![tactic(auto)]

ghost use Rattle.std.specs.Prelude.{◌≡◌, length};
ghost use Rattle.numbers.specs.Numbers.{Joins};
ghost use Rattle.six.specs.Six.{write_words, Puts};

use digits::values;
use numbers::{byte_of, word_of};

// The six words, each stored by itself: `copy_from_slice` takes the array through memory, and a write's line read in one call then took 64 cycles for 48.
pub fn put(words: &mut [u32], values: [u32; 6])
    requires { length words.old ≡ 6 }
    ensures { words.new ≡ values }
{
    for (k, &value) in values.iter().enumerate() {
        words[k] = value;
    }
}

// A write's six words, by its digits' numbers.
#[inline(always)]
fn put_written(v: &[u8], words: &mut [u32])
    requires { Joins v.now 0 12 × (length words.old ≡ 6) }
    ensures { words.new ≡ write_words v.now }
{
    put(
        words,
        [
            1,
            byte_of(v, 2) as u32,
            word_of(v, 4),
            word_of(v, 12),
            byte_of(v, 20) as u32,
            0,
        ],
    );
}

// 24 characters: a write's, or none. It is compiled into its callers, with what it calls: called, it cost a write's line 195 instructions for 191.
#[inline(always)]
#[tactic(auto, using(crate::proofs::SixLaws::write_lacks))]
pub fn put_write(s: &[u8], words: &mut [u32]) -> bool
    requires { (length s.now ≡ 24) × (length words.old ≡ 6) }
    ensures { Puts s.now words.old result words.new }
{
    if s[0] != b'0' {
        return false;
    }
    if s[1] != b'1' {
        return false;
    }
    let mut v = [0u8; 24];
    if values(s, &mut v[..]) != Some(0) {
        return false;
    }
    put_written(&v[..], words);
    true
}
