// A line read in one call: its refusal and its place, and its kind and fields in lent words.
#![tactic(auto)]

ghost use Rattle.std.specs.Prelude.{◌≡◌, [], ◌<◌, length};
ghost use Rattle.meaning.specs.Frames.{words_fault, ReadWords};
ghost use Rattle.six.specs.Six.{Puts};

use meaning::{Fault, Refusal};
use six::put;

// Fewer characters than a write's: a start's, a purge's, a delivery's, or none.
#[inline(always)]
fn put_short(s: &[u8], words: &mut [u32]) -> bool
    requires { (length s.now < 24) × (length words.old ≡ 6) }
    ensures { Puts s.now words.old result words.new }
{
    let Some(held) = quick::short_held(s) else {
        return false;
    };
    put(words, [held.kind as u32, held.field as u32, 0, 0, 0, 0]);
    true
}

// Any line: whether it is accepted, and then its six words.
#[inline(always)]
fn put_sure(s: &[u8], words: &mut [u32]) -> bool
    requires { length words.old ≡ 6 }
    ensures { Puts s.now words.old result words.new }
{
    if s.len() < 24 {
        return put_short(s, words);
    }
    match s.len() {
        24 => six::put_write(&s[0..24], words),
        26 => sessionwords::put_session(&s[0..26], words),
        _ => false,
    }
}

// What is wrong with a line for which fewer than six words are lent: the line's own refusal, else that they are too few.
#[tactic(auto, using(crate::proofs::WordLaws::few_refused, crate::proofs::WordLaws::few_accepted))]
fn few(s: &[u8]) -> Fault
    ensures { Some result ≡ words_fault s.now [] }
{
    match faults::refusal(s) {
        Some(fault) => fault,
        None => Fault::from(Refusal::RoomShort),
    }
}

// A line read in one call: what is wrong with it as `reading::check` tells it, and after that too few words where fewer than six are lent. An accepted
// line's kind and its fields go into the first six words, 0 where the kind has no such field; a refused line changes none.
// It and what it calls are compiled into its two callers, so that no Option of a fault is copied through memory (measured on x86-64, an empty line's
// refusal: 19 ns with the copy, 8 without; a start: 13.5 and 12.1).
#[inline(always)]
#[tactic(auto, using(crate::proofs::WordLaws::few_told, crate::proofs::WordLaws::few_kept, heads::proofs::HeadLaws::whole_part))]
pub fn read_words(s: &[u8], words: &mut [u32]) -> Option<Fault>
    ensures { ReadWords s.now words.old result words.new }
{
    let long = s.len();
    if words.len() < 6 {
        return Some(few(&s[0..long]));
    }
    if put_sure(s, &mut words[0..6]) {
        return None;
    }
    faults::refusal(&s[0..long])
}
