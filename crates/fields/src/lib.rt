// A frame's parts: a word's bytes, the check byte, a line's characters with the LF.
// Inner functions: what they require, the frames' code shows.
#![tactic(auto)]

ghost use Rattle.std.specs.Prelude.{◌≡◌, ◌+◌, ◌-◌, ◌*◌, ◌<◌, ◌≤◌, [], ◌∷◌, ◌++◌, length, take};
ghost use Rattle.meaning.specs.Table.{place};
ghost use Rattle.meaning.specs.Frames.{spelled, high_first, sealed};

// A word's four bytes at their place: "Numbers are high byte first." They are stored one by one: copied as a slice they are a word in memory, and the
// frame's bytes then wait for it where they are read as a vector (measured on x86-64, a write's frame: 15.3 ns by a copy, 10.0 by bytes).
#[tactic(auto, using(crate::proofs::FieldLaws::split_word))]
pub fn split(b: &mut [u8], at: usize, x: u32)
    requires { at + 4 ≤ length b.old }
    ensures { b.new ≡ place at (high_first 4 x) b.old }
{
    let [first, second, third, last] = x.to_be_bytes();
    b[at] = first;
    b[at + 1] = second;
    b[at + 2] = third;
    b[at + 3] = last;
}

// The check byte in the last place: the wrapped negation of the sum of the bytes before it.
#[tactic(auto, using(crate::proofs::FieldLaws::total_none, crate::proofs::FieldLaws::total_more))]
pub fn seal(b: &mut [u8])
    requires { 0 < length b.old }
    ensures { b.new ≡ sealed (take (length b.old - 1) b.old) }
{
    let last = b.len() - 1;
    let mut sum: u8 = 0;
    for x in &b[..last] {
        sum = sum.wrapping_add(*x);
    }
    b[last] = sum.wrapping_neg();
}

// The characters of a line from place 0, and the LF.
#[tactic(auto, using(crate::proofs::FieldLaws::put_last))]
pub fn put_line(out: &mut [u8], d: &[u8])
    requires { length d.now < length out.old }
    ensures { out.new ≡ place 0 (d.now ++ (10 ∷ [])) out.old }
{
    out[..d.len()].copy_from_slice(d);
    out[d.len()] = b'\n';
}

// The frame of at most 24 bytes, the check among them. They are spelled in an array of 24, and their digits stand in one of 48, more than a frame
// has: a loop of 12 or 13 turns would be unrolled before it could become vector code.
#[tactic(auto, using(crate::proofs::FieldLaws::front_spelled))]
pub fn put_frame(out: &mut [u8], b: &[u8])
    requires { (length b.now ≤ 24) × (2 * length b.now < length out.old) }
    ensures { out.new ≡ place 0 (spelled b.now ++ (10 ∷ [])) out.old }
{
    let mut padded = [0; 24];
    padded[..b.len()].copy_from_slice(b);
    let mut d = [0; 48];
    spelling::spell(&padded, &mut d);
    put_line(out, &d[..2 * b.len()]);
}
