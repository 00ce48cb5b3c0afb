// Bytes as their digits. Inner functions: what they require, the frames' code shows.
#![tactic(auto)]

ghost use Rattle.std.specs.Prelude.{◌≡◌, [], ◌∷◌, ◌+◌, ◌*◌, ◌≤◌, ◌<◌, length};
ghost use Rattle.meaning.specs.Table.{place};
ghost use Rattle.meaning.specs.Frames.{digit, spelled};

// The digit of a number below 16: "uppercase hexadecimal". `heads::digit_of` is the same of a word: one for both would need a trait of numbers for a sum.
#[tactic(auto, unfolding(meaning::specs::Frames::digit))]
fn digit_of(v: u8) -> u8
    requires { v < 16 }
    ensures { result ≡ digit v }
{
    let zero = match v {
        0..=9 => b'0',
        _ => b'A' - 10,
    };
    zero + v
}

// One byte at its place: "two digits a byte".
#[tactic(auto, using(crate::proofs::SpellLaws::put_pair))]
fn put_byte(out: &mut [u8], at: usize, b: u8)
    requires { 2 * (at + 1) ≤ length out.old }
    ensures { out.new ≡ place (2 * at) (spelled (b ∷ [])) out.old }
{
    out[2 * at] = digit_of(b / 16);
    out[2 * at + 1] = digit_of(b % 16);
}

// The digits of some bytes, all in one loop, so that it becomes vector code where the length is known.
#[tactic(auto, using(crate::proofs::SpellLaws::spell_none, crate::proofs::SpellLaws::spell_more))]
pub fn spell(b: &[u8], d: &mut [u8])
    requires { length d.old ≡ 2 * length b.now }
    ensures { d.new ≡ spelled b.now }
{
    for (k, x) in b.iter().enumerate() {
        put_byte(d, k, *x);
    }
}
