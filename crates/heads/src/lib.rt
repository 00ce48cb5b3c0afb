// A line of six characters, which can only be a start, a purge or a delivery: what it holds, sure in both directions. Beside it stand the laws of any
// line that is accepted, by which `quick` tells the longer ones.
#![tactic(auto)]

ghost use Rattle.std.specs.Prelude.{◌≡◌, [], ◌∷◌, ◌≤◌, ◌<◌};
ghost use Rattle.meaning.specs.Frames.{digit_value, digit};
ghost use Rattle.digits.specs.Digits.{letter_value};
ghost use Rattle.heads.specs.Heads.{is_check, may_hold, short_of};

pub mod kinds;

// What an accepted line of six characters holds. The kind is its number, since that is what C is answered.
#[derive(Clone, Copy)]
pub struct Short {
    pub kind: u8,
    pub field: u8,
}

// The number of a letter A to F, 16 for any other character. In a word, as `digits` has it in a byte: one function for both is a trait with these two
// matches again, and bytes in place of words were slower here (0.92 to 0.96, docs/PERFORMANCE.md).
#[tactic(auto, unfolding(digits::specs::Digits::letter_value))]
fn wide_letter(c: u32) -> u32
    ensures { result ≡ letter_value c }
{
    match c {
        65..=70 => c - 55,
        _ => 16,
    }
}

// The number of a hexadecimal digit, 16 where the character is none; in a word, which is quicker where two are read one by one.
#[tactic(auto, unfolding(digits::specs::Digits::letter_value, meaning::specs::Frames::digit_value))]
fn wide_value(c: u32) -> u32
    ensures { result ≡ digit_value c }
{
    let other = wide_letter(c);
    match c {
        48..=57 => c - 48,
        _ => other,
    }
}

// The digit of a number below 16: "uppercase hexadecimal". In a word, as `spelling` has it in a byte: each is slower in the other's (0.92 to 0.96 here,
// 0.90 there, docs/PERFORMANCE.md).
#[tactic(auto, unfolding(meaning::specs::Frames::digit))]
fn digit_of(v: u32) -> u32
    requires { v < 16 }
    ensures { result ≡ digit v }
{
    let zero = match v {
        0..=9 => 48,
        _ => 55,
    };
    zero + v
}

// Whether two characters are the check byte of a frame whose other bytes add up to this. They are compared with what they must be: a digit
// written is quicker than a digit read.
fn is_check(sum: u32, high: u8, low: u8) -> bool
    requires { sum ≤ 512 }
    ensures { result ≡ is_check sum high low }
{
    let last = (512 - sum) % 256;
    if high as u32 != digit_of(last / 16) {
        return false;
    }
    low as u32 == digit_of(last % 16)
}

// Whether a start, a purge or a delivery, told by its kind's second character, may have this field: a start's "n is 2 to 16", that of the others is any.
#[tactic(auto, unfolding(crate::specs::Heads::may_hold, meaning::specs::Table::count_right))]
fn may_hold(kind: u8, n: u32) -> bool
    ensures { result ≡ may_hold kind n }
{
    if kind == b'3' {
        return true;
    }
    if kind == b'5' {
        return true;
    }
    match n {
        2..=16 => kind == b'0',
        _ => false,
    }
}

// What a line of six characters holds, none where it is refused. They are handed over in registers, which a slice is not; the digits' numbers are
// words, since a byte costs an instruction more for each choice. It is compiled into its callers, so that no Option goes through memory.
#[inline(always)]
#[tactic(auto, using(std::proofs::lemmas::Nat::le_or_l, std::proofs::lemmas::Nat::le_or_r, crate::proofs::QuickLaws::hold_char))]
pub fn short_line(a: u8, b: u8, c: u8, d: u8, e: u8, f: u8) -> Option<Short>
    ensures { result ≡ short_of (a ∷ b ∷ c ∷ d ∷ e ∷ f ∷ []) }
{
    if a != b'0' {
        return None;
    }
    let h = wide_value(c as u32);
    let l = wide_value(d as u32);
    if 15 < h | l {
        return None;
    }
    let n = 16 * h + l;
    if !may_hold(b, n) {
        return None;
    }
    let kind = b - b'0';
    if !is_check(kind as u32 + n, e, f) {
        return None;
    }
    Some(Short {
        kind,
        field: n as u8,
    })
}
