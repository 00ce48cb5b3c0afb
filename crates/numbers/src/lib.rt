// The numbers of one byte and of four that a line's digits spell, high byte first: by the characters, and by the digits' own numbers. Nothing here
// knows a kind. Inner functions: what they require, `faults`, `contents`, `reading`, `six` and `turns` show.
#![tactic(auto)]

ghost use Rattle.std.specs.Prelude.{◌≡◌, ◌+◌, ◌*◌, ◌<◌};
ghost use Rattle.meaning.specs.Frames.{digit_value};
ghost use Rattle.numbers.specs.Numbers.{joined_at, Joins, field_at, Within};

// The byte of the two digits at a place, by their numbers.
#[tactic(auto, unfolding(crate::specs::Numbers::joined_at))]
pub fn byte_of(v: &[u8], at: usize) -> u8
    requires { Joins v.now at 1 }
    ensures { result ≡ joined_at v.now at 1 }
{
    16 * v[at] + v[at + 1]
}

// The word of the eight digits at a place, by their numbers.
pub fn word_of(v: &[u8], at: usize) -> u32
    requires { Joins v.now at 4 }
    ensures { result ≡ joined_at v.now at 4 }
{
    u32::from_be_bytes([
        byte_of(v, at),
        byte_of(v, at + 2),
        byte_of(v, at + 4),
        byte_of(v, at + 6),
    ])
}

// The number of a character that is known to be a digit: one comparison fewer than `digits` makes of any character.
#[tactic(auto, unfolding(meaning::specs::Frames::digit_value))]
fn value(c: u8) -> u8
    requires { digit_value c < 16 }
    ensures { result ≡ digit_value c }
{
    match c {
        b'0'..=b'9' => c - 48,
        _ => c - 55,
    }
}

// The byte of two characters that are known to be digits.
fn pair(high: u8, low: u8) -> u8
    requires { (digit_value high < 16) × (digit_value low < 16) }
    ensures { result ≡ 16 * digit_value high + digit_value low }
{
    16 * value(high) + value(low)
}

// A field of one byte, in a line of digits.
#[tactic(auto, using(meaning::proofs::FrameLaws::digits_at, crate::proofs::NumberLaws::byte_field))]
pub fn byte(s: &[u8], at: usize) -> u8
    requires { Within s.now at 1 }
    ensures { result ≡ field_at s.now at 1 }
{
    pair(s[2 * at], s[2 * at + 1])
}

// A field of four bytes, high byte first, in a line of digits.
pub fn word(s: &[u8], at: usize) -> u32
    requires { Within s.now at 4 }
    ensures { result ≡ field_at s.now at 4 }
{
    u32::from_be_bytes([
        byte(s, at),
        byte(s, at + 1),
        byte(s, at + 2),
        byte(s, at + 3),
    ])
}
