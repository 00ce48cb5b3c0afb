// A line's digits: their numbers, the first character that is none, and their sum. Nothing here knows a kind.
// Inner functions: what they require, `quick`, `faults`, `six` and `turns` show.
#![tactic(auto)]

ghost use Rattle.std.specs.Prelude.{◌≡◌, ◌+◌, ◌%◌, cond, nat_lt, length, bit_or};
ghost use Rattle.meaning.specs.Frames.{digit_value};
ghost use Rattle.digits.specs.Digits.{letter_value, weigh, sum_of, values_of, stray_of};

// The number of a letter A to F, 16 for any other character: a number for none keeps a digit free of branches, a measured shape (docs/PERFORMANCE.md).
#[tactic(auto, unfolding(crate::specs::Digits::letter_value))]
fn letter(c: u8) -> u8
    ensures { result ≡ letter_value c }
{
    match c {
        b'A'..=b'F' => c - 55,
        _ => 16,
    }
}

// The number of a hexadecimal digit, 16 where the character is none: "a character is not 0 to 9 or A to F".
// Each match has a single range, so that it is compiled without a branch.
#[tactic(auto, unfolding(crate::specs::Digits::letter_value, meaning::specs::Frames::digit_value))]
fn digit_value(c: u8) -> u8
    ensures { result ≡ digit_value c }
{
    let other = letter(c);
    match c {
        b'0'..=b'9' => c - 48,
        _ => other,
    }
}

// What a digit of this number adds to the sum, by its place in the line: the first of a byte's two counts 16 times.
#[tactic(auto, unfolding(crate::specs::Digits::weigh))]
fn weighed(v: u8, place: usize) -> u8
    ensures { result ≡ weigh place v }
{
    if place % 2 == 0 {
        return v.wrapping_mul(16);
    }
    v
}

// What the digits passed so far tell: the bits of their numbers, of which a character that is no digit has the fifth, and the sum of their bytes.
#[derive(Clone, Copy)]
struct Pass {
    seen: u8,
    sum: u8,
}

impl Pass {
    // One more digit, at this place in the line.
    fn then(self, v: u8, place: usize) -> Pass
        ensures seen { result.seen ≡ bit_or self.seen v }
        ensures sum { result.sum ≡ (self.sum + weigh place v) % 256 }
    {
        Pass {
            seen: self.seen | v,
            sum: self.sum.wrapping_add(weighed(v, place)),
        }
    }

    // The sum, none where a character was no digit.
    fn told(self) -> Option<u8>
        ensures { result ≡ cond (nat_lt 15 self.seen) None (Some self.sum) }
    {
        if 15 < self.seen {
            return None;
        }
        Some(self.sum)
    }
}

// The sum of the bytes of a line of even length, "wrapping at 256"; none where a character is no digit. One character a turn and no early end,
// so that it becomes vector code where the length is known.
pub fn total(s: &[u8]) -> Option<u8>
    requires { length s.now % 2 ≡ 0 }
    ensures { result ≡ sum_of s.now }
{
    let mut pass = Pass { seen: 0, sum: 0 };
    for (k, &c) in s.iter().enumerate() {
        pass = pass.then(digit_value(c), k);
    }
    pass.told()
}

// The same, with the digits' numbers left in v.
pub fn values(s: &[u8], v: &mut [u8]) -> Option<u8>
    requires { (length s.now % 2 ≡ 0) × (length v.old ≡ length s.now) }
    ensures { (result ≡ sum_of s.now) × (v.new ≡ values_of s.now) }
{
    let mut pass = Pass { seen: 0, sum: 0 };
    for (k, &c) in s.iter().enumerate() {
        let x = digit_value(c);
        v[k] = x;
        pass = pass.then(x, k);
    }
    pass.told()
}

// The place of the first character that is no digit, none where all are. Only a line that is refused is asked for it.
pub fn stray_at(s: &[u8]) -> Option<usize>
    ensures { result ≡ stray_of s.now }
{
    s.iter().position(|&c| 15 < digit_value(c))
}
