// Why a line is refused, and where, each clause asked in its order. The other way than that of `quick`.
#![tactic(auto)]

ghost use Rattle.std.specs.Prelude.{◌≡◌, true, not, [], ◌∷◌, ◌%◌, ◌<◌, length};
ghost use Rattle.std.specs.Result.{result_err};
ghost use Rattle.meaning.specs.Refusals.{test_at};
ghost use Rattle.meaning.specs.Frames.{all_digits, fault_of, line_fault};
ghost use Rattle.faults.specs.Faults.{Settles};

use digits::{stray_at, total};
use heads::kinds::Kind;
use meaning::{Fault, Refusal};
use numbers::byte;

mod kinds;

// The place of an outcome's first digit, which no line changes.
const OUTCOME_AT: usize = 22;

// What is wrong with a line that has its kind's length, told the place of its check byte.
#[tactic(auto, unfolding(meaning::specs::Refusals::first, meaning::specs::Refusals::first_place, meaning::specs::Refusals::refusal_of))]
fn late(above: bool, sums: bool, wrong: bool, check: usize) -> Result<(), Fault>
    ensures { result_err result ≡ fault_of (test_at 20 22 above ∷ test_at 13 check (not sums) ∷ test_at 15 0 wrong ∷ []) }
{
    if above {
        return Err(Fault {
            refusal: Refusal::LineOutcome,
            place: OUTCOME_AT,
        });
    }
    if !sums {
        return Err(Fault {
            refusal: Refusal::SumWrong,
            place: check,
        });
    }
    if wrong {
        return Err(Fault::from(Refusal::StartWrong));
    }
    Ok(())
}

// The kind of a line of digits, some and even in number, or what is wrong with it. A wrong kind is told at place 0, its first digit.
fn spelled(s: &[u8]) -> Result<Kind, Fault>
    requires { (all_digits s.now ≡ true) × (length s.now % 2 ≡ 0) × (0 < length s.now) }
    ensures { Settles s.now result }
{
    let kind = Kind::try_from(byte(s, 0))?;
    let due = kind.digits();
    if s.len() != due {
        return Err(Fault {
            refusal: Refusal::LengthWrong,
            place: s.len().min(due),
        });
    }
    late(
        kinds::outcome_above(s, kind),
        total(s) == Some(0),
        kinds::start_wrong(s, kind),
        due - 2,
    )?;
    Ok(kind)
}

// The kind of any line that is accepted, or what is wrong with it: the first refusal that applies, with its place.
pub fn settle(s: &[u8]) -> Result<Kind, Fault>
    ensures { Settles s.now result }
{
    let long = s.len();
    if let Some(stray) = stray_at(s) {
        return Err(Fault {
            refusal: Refusal::DigitStray,
            place: stray,
        });
    }
    if long % 2 == 1 {
        return Err(Fault {
            refusal: Refusal::DigitsOdd,
            place: long,
        });
    }
    if long == 0 {
        return Err(Fault::from(Refusal::DigitsOdd));
    }
    spelled(s)
}

// What is wrong with any line, none where it is accepted.
pub fn refusal(s: &[u8]) -> Option<Fault>
    ensures { result ≡ line_fault s.now }
{
    settle(s).err()
}
