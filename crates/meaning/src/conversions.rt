// Conversions of the product's types: a refusal's number, and a step's refusal as a line's.
ghost use Rattle.std.specs.Prelude.{◌≡◌};
ghost use Rattle.meaning.specs.Refusals.{number_of};

use crate::{Fault, Refusal};

// The number that C and the printed text tell.
impl From<Refusal> for u32 {
    ghost from_gives = { λ r n. n ≡ number_of r };

    fn from(refusal: Refusal) -> u32 {
        match refusal {
            Refusal::Unsound => 1,
            Refusal::SessionOutcome => 2,
            Refusal::NodeAbsent => 3,
            Refusal::NodeTwice => 4,
            Refusal::TimeBehind => 5,
            Refusal::LogFull => 6,
            Refusal::ListShort => 7,
            Refusal::KindUnknown => 11,
            Refusal::DigitStray => 12,
            Refusal::SumWrong => 13,
            Refusal::LineUnended => 14,
            Refusal::StartWrong => 15,
            Refusal::JournalLong => 16,
            Refusal::RoomShort => 17,
            Refusal::DigitsOdd => 18,
            Refusal::LengthWrong => 19,
            Refusal::LineOutcome => 20,
            Refusal::OnColumns => 26,
        }
    }
}

// A refusal that no character of a line is at fault for: a step's, of its line.
impl From<Refusal> for Fault {
    ghost from_gives = { λ r f. f ≡ record { refusal = r; place = 0 } };

    fn from(refusal: Refusal) -> Fault {
        Fault { refusal, place: 0 }
    }
}
