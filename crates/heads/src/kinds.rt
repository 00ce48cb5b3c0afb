// The kinds of a journal's lines: which number is whose, and how many digits the lines of each have.
ghost use Rattle.std.specs.Prelude.{◌≡◌};
ghost use Rattle.meaning.specs.Frames.{digits_of};
ghost use Rattle.heads.specs.Kinds.{kind_number, Names};

use meaning::Refusal;

#[derive(Clone, Copy, PartialEq, Eq)]
pub enum Kind {
    Start,
    Write,
    Session,
    Purge,
    Deliver,
}

// The kind that a line's first byte names. A byte that names none is a refusal of the line.
impl TryFrom<u8> for Kind {
    type Error = Refusal;

    ghost try_from_gives = { Names };

    #[tactic(auto, unfolding(meaning::specs::Frames::known_in, meaning::specs::Frames::journal_kinds))]
    fn try_from(number: u8) -> Result<Kind, Refusal> {
        match number {
            0 => Ok(Kind::Start),
            1 => Ok(Kind::Write),
            2 => Ok(Kind::Session),
            3 => Ok(Kind::Purge),
            5 => Ok(Kind::Deliver),
            _ => Err(Refusal::KindUnknown),
        }
    }
}

impl Kind {
    // The digits of the kind's lines. `quick` has a function for each length that stands here.
    #[tactic(auto, unfolding(meaning::specs::Frames::digits_in, meaning::specs::Frames::widths_in, meaning::specs::Frames::journal_kinds))]
    pub fn digits(self) -> usize
        ensures { result ≡ digits_of (kind_number self) }
    {
        match self {
            Kind::Start => 6,
            Kind::Write => 24,
            Kind::Session => 26,
            Kind::Purge => 6,
            Kind::Deliver => 6,
        }
    }
}
