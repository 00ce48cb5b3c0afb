// The two fields that a refusal asks for, each of its own kind.
ghost use Rattle.std.specs.Prelude.{◌≡◌, not};
ghost use Rattle.meaning.specs.Table.{count_right};
ghost use Rattle.meaning.specs.Frames.{bytes_of, outcome_high, start_wrong};
ghost use Rattle.heads.specs.Heads.{Whole};
ghost use Rattle.heads.specs.Kinds.{kind_number};

use heads::kinds::Kind;
use numbers::byte;

// "n is not 2 to 16"
#[tactic(auto, unfolding(meaning::specs::Table::count_right))]
pub(crate) fn count_wrong(n: u8) -> bool
    ensures { result ≡ not (count_right n) }
{
    !matches!(n, 2..=16)
}

// "an outcome is above 3"
#[tactic(auto, using(crate::proofs::FaultLaws::session_in, heads::proofs::FieldLaws::outcome_test, heads::proofs::FieldLaws::outcome_other))]
pub(crate) fn outcome_above(s: &[u8], kind: Kind) -> bool
    requires { Whole s.now (kind_number kind) }
    ensures { result ≡ outcome_high (bytes_of s.now) }
{
    match kind {
        Kind::Session => 3 < byte(s, 11),
        _ => false,
    }
}

// "a start's n is not 2 to 16"
#[tactic(auto, using(crate::proofs::FaultLaws::start_in, heads::proofs::FieldLaws::start_test, heads::proofs::FieldLaws::start_other))]
pub(crate) fn start_wrong(s: &[u8], kind: Kind) -> bool
    requires { Whole s.now (kind_number kind) }
    ensures { result ≡ start_wrong (bytes_of s.now) }
{
    match kind {
        Kind::Start => count_wrong(byte(s, 1)),
        _ => false,
    }
}
