// The lent table: a fresh one, and one step applied.
// The entry points, `fresh`, `apply` and those of `act`, take any words at all; what the crates below them require, they have shown.
#![tactic(auto)]

ghost use Rattle.std.specs.Prelude.{◌≡◌, true, false, OnOk, IfErr};
ghost use Rattle.meaning.specs.declared.Refusal.TheVariants.{Unsound};
ghost use Rattle.meaning.specs.Refusals.{answered};
ghost use Rattle.meaning.specs.Table.{fresh_refusal, made_fresh, sound};
ghost use Rattle.looks.specs.Applied.{Applied};
ghost use Rattle.looks.specs.Words.{SameWords};

use looks::SoundTable;
use meaning::{Action, Refusal, Reply, Step};
use rows::{clear, put_word};

pub mod act;

// "A fresh table has its count set and every other word zero. Making one is refused with 1, the lent words unchanged, if the count or the
// length is wrong." The length lent tells the form.
pub fn fresh(t: &mut [u32], n: u32) -> Result<(), Refusal>
    ensures { (result ≡ answered (fresh_refusal t.old n) tt) × (t.new ≡ made_fresh t.old n) }
{
    if !(2..=16).contains(&n) || !layout::is_long(t) {
        return Err(Refusal::Unsound);
    }
    clear(t);
    put_word(t, layout::COUNT_AT, n);
    Ok(())
}

// 1: "the table is not sound".
#[inline]
fn scanned(t: &[u32]) -> Result<(), Refusal>
    ensures is_sound { OnOk result (sound t.now ≡ true) }
    ensures unsound { IfErr result (λ r. (r ≡ Unsound) × (sound t.now ≡ false)) }
{
    if soundness::is_sound(t) {
        Ok(())
    } else {
        Err(Refusal::Unsound)
    }
}

// One action on a table that is known to be sound: what `apply` does after its scan, and what a run from a fresh table does at every step.
pub fn apply_sound(t: &mut SoundTable, action: Action) -> Reply
    ensures done { Applied t.old.words.now action result t.new.words.now }
    ensures same { SameWords t.old t.new }
{
    match action {
        Action::Write {
            node,
            timestamp,
            block,
            verdict,
        } => writes::write(t, node, timestamp, block, verdict),
        Action::Session {
            a,
            b,
            ca,
            cb,
            outcome,
        } => sessions::session(t, a, b, ca, cb, outcome),
        Action::Purge { node } => purges::purge(t, node),
        Action::Deliver { node } => deliveries::deliver_alone(t, node),
    }
}

// One step on any words at all: the refusal, or what the step reports; a refusal changes no word.
pub fn apply(t: &mut [u32], step: Step) -> Reply
    ensures { Applied t.old step.action result t.new }
{
    scanned(t)?;
    apply_sound(&mut SoundTable { words: t }, step.action)
}
