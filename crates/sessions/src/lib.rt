// Session: two nodes of a table known to be sound trade what the other lacks.
// Inner functions: what they require, the table's entry points show.
#![tactic(auto)]

ghost use Rattle.std.specs.Prelude.{◌≡◌, ◌≤◌, ◌<◌};
ghost use Rattle.meaning.specs.Table.{form_of, nodes_most, acks_wide, count};
ghost use Rattle.meaning.specs.declared.Action.TheVariants.{Session};
ghost use Rattle.looks.specs.Applied.{Applied};
ghost use Rattle.looks.specs.Words.{SameWords};

use exchanges::exchange;
use looks::SoundTable;
use meaning::{Refusal, Reply};
use openings::{Reading, Start, opening};

// How many acknowledgements a node has: on columns none, so that a session lends empty rows of them.
fn acks_wide(t: &SoundTable) -> usize
    ensures { (result ≡ acks_wide (form_of t.now.words.now) (count t.now.words.now)) × (result ≤ nodes_most) }
{
    if layout::has_columns(t.words) {
        0
    } else {
        t.nodes()
    }
}

// The session between two different nodes of the table, its outcome known to be at most 3: refused for a reading or for a full log, or done.
fn meet(t: &mut SoundTable, a: Reading, b: Reading, outcome: u8) -> Reply
    requires { (a.node < count t.old.words.now) × (b.node < count t.old.words.now) × (a.node ≡ b.node → ⊥) × (outcome ≤ 3) }
    ensures done { Applied t.old.words.now (Session a.node b.node a.time b.time outcome) result t.new.words.now }
    ensures same { SameWords t.old t.new }
{
    if a.time < t.own(a.node) || b.time < t.own(b.node) {
        return Err(Refusal::TimeBehind);
    }
    let n = t.nodes();
    let w = acks_wide(t);
    let mut sa = [0u32; layout::NODES_MOST];
    let mut ka = [0u32; layout::NODES_MOST];
    opening(&mut sa, &mut ka, t, a);
    let mut sb = [0u32; layout::NODES_MOST];
    let mut kb = [0u32; layout::NODES_MOST];
    opening(&mut sb, &mut kb, t, b);
    let start_a = Start {
        node: a.node,
        summary: &sa[..n],
        acks: &ka[..w],
    };
    let start_b = Start {
        node: b.node,
        summary: &sb[..n],
        acks: &kb[..w],
    };
    exchange(t.words, outcome, start_a, start_b)
}

// A session on a sound table: refused by its fields, by its readings or for a full log, or done.
pub fn session(t: &mut SoundTable, a: u8, b: u8, ca: u32, cb: u32, outcome: u8) -> Reply
    ensures done { Applied t.old.words.now (Session a b ca cb outcome) result t.new.words.now }
    ensures same { SameWords t.old t.new }
{
    if openings::BOTH < outcome {
        return Err(Refusal::SessionOutcome);
    }
    let n = t.nodes();
    let p = a as usize;
    let q = b as usize;
    if n <= p || n <= q {
        return Err(Refusal::NodeAbsent);
    }
    if p == q {
        return Err(Refusal::NodeTwice);
    }
    meet(
        t,
        Reading { node: p, time: ca },
        Reading { node: q, time: cb },
        outcome,
    )
}
