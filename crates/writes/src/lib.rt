// Write: one record more at its node.
#![tactic(auto)]

ghost use Rattle.std.specs.Prelude.{◌≡◌, ◌<◌};
ghost use Rattle.meaning.specs.declared.Action.TheVariants.{Write};
ghost use Rattle.meaning.specs.Table.{log_most, count, held, node, put_node, Sound};
ghost use Rattle.meaning.specs.Node.{wrote};
ghost use Rattle.looks.specs.Applied.{Applied};
ghost use Rattle.looks.specs.Words.{SameWords};

use looks::SoundTable;
use meaning::{Record, Refusal, Reply, Report};
use records::put_record;
use rows::put_word;

// "The record with origin p goes after the last held record of p; the summary entry of p for itself becomes t."
fn append(t: &mut [u32], r: Record)
    requires { Sound t.old × (r.origin < count t.old) × (held t.old r.origin < log_most) }
    ensures { t.new ≡ put_node r.origin (wrote r.origin r.timestamp r.block r.verdict (node t.old r.origin)) t.old }
{
    let p = r.origin as usize;
    let held = layout::held_of(t, p);
    let row = layout::log_at(t, p) + layout::RECORD_WORDS * held as usize;
    let number = layout::held_at(t, p);
    let entry = layout::summary_at(t, p) + p;
    put_record(t, row, r);
    put_word(t, number, held + 1);
    put_word(t, entry, r.timestamp);
}

// A write on a sound table, refused or done.
pub fn write(t: &mut SoundTable, node: u8, timestamp: u32, block: u32, verdict: u8) -> Reply
    ensures done { Applied t.old.words.now (Write node timestamp block verdict) result t.new.words.now }
    ensures same { SameWords t.old t.new }
{
    let p = node as usize;
    if t.nodes() <= p {
        return Err(Refusal::NodeAbsent);
    }
    if timestamp <= t.own(p) {
        return Err(Refusal::TimeBehind);
    }
    if layout::LOG_MOST <= t.held(p) {
        return Err(Refusal::LogFull);
    }
    let r = Record {
        origin: u32::from(node),
        timestamp,
        block,
        verdict: u32::from(verdict),
    };
    append(t.words, r);
    Ok(Report::Written)
}
