// What a session settles before it changes a word of a table known to be sound: which side finishes, what each begins with, and whether it has
// room. Inner functions: what they require, the table's entry points show.
#![tactic(auto)]

ghost use Rattle.std.specs.Prelude.{◌≡◌, ◌||◌, ◌+◌, ◌≤◌, ◌<◌, length, set, eqb};
ghost use Rattle.meaning.specs.Table.{nodes_most, count, part};
ghost use Rattle.openings.specs.Begun.{alone, crowds, Shows, Starts};

use arrivals::newer_count;
use looks::SoundTable;
use rows::{copy_row, least_with};

// What a node's clock reads as a session begins.
#[derive(Clone, Copy)]
pub struct Reading {
    pub node: usize,
    pub time: u32,
}

// What a node begins a session with: its starting summary, and on vectors its starting acknowledgements. The rows are lent, so that no word of them is
// copied.
#[derive(Clone, Copy)]
pub struct Start<'a> {
    pub node: usize,
    pub summary: &'a [u32],
    pub acks: &'a [u32],
}

// A side of a session: its start, whether it finishes, and how many records of its node's log the session goes by.
#[derive(Clone, Copy)]
pub struct Party<'a> {
    pub start: Start<'a>,
    pub finishes: bool,
    pub held: usize,
}

// One of the two sides of a session: its number is the outcome at which it alone finishes.
#[derive(Clone, Copy)]
pub enum Which {
    A = 1,
    B = 2,
}

// The outcome at which both sides finish, the greatest that there is.
pub const BOTH: u8 = 3;

// "outcome 0 finishes neither side, 1 only a, 2 only b, 3 both": whether this side finishes.
pub fn finishes(outcome: u8, which: Which) -> bool
    ensures { result ≡ (eqb outcome (alone which) || eqb outcome 3) }
{
    outcome == which as u8 || outcome == BOTH
}

// Fills a row with one of a table and changes one word. All 16 words are copied, whatever n is: a fixed length compiles to a few moves.
fn row_with(row: &mut [u32; layout::NODES_MOST], t: &[u32], at: usize, i: usize, v: u32)
    requires { (at + nodes_most ≤ length t.now) × (i < nodes_most) }
    ensures { row.new ≡ set (part at nodes_most t.now) i v }
{
    let end = at + layout::NODES_MOST;
    copy_row(&mut row[..], &t[at..end]);
    row[i] = v;
}

// "the own summary entry becomes the reading, then the own acknowledgement entry becomes the smallest entry of that summary": the starting
// values of a node, "what each sends", are the first n entries of both rows. A node of columns has no acknowledgement: `acks` is left as it is.
#[tactic(auto, using(meaning::proofs::TableLaws::sound_facts))]
pub fn opening(
    summary: &mut [u32; layout::NODES_MOST],
    acks: &mut [u32; layout::NODES_MOST],
    t: &SoundTable,
    reading: Reading,
)
    requires { reading.node < count t.now.words.now }
    ensures { Starts t.now.words.now reading summary.new acks.new }
{
    let Reading { node, time } = reading;
    let at = layout::summary_at(t.words, node);
    row_with(summary, t.words, at, node, time);
    if layout::has_columns(t.words) {
        return;
    }
    let end = at + t.nodes();
    let low = least_with(&t.words[at..end], node, time);
    row_with(acks, t.words, layout::acks_at(node), node, low.value);
}

// 6: "a finishing side would hold more than 64". "Number 6 asks nothing of a side that doesn't finish."
pub fn overfills(t: &[u32], mine: &Party, theirs: &Party) -> bool
    requires { Shows t.now mine.now theirs.now }
    ensures { result ≡ crowds t.now mine.now theirs.now }
{
    if !mine.finishes {
        return false;
    }
    // Where even all of the partner's records have room, none is counted.
    if mine.held + theirs.held <= layout::LOG_MOST {
        return false;
    }
    let at = layout::log_at(t, theirs.start.node);
    let end = at + layout::LOG_WORDS;
    layout::LOG_MOST < mine.held + newer_count(mine.start.summary, &t[at..end], theirs.held)
}
