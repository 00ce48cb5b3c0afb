// Purge: the records that every node has, and on vectors that were delivered here, leave a log. What they are held to is worked out once, a limit or, on
// columns, a row of bars, and asked of each record by a closure; the log's part is one for both forms.
#![tactic(auto)]

ghost use Rattle.std.specs.Prelude.{◌≡◌, ◌+◌, ◌-◌, ◌*◌, ◌≤◌, ◌<◌, length, replicate};
ghost use Rattle.meaning.specs.declared.Action.TheVariants.{Purge};
ghost use Rattle.meaning.specs.Rows.{least};
ghost use Rattle.meaning.specs.Table.{Vectors, Columns, form_of, form_words, nodes_most, log_most, count, node, place};
ghost use Rattle.meaning.specs.Steps.{on_columns, limit, leaving, lagging};
ghost use Rattle.logs.specs.Carry.{FirstTold, FirstLeaving};
ghost use Rattle.looks.specs.Applied.{Applied};
ghost use Rattle.looks.specs.Words.{SameWords};
ghost use Rattle.columns.specs.Smallest.{Lowers, Lowest};
ghost use Rattle.purges.specs.Dropped.{log_from, log_of, Drops, Closed, Dropped, Cuts, CutDone, Passed};

use columns::lowest;
use logs::{close_up, first_leaving};
use looks::SoundTable;
use meaning::{Least, Record, Refusal, Reply, Report};
use rows::{clear, least_with, put_word};

// The smallest entry of node p's acknowledgement row, over its n entries, and the node that has it.
#[tactic(auto, using(meaning::proofs::TableLaws::sound_facts))]
fn low_of(t: &SoundTable, p: usize, n: usize) -> Least
    requires { (p < count t.now.words.now) × (n ≡ count t.now.words.now) × (form_of t.now.words.now ≡ Vectors) }
    ensures { (result.value ≡ least (node t.now.words.now p).acks) × (result.at ≡ lagging t.now.words.now p) × (result.at < n) }
{
    let at = layout::acks_at(p);
    let end = at + n;
    least_with(&t.words[at..end], 0, t.words[at])
}

// What a purge goes by on vectors, that entry or the mark where that is smaller, and the node that has the entry.
fn limit_of(t: &SoundTable, p: usize, n: usize) -> Least
    requires { (p < count t.now.words.now) × (n ≡ count t.now.words.now) × (form_of t.now.words.now ≡ Vectors) }
    ensures { (result.value ≡ limit t.now.words.now p) × (result.at ≡ lagging t.now.words.now p) × (result.at < n) }
{
    let low = low_of(t, p, n);
    let value = low.value.min(t.mark(p));
    Least { value, at: low.at }
}

// The smallest entry of a row by itself: without its place, so that several entries are looked at in one turn.
fn smallest(row: &[u32]) -> u32
    requires { 0 < length row.now }
    ensures { result ≡ least row.now }
{
    let mut low = u32::MAX;
    for &entry in row {
        low = low.min(entry);
    }
    low
}

// What a purge goes by on vectors, where nobody asks for the node.
// Beside `limit_of` by a measure: with the place a journal's purge takes 279 instructions a line, without it 221 (docs/DECISIONS.md, "One caller").
#[tactic(auto, using(meaning::proofs::TableLaws::sound_facts))]
fn limit_alone(t: &SoundTable, p: usize, n: usize) -> u32
    requires { (p < count t.now.words.now) × (n ≡ count t.now.words.now) × (form_of t.now.words.now ≡ Vectors) }
    ensures { result ≡ limit t.now.words.now p }
{
    let at = layout::acks_at(p);
    let to = at + n;
    let low = smallest(&t.words[at..to]);
    low.min(t.mark(p))
}

// The row of the first record of p's log that goes: nothing where none does.
fn first_of<F: Fn(Record) -> bool>(t: &[u32], p: usize, held: usize, goes: F) -> Option<usize>
    requires { Drops t.now p held (F.pre goes) (F.post goes) }
    ensures { FirstTold (leaving t.now p) held (log_of p t.now) result }
{
    let at = layout::log_at(t, p);
    let end = at + 4 * held;
    first_leaving(&t[at..end], goes)
}

// "Every held record whose timestamp is at most [its bar] leaves. The rest close up in their order": how many are left. What moves rows is lent only
// those from the first record that leaves to the last held: no row before it can be written.
// Compiled by itself by a measure: within its caller, where it begins was worked out anew at each row of the search for the first that goes, and a
// journal's purge of none on 16 nodes took 465 instructions a line, where it takes 332.
#[inline(never)]
fn close_log<F: Fn(Record) -> bool>(
    t: &mut [u32],
    p: usize,
    first: usize,
    held: usize,
    goes: F,
) -> usize
    requires drops { Drops t.old p held (F.pre goes) (F.post goes) × (first < held) }
    requires first_leaving { FirstLeaving (leaving t.old p) held (log_of p t.old) first }
    ensures { Closed t.old p (leaving t.old p) result t.new × (result ≤ held) }
{
    let at = layout::log_at(t, p);
    let from = at + 4 * first;
    let end = at + 4 * held;
    first + close_up(&mut t[from..end], held - first, goes)
}

// "the rows so freed become zero"
fn clear_rows(t: &mut [u32], p: usize, left: usize, held: usize)
    requires { (length t.old ≡ form_words (form_of t.old)) × (p < nodes_most) × (left ≤ held) × (held ≤ log_most) }
    ensures { t.new ≡ place (log_from p t.old + 4 * left) (replicate (4 * (held - left)) 0) t.old }
{
    let at = layout::log_at(t, p);
    let from = at + 4 * left;
    let to = at + 4 * held;
    clear(&mut t[from..to]);
}

// The records that stay are left, in their order, the rows behind them zero; the held number is theirs: how many they are. Where none goes, no word is
// written, the held number included.
fn drop_rows<F: Fn(Record) -> bool>(t: &mut [u32], p: usize, held: usize, goes: F) -> usize
    requires { Drops t.old p held (F.pre goes) (F.post goes) }
    ensures { Dropped t.old p (leaving t.old p) result t.new × (result ≤ held) }
{
    let Some(first) = first_of(t, p, held, &goes) else {
        return held;
    };
    let left = close_log(t, p, first, held, goes);
    clear_rows(t, p, left, held);
    let at = layout::held_at(t, p);
    put_word(t, at, left as u32);
    left
}

// What is left of a log, and who holds the purge up.
#[derive(Clone, Copy)]
struct Cut {
    left: usize,
    at: usize,
}

// Has the table columns?
fn has_columns(t: &SoundTable) -> bool
    ensures { result ≡ on_columns (form_of t.now.words.now) }
{
    layout::has_columns(t.words)
}

// Fills a row with the smallest entry that any of p's columns has for each origin, and tells who holds the purge up.
fn bars_of(t: &SoundTable, p: usize, bars: &mut [u32]) -> usize
    requires { Lowers bars.old t.now.words.now p (length bars.old) }
    ensures { Lowest t.now.words.now p (length bars.old) bars.new result }
{
    lowest(bars, t.words, p)
}

// Of a table with columns: each record is held to the smallest entry that any column has for its origin, and no mark is read.
#[tactic(auto, using(meaning::proofs::TableLaws::sound_facts))]
fn cut_columns(t: &mut SoundTable, p: usize, n: usize, held: usize) -> Cut
    requires { Cuts t.old.words.now p n held × (form_of t.old.words.now ≡ Columns) }
    ensures done { CutDone t.old.words.now p n held result.left result.at t.new.words.now }
    ensures same { SameWords t.old t.new }
{
    let mut row = [0; layout::NODES_MOST];
    let bars = &mut row[..n];
    let at = bars_of(t, p, bars);
    let left = drop_rows(t.words, p, held, |r| r.timestamp <= bars[r.origin as usize]);
    Cut { left, at }
}

// Of either form: on vectors each record is held to the one limit.
fn cut_of(t: &mut SoundTable, p: usize, n: usize, held: usize) -> Cut
    requires { Cuts t.old.words.now p n held }
    ensures done { CutDone t.old.words.now p n held result.left result.at t.new.words.now }
    ensures same { SameWords t.old t.new }
{
    if has_columns(t) {
        return cut_columns(t, p, n, held);
    }
    let low = limit_of(t, p, n);
    let left = drop_rows(t.words, p, held, |r| r.timestamp <= low.value);
    Cut { left, at: low.at }
}

// A purge, refused for its node or done.
pub fn purge(t: &mut SoundTable, node: u8) -> Reply
    ensures done { Applied t.old.words.now (Purge node) result t.new.words.now }
    ensures same { SameWords t.old t.new }
{
    let p = node as usize;
    let n = t.nodes();
    if n <= p {
        return Err(Refusal::NodeAbsent);
    }
    let held = t.held(p);
    let cut = cut_of(t, p, n, held);
    let removed = (held - cut.left) as u32;
    let lags = cut.at as u8;
    Ok(Report::Purged { removed, lags })
}

// A purge whose counts nobody reads, as of a journal's line. On vectors the node that lags is not asked for, so that the smallest entry alone is worked
// out. On columns it is what `cut_of` does, which having two callers is compiled by itself: `purge`, then short, goes into its callers, and the reply is
// not put together in memory to be read back.
pub fn purge_alone(t: &mut SoundTable, node: u8) -> Result<(), Refusal>
    ensures done { Passed t.old.words.now (Purge node) result t.new.words.now }
    ensures same { SameWords t.old t.new }
{
    let p = node as usize;
    let nodes = t.nodes();
    if nodes <= p {
        return Err(Refusal::NodeAbsent);
    }
    let held = t.held(p);
    let columns = has_columns(t);
    if columns {
        let _cut = cut_of(t, p, nodes, held);
        return Ok(());
    }
    let limit = limit_alone(t, p, nodes);
    let _left = drop_rows(t.words, p, held, |r| r.timestamp <= limit);
    Ok(())
}
