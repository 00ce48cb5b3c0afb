// Delivery: what is due at a node goes into a lent list, in the order that is the same everywhere, and its mark rises.
// Inner functions: what they require, `deliver` and `deliver_alone` show.
#![tactic(auto)]

ghost use Rattle.std.specs.Prelude.{◌≡◌, ◌*◌, ◌≤◌, ◌<◌, length, ltb};
ghost use Rattle.meaning.specs.declared.Action.TheVariants.{Deliver};
ghost use Rattle.meaning.specs.Rows.{in_order, least, words};
ghost use Rattle.meaning.specs.Table.{count, mark, node, place, put_mark};
ghost use Rattle.meaning.specs.Node.{raised};
ghost use Rattle.records.specs.Tests.{all_records};
ghost use Rattle.looks.specs.Applied.{Applied};
ghost use Rattle.looks.specs.Words.{SameWords};
ghost use Rattle.deliveries.specs.Lent.{Lent};
ghost use Rattle.deliveries.specs.Goes.{Goes, Looked, due_by};

use lists::{Due, due_count, give};
use looks::SoundTable;
use meaning::{Refusal, Reply, Report};
use rows::{least_with, put_word};

// What a delivery goes by: its node, how many records the node holds, and which of them are due.
#[derive(Clone, Copy)]
struct Delivery {
    p: usize,
    held: usize,
    which: Due,
}

// The smallest entry of node p's summary, over its n entries.
fn low_of(t: &SoundTable, p: usize, n: usize) -> u32
    requires { (p < count t.now.words.now) × (n ≡ count t.now.words.now) }
    ensures { result ≡ least (node t.now.words.now p).summary }
{
    let at = layout::summary_at(t.words, p);
    let end = at + n;
    let low = least_with(&t.words[at..end], 0, t.words[at]);
    low.value
}

// What a delivery meets with any list, or what it goes by: a node out of range gives 3, and "a delivery on a column table gives 26, after 3".
#[inline]
fn look(t: &SoundTable, node: u8) -> Result<Delivery, Refusal>
    ensures { Looked t.now.words.now node result }
{
    let p = node as usize;
    let n = t.nodes();
    if n <= p {
        return Err(Refusal::NodeAbsent);
    }
    if layout::has_columns(t.words) {
        return Err(Refusal::OnColumns);
    }
    let held = t.held(p);
    let mark = t.mark(p);
    let limit = low_of(t, p, n);
    Ok(Delivery {
        p,
        held,
        which: Due { mark, limit },
    })
}

// The log of a delivery's node, without the rows that hold no record.
fn log_of<'b>(t: &'b SoundTable, by: Delivery) -> &'b [u32]
    requires { Goes t.now.words.now by }
    ensures { all_records result.now ≡ (node t.now.words.now by.p).log }
{
    let at = layout::log_at(t.words, by.p);
    let end = at + 4 * by.held;
    &t.words[at..end]
}

// How many records are due. Where the mark has come as far as the smallest entry, none is looked at.
fn due_of(t: &SoundTable, by: Delivery) -> usize
    requires { Goes t.now.words.now by }
    ensures { (result ≡ length (due_by t.now.words.now by)) × (result ≤ by.held) }
{
    if by.which.limit <= by.which.mark {
        return 0;
    }
    due_count(log_of(t, by), by.which)
}

// 7: "a list too short for what is due", fewer than four words for each due record.
fn lacks(t: &SoundTable, by: Delivery, room: usize) -> bool
    requires { Goes t.now.words.now by }
    ensures { result ≡ ltb room (4 * length (due_by t.now.words.now by)) }
{
    // Where all that is held has room, nothing is counted.
    if 4 * by.held <= room {
        return false;
    }
    room < 4 * due_of(t, by)
}

// Writes what is due into a list with room for it, "by timestamp and then origin": how many records they are.
fn fill(t: &SoundTable, list: &mut [u32], by: Delivery) -> usize
    requires goes { Goes t.now.words.now by }
    requires room { 4 * length (due_by t.now.words.now by) ≤ length list.old }
    ensures value { (result ≡ length (due_by t.now.words.now by)) × (result ≤ by.held) }
    ensures list_after { list.new ≡ place 0 (words (in_order (due_by t.now.words.now by))) list.old }
{
    give(list, log_of(t, by), by.which)
}

// "raises the mark to that entry where it is greater": else no word is written.
fn raise_mark(t: &mut [u32], by: Delivery)
    requires { Goes t.old by }
    ensures { t.new ≡ put_mark by.p (raised (mark t.old by.p) (node t.old by.p)) t.old }
{
    if by.which.mark < by.which.limit {
        let at = layout::mark_at(t, by.p);
        put_word(t, at, by.which.limit);
    }
}

// A delivery on a sound table into a lent list of any length, refused with 3, 26 or 7 or done. Room is asked before a word is written.
pub fn deliver(t: &mut SoundTable, list: &mut [u32], node: u8) -> Reply
    ensures done { Lent t.old.words.now list.old node result t.new.words.now list.new }
    ensures same { SameWords t.old t.new }
{
    let by = look(t, node)?;
    if lacks(t, by, list.len()) {
        return Err(Refusal::ListShort);
    }
    let records = fill(t, list, by) as u32;
    raise_mark(t.words, by);
    Ok(Report::Delivered { records })
}

// A delivery whose list nobody reads, as of a journal's line: it goes as with a list of 64 records, which has room for all that a log holds, so that 7
// never comes; what is due is counted and not written.
pub fn deliver_alone(t: &mut SoundTable, node: u8) -> Reply
    ensures done { Applied t.old.words.now (Deliver node) result t.new.words.now }
    ensures same { SameWords t.old t.new }
{
    let by = look(t, node)?;
    let records = due_of(t, by) as u32;
    raise_mark(t.words, by);
    Ok(Report::Delivered { records })
}
