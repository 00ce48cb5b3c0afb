// One side of a session, on a table known to be sound: the records that it takes, and what its rows become.
// Inner functions: what they require, the table's entry points show.
#![tactic(auto)]

ghost use Rattle.std.specs.Prelude.{◌≡◌, true};
ghost use Rattle.sides.specs.Ended.{settled, Settles, Merged, Merges, Sided, Sides, Takes, Took};

use logs::carry;
use openings::{Party, Start};
use rows::{put_entry, put_raised, put_word};

// "A side that finishes appends, in the partner's log order, those records the partner held at the start" that are newer than its own
// starting summary; one that doesn't finish "takes no record". How many records it then has.
fn take(t: &mut [u32], mine: &Party, theirs: &Party) -> usize
    requires { Takes t.old mine.now theirs.now }
    ensures { Took t.old mine.now theirs.now result t.new }
{
    if !mine.finishes {
        return mine.held;
    }
    let start = &mine.start;
    let at = layout::held_at(t, start.node);
    let from = layout::log_at(t, theirs.start.node);
    let to = layout::log_at(t, start.node) + layout::RECORD_WORDS * mine.held;
    let taken = carry(t, from, theirs.held, to, start.summary);
    put_word(t, at, (mine.held + taken) as u32);
    mine.held + taken
}

// "It then takes, entry by entry, the greater of both"; on columns in every column, "and its own column also takes the partner's own".
fn finish(t: &mut [u32], mine: &Start, theirs: &Start)
    requires { Merges t.old mine.now theirs.now }
    ensures { Merged true t.old mine.now theirs.now t.new }
{
    if layout::has_columns(t) {
        columns::merge(t, mine.node, theirs.node, mine.summary, theirs.summary);
        return;
    }
    let at = layout::summary_at(t, mine.node);
    put_raised(t, layout::acks_at(mine.node), mine.acks, theirs.acks);
    put_raised(t, at, mine.summary, theirs.summary);
}

// "A side that doesn't finish keeps its starting values", which are in the table already but for its own entries: one, and on vectors two.
fn settle(t: &mut [u32], start: &Start)
    requires { Settles t.old start.now }
    ensures { t.new ≡ settled t.old start.now }
{
    let at = layout::summary_at(t, start.node);
    put_entry(t, at, start.node, start.summary);
    if !layout::has_columns(t) {
        put_entry(t, layout::acks_at(start.node), start.node, start.acks);
    }
}

// What the rows of a side become, from the starting rows of both.
fn merge(t: &mut [u32], mine: &Party, theirs: &Party)
    requires { Merges t.old mine.now.start theirs.now.start }
    ensures { Merged mine.now.finishes t.old mine.now.start theirs.now.start t.new }
{
    if mine.finishes {
        finish(t, &mine.start, &theirs.start);
    } else {
        settle(t, &mine.start);
    }
}

// One side of a session: the records, then the rows, from the starting rows of both. How many records it then has.
pub fn side(t: &mut [u32], mine: &Party, theirs: &Party) -> usize
    requires { Sides t.old mine.now theirs.now }
    ensures { Sided t.old mine.now theirs.now result t.new }
{
    let has = take(t, mine, theirs);
    merge(t, mine, theirs);
    has
}
