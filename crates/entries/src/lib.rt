// What C reads of a table: one scan for soundness a call, and 0 where there is none. The definitions are those of specs/Entries.antt.
// The words are lent for reading alone, so they make no `SoundTable`. Each 0 that C asks for stands where the thing is found absent: functions that
// answer an Option before it would be six more, and say no less.
#![tactic(auto)]

ghost use Rattle.std.specs.Prelude.{◌≡◌, ◌+◌, ◌≤◌, length, get_or};
ghost use Rattle.meaning.specs.Table.{nodes_most, part, count, Sound};
ghost use Rattle.entries.specs.Entries.{present, summary_entry, ack_entry, column_entry, held_number, record_word, mark_entry};

use layout::RECORD_WORDS;

// Whether the table is sound and has this node: the one scan of a call.
fn is_present(t: &[u32], p: usize) -> bool
    ensures { result ≡ present t.now p }
{
    soundness::is_sound(t) && p < layout::count_of(t) as usize
}

// The entry of the row that begins at a place, 0 at or beyond n.
fn entry(t: &[u32], at: usize, o: usize) -> u32
    requires { Sound t.now × (at + nodes_most ≤ length t.now) }
    ensures { result ≡ get_or (part at (count t.now) t.now) o 0 }
{
    let n = layout::count_of(t) as usize;
    t[at..at + n].get(o).copied().unwrap_or(0)
}

// A node's summary entry for an origin, on columns that of its own column.
pub fn summary_of(table: &[u32], node: u8, origin: u8) -> u32
    ensures { result ≡ summary_entry table.now node origin }
{
    let p = node as usize;
    if !is_present(table, p) {
        return 0;
    }
    entry(table, layout::summary_at(table, p), origin as usize)
}

// What a node knows that another has acknowledged, 0 on columns.
pub fn ack_of(table: &[u32], node: u8, of: u8) -> u32
    ensures { result ≡ ack_entry table.now node of }
{
    let p = node as usize;
    if !is_present(table, p) {
        return 0;
    }
    if layout::has_columns(table) {
        return 0;
    }
    entry(table, layout::acks_at(p), of as usize)
}

// What a node knows that the node of a column has of an origin, 0 on vectors.
pub fn column_of(table: &[u32], node: u8, column: u8, origin: u8) -> u32
    ensures { result ≡ column_entry table.now node column origin }
{
    let p = node as usize;
    let q = column as usize;
    if !is_present(table, p) {
        return 0;
    }
    if !layout::has_columns(table) {
        return 0;
    }
    if layout::count_of(table) as usize <= q {
        return 0;
    }
    entry(table, layout::column_at(p, q), origin as usize)
}

// The number of records that a node holds.
pub fn held_number(table: &[u32], node: u8) -> u32
    ensures { result ≡ held_number table.now node }
{
    let p = node as usize;
    if !is_present(table, p) {
        return 0;
    }
    layout::held_of(table, p)
}

// One word of a held record, oldest first: origin, timestamp, block, verdict.
pub fn record_word(table: &[u32], node: u8, index: u32, word: u32) -> u32
    ensures { result ≡ record_word table.now node index word }
{
    let p = node as usize;
    if !is_present(table, p) {
        return 0;
    }
    if layout::held_of(table, p) <= index {
        return 0;
    }
    if 3 < word {
        return 0;
    }
    table[layout::log_at(table, p) + RECORD_WORDS * index as usize + word as usize]
}

// A node's mark: it has delivered every record of a timestamp up to this.
pub fn mark_of(table: &[u32], node: u8) -> u32
    ensures { result ≡ mark_entry table.now node }
{
    let p = node as usize;
    if !is_present(table, p) {
        return 0;
    }
    table[layout::mark_at(table, p)]
}
