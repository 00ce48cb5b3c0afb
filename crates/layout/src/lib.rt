// Where each part of a table stands: the offsets of specs/Table.antt as code. No other file of the product's code knows one.
#![tactic(auto)]

ghost use Rattle.std.specs.Prelude.{◌≡◌, ◌+◌, ◌<◌, ◌≤◌, length};
ghost use Rattle.meaning.specs.Table.{
  form_of,
  form_words,
  length_right,
  nodes_most,
  summary_at,
  column_at,
  acks_at,
  held_at,
  log_at,
  mark_at,
  count,
  held,
};
ghost use Rattle.meaning.specs.Steps.{on_columns};

// "A lent table", 4,641 words of 32 bits: the marks are its last 16.
pub const TABLE_WORDS: usize = 4641;

// A lent table of columns.
pub const COLUMN_TABLE_WORDS: usize = 8225;

// The most nodes of a table, which is also the words of a row, of a vector's or of a column's.
pub const NODES_MOST: usize = 16;

// The words of one node's columns.
pub const COLUMNS_WORDS: usize = 256;

// The most records of a node's log.
pub const LOG_MOST: usize = 64;

// The words of one record: origin, timestamp, block, verdict.
pub const RECORD_WORDS: usize = 4;

// The words of one node's log.
pub const LOG_WORDS: usize = 256;

// The place of the count.
pub const COUNT_AT: usize = 0;

// "the length tells the form": has the table columns?
pub fn has_columns(t: &[u32]) -> bool
    ensures { result ≡ on_columns (form_of t.now) }
{
    t.len() == COLUMN_TABLE_WORDS
}

// Is the length that of a form?
pub fn is_long(t: &[u32]) -> bool
    ensures { result ≡ length_right t.now }
{
    t.len() == TABLE_WORDS || t.len() == COLUMN_TABLE_WORDS
}

// The place of node p's column for q.
pub fn column_at(p: usize, q: usize) -> usize
    requires { (p < nodes_most) × (q < nodes_most) }
    ensures { result ≡ column_at p q }
{
    1 + COLUMNS_WORDS * p + NODES_MOST * q
}

// The place of node p's summary row, which is the own one of its columns where the table has them.
pub fn summary_at(t: &[u32], p: usize) -> usize
    requires { (length t.now ≡ form_words (form_of t.now)) × (p < nodes_most) }
    ensures { (result ≡ summary_at (form_of t.now) p) × (result + nodes_most ≤ length t.now) }
{
    if has_columns(t) {
        return column_at(p, p);
    }
    1 + NODES_MOST * p
}

// The place of node p's acknowledgement row, where the table has vectors.
pub fn acks_at(p: usize) -> usize
    requires { p < nodes_most }
    ensures { result ≡ acks_at p }
{
    257 + NODES_MOST * p
}

// What stands after the rows has the same place in both forms, counted from the table's end: no branch asks for the form.
// The place of node p's held number.
pub fn held_at(t: &[u32], p: usize) -> usize
    requires { (length t.now ≡ form_words (form_of t.now)) × (p < nodes_most) }
    ensures { result ≡ held_at (form_of t.now) p }
{
    t.len() - 4128 + p
}

// The place of node p's log.
pub fn log_at(t: &[u32], p: usize) -> usize
    requires { (length t.now ≡ form_words (form_of t.now)) × (p < nodes_most) }
    ensures { result ≡ log_at (form_of t.now) p }
{
    t.len() - 4112 + LOG_WORDS * p
}

// The place of node p's mark.
pub fn mark_at(t: &[u32], p: usize) -> usize
    requires { (length t.now ≡ form_words (form_of t.now)) × (p < nodes_most) }
    ensures { result ≡ mark_at (form_of t.now) p }
{
    t.len() - 16 + p
}

// The count that a table states.
pub fn count_of(t: &[u32]) -> u32
    requires { length t.now ≡ form_words (form_of t.now) }
    ensures { result ≡ count t.now }
{
    t[COUNT_AT]
}

// The held number that a table states for node p.
pub fn held_of(t: &[u32], p: usize) -> u32
    requires { (length t.now ≡ form_words (form_of t.now)) × (p < nodes_most) }
    ensures { result ≡ held t.now p }
{
    t[held_at(t, p)]
}
