// Leaves over the columns of a node, in a table that has them: raised by a partner's, and the smallest of them all.
// Inner functions: what they require, the table's entry points show.
#![tactic(auto)]

ghost use Rattle.std.specs.Prelude.{◌≡◌, [], ◌≤◌, ◌<◌, length, get_or};
ghost use Rattle.meaning.specs.Rows.{raise};
ghost use Rattle.meaning.specs.Table.{nodes_most, column_at, part};
ghost use Rattle.columns.specs.Merged.{brought, raised_by, raised_columns, merged_columns, Raises, Merges};
ghost use Rattle.columns.specs.Smallest.{LoweredBy, Lowers, Lowest};

use rows::put_entry;

// Raises a row by another of its length: each entry becomes the greater of both.
fn raise_by(row: &mut [u32], other: &[u32])
    requires { length other.now ≡ length row.old }
    ensures { row.new ≡ raise row.old other.now }
{
    for (i, &x) in other.iter().enumerate() {
        row[i] = row[i].max(x);
    }
}

// Raises p's column for k by q's. Of q's own column sq stands for what the table has: q may have changed since the session began. The columns of p and q
// lie apart, so the table is split between them, and no copy is made of either.
fn raise_column(t: &mut [u32], p: usize, q: usize, k: usize, sq: &[u32])
    requires { Raises t.old p q (length sq.now) sq.now × (k < length sq.now) }
    ensures { t.new ≡ raised_by (length sq.now) (column_at p k) (get_or (brought (length sq.now) q sq.now t.old) k []) t.old }
{
    let n = sq.len();
    let to = layout::column_at(p, k);
    let from = layout::column_at(q, k);
    if k == q {
        raise_by(&mut t[to..to + n], sq);
    } else if p < q {
        let (front, back) = t.split_at_mut(from);
        raise_by(&mut front[to..to + n], &back[..n]);
    } else {
        let (front, back) = t.split_at_mut(to);
        raise_by(&mut back[..n], &front[from..from + n]);
    }
}

// "takes the greater starting value entry by entry", in each of n columns: no word beyond n entries or n columns is touched.
fn raise_columns(t: &mut [u32], p: usize, q: usize, sq: &[u32])
    requires { Raises t.old p q (length sq.now) sq.now }
    ensures { t.new ≡ raised_columns (length sq.now) p q sq.now t.old }
{
    for k in 0..sq.len() {
        raise_column(t, p, q, k, sq);
    }
}

// The columns of a side p that finishes a session with q, from the own columns that both begin with, sp and sq: each "takes the greater starting value
// entry by entry", "and its own column also takes the partner's own".
pub fn merge(t: &mut [u32], p: usize, q: usize, sp: &[u32], sq: &[u32])
    requires { Merges t.old p q (length sp.now) sp.now sq.now }
    ensures { t.new ≡ merged_columns p q sp.now sq.now t.old }
{
    let own = layout::column_at(p, p);
    put_entry(t, own, p, sp);
    raise_columns(t, p, q, sq);
    let end = own + sp.len();
    raise_by(&mut t[own..end], sq);
}

// Lowers a row by another of its length: each entry becomes the smaller of both. The smallest entry of the other.
fn lower_by(row: &mut [u32], column: &[u32]) -> u32
    requires { (length column.now ≡ length row.old) × (0 < length row.old) }
    ensures { LoweredBy row.old column.now row.new result }
{
    let mut low = u32::MAX;
    // The row before the smallest: the other way round, a loop over 16 columns of 16 was compiled to 102 ns and not 78.
    for (i, &x) in column.iter().enumerate() {
        row[i] = row[i].min(x);
        low = low.min(x);
    }
    low
}

// The same with p's column for k of a table.
fn lower_column(row: &mut [u32], t: &[u32], p: usize, k: usize) -> u32
    requires { (column_at nodes_most 0 ≤ length t.now) × (p < nodes_most) × (k < nodes_most) × (0 < length row.old) × (length row.old ≤ nodes_most) }
    ensures { LoweredBy row.old (part (column_at p k) (length row.old) t.now) row.new result }
{
    let at = layout::column_at(p, k);
    let end = at + row.len();
    lower_by(row, &t[at..end])
}

// Fills a row with the smallest of p's columns, entry by entry, and tells who holds a purge up: "the first whose column has the smallest entry of all".
pub fn lowest(row: &mut [u32], t: &[u32], p: usize) -> usize
    requires { Lowers row.old t.now p (length row.old) }
    ensures { Lowest t.now p (length row.old) row.new result }
{
    row.fill(u32::MAX);
    let mut low = u32::MAX;
    let mut at: usize = 0;
    for q in 0..row.len() {
        let least = lower_column(row, t, p, q);
        if least < low {
            low = least;
            at = q;
        }
    }
    at
}
