// Leaves over one row of numbers, or one word of a list, lent as a part that starts anywhere.
// They know no offset: where a row stands is the caller's to say. Inner functions: what they require, the table's code shows.
#![tactic(auto)]

ghost use Rattle.std.specs.Prelude.{◌≡◌, [], ◌∷◌, length, replicate, set};
ghost use Prim.Native.Nat.{◌+◌, ◌≤◌, ◌<◌};
ghost use Rattle.meaning.specs.Rows.{least, least_at, raise};
ghost use Rattle.meaning.specs.Table.{place};
ghost use Rattle.rows.specs.Entry.{OneEntry};

use meaning::Least;

// The smallest entry of a row in which the word at i is v, and the lowest place that has it. The row is read as it stands: one that was written
// just before would be read more slowly. Pairs of entry and place, compared as one, would take twice as long (28 ns and not 13 at 16 entries), and
// a caller that lets the place go would still wait for it.
pub fn least_with(row: &[u32], i: usize, v: u32) -> Least
    requires { i < length row.now }
    ensures { (result.value ≡ least (set row.now i v)) × (result.at ≡ least_at (set row.now i v)) }
{
    let mut low = u32::MAX;
    let mut at = 0;
    for (k, &there) in row.iter().enumerate() {
        let x = if k == i { v } else { there };
        if x < low {
            at = k;
        }
        low = low.min(x);
    }
    Least { value: low, at }
}

// Fills a row with, entry by entry, the greater of two rows.
fn fill_raised(row: &mut [u32], mine: &[u32], theirs: &[u32])
    requires { (length mine.now ≡ length row.old) × (length theirs.now ≡ length row.old) }
    ensures { row.new ≡ raise mine.now theirs.now }
{
    // The three rows zipped would take twice as long (15 ns and not 8 at 16 entries).
    for (i, word) in row.iter_mut().enumerate() {
        *word = mine[i].max(theirs[i]);
    }
}

// Puts one word.
pub fn put_word(t: &mut [u32], at: usize, v: u32)
    requires { at < length t.old }
    ensures { t.new ≡ place at (v ∷ []) t.old }
{
    t[at] = v;
}

// Fills a row with zeros.
pub fn clear(row: &mut [u32])
    ensures { row.new ≡ replicate (length row.old) 0 }
{
    row.fill(0);
}

// Copies a row over another of its length.
pub fn copy_row(to: &mut [u32], from: &[u32])
    requires { length from.now ≡ length to.old }
    ensures { to.new ≡ from.now }
{
    to.copy_from_slice(from);
}

// Puts a row that differs from the one there in entry i alone: no other word is stored.
pub fn put_entry(t: &mut [u32], at: usize, i: usize, row: &[u32])
    requires { (at + length row.now ≤ length t.old) × (i < length row.now) × OneEntry t.old at i row.now }
    ensures { t.new ≡ place at row.now t.old }
{
    t[at + i] = row[i];
}

// Puts, entry by entry, the greater of two rows.
pub fn put_raised(t: &mut [u32], at: usize, mine: &[u32], theirs: &[u32])
    requires { (at + length mine.now ≤ length t.old) × (length theirs.now ≡ length mine.now) }
    ensures { t.new ≡ place at (raise mine.now theirs.now) t.old }
{
    let end = at + mine.len();
    fill_raised(&mut t[at..end], mine, theirs);
}
