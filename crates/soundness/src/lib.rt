// Whether a table is sound: the definition is `sound` of specs/Table.antt.
// The scan reads each held record once, and without a branch for each: wrong origins are counted, and the verdicts' bits are taken together. Neither
// waits for the record before, as a greatest word would, and so several records are looked at in one turn. With `all`, which ends at the first wrong
// record, a full log takes a third longer (56 ns and not 42).
#![tactic(auto)]

ghost use Rattle.std.specs.Prelude.{◌≡◌, ◌<◌, ◌≤◌, ◌*◌, ◌/◌, length};
ghost use Rattle.meaning.specs.Rows.{every, record_at};
ghost use Rattle.meaning.specs.Table.{form_of, form_words, nodes_most, log_most, count, record_sound, log_sound, sound};

use layout::{LOG_MOST, NODES_MOST, RECORD_WORDS};

// "every record within the held part of those logs has origin below n and verdict at most 255": the held part of one log.
fn records_sound(w: &[u32], n: u32) -> bool
    requires { length w.now ≤ 4 * log_most }
    ensures { result ≡ every (length w.now / 4) (λ i. record_sound n (record_at w.now i)) }
{
    let (records, _) = w.as_chunks::<RECORD_WORDS>();
    let mut beyonds: u32 = 0;
    let mut verdicts: u32 = 0;
    for [origin, _, _, verdict] in records {
        beyonds += u32::from(*origin >= n);
        verdicts |= *verdict;
    }
    beyonds == 0 && verdicts <= 255
}

// The same of node p's log, with "every held number of a node below n is at most 64" before it.
fn log_sound(t: &[u32], n: u32, p: usize) -> bool
    requires { (length t.now ≡ form_words (form_of t.now)) × (n ≡ count t.now) × (p < nodes_most) }
    ensures { result ≡ log_sound t.now p }
{
    let held = layout::held_of(t, p) as usize;
    if LOG_MOST < held {
        return false;
    }
    let from = layout::log_at(t, p);
    let to = from + RECORD_WORDS * held;
    records_sound(&t[from..to], n)
}

// The same of every node's log.
fn logs_sound(t: &[u32], n: u32) -> bool
    requires { (length t.now ≡ form_words (form_of t.now)) × (n ≡ count t.now) × (n ≤ nodes_most) }
    ensures { result ≡ every n (log_sound t.now) }
{
    (0..n as usize).all(|p| log_sound(t, n, p))
}

// "A table is sound if its length is 4,641 or 8,225, its count is 2 to 16, .." of any words that are lent.
pub fn is_sound(t: &[u32]) -> bool
    ensures { result ≡ sound t.now }
{
    if !layout::is_long(t) {
        return false;
    }
    let n = layout::count_of(t);
    if n < 2 {
        return false;
    }
    if NODES_MOST < n as usize {
        return false;
    }
    logs_sound(t, n)
}
