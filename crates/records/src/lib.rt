// Leaves over one record, four words of a row: put, read, and held to a summary; and how many of a log pass a test. They know no offset.
// Inner functions: what they require, the table's code shows.
#![tactic(auto)]

ghost use Rattle.std.specs.Prelude.{◌≡◌, Bool, not, [], ◌∷◌, ◌+◌, ◌*◌, ◌≤◌, ◌<◌, length};
ghost use Rattle.meaning.specs.declared.Record.{Record};
ghost use Rattle.meaning.specs.Rows.{covers, keep, record_at, words};
ghost use Rattle.records.specs.Tests.{all_records, Askable, Follows};
ghost use Rattle.meaning.specs.Table.{place};

use meaning::Record;

// Fills a row of four words with a record.
// Word by word by a measure: each copy of an array would ask for an overlap (a purge of half, 16 nodes: 742 instructions and not 644, by callgrind).
fn fill_record(row: &mut [u32], r: Record)
    requires { length row.old ≡ 4 }
    ensures { row.new ≡ words (r ∷ []) }
{
    row[0] = r.origin;
    row[1] = r.timestamp;
    row[2] = r.block;
    row[3] = r.verdict;
}

// Puts a record's four words.
pub fn put_record(t: &mut [u32], at: usize, r: Record)
    requires { at + 4 ≤ length t.old }
    ensures { t.new ≡ place at (words (r ∷ [])) t.old }
{
    fill_record(&mut t[at..at + 4], r);
}

// A record of a log, by its row.
pub fn record_at(log: &[u32], row: usize) -> Record
    requires { 4 * row + 4 ≤ length log.now }
    ensures { result ≡ record_at log.now row }
{
    let at = 4 * row;
    Record {
        origin: log[at],
        timestamp: log[at + 1],
        block: log[at + 2],
        verdict: log[at + 3],
    }
}

// Is a record newer than a summary?
pub fn is_newer(summary: &[u32], r: Record) -> bool
    requires { r.origin < length summary.now }
    ensures { result ≡ not (covers summary.now r) }
{
    let origin = r.origin as usize;
    let entry = summary[origin];
    entry < r.timestamp
}

// How many records of a log, lent without the rows that hold none, pass a test.
pub fn count_of<F: Fn(Record) -> bool>(log: &[u32], passes: F) -> usize
    requires { Askable (F.pre passes) log.now }
    ensures { (rule : Record → Bool) → Follows (F.post passes) rule log.now → result ≡ length (keep rule (all_records log.now)) }
{
    let mut count = 0;
    for row in 0..log.len() / 4 {
        if passes(record_at(log, row)) {
            count += 1;
        }
    }
    count
}
