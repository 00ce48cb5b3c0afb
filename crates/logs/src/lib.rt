// Leaves over the records of a log, four words a row, lent as a part that starts anywhere: carried, closed up.
// They know no offset: where a log stands is the caller's to say. Inner functions: what they require, the table's code shows.
#![tactic(auto)]

ghost use Rattle.std.specs.Prelude.{Bool, [], ◌∷◌, ◌*◌, ◌≤◌, length};
ghost use Rattle.meaning.specs.declared.Record.{Record};
ghost use Rattle.meaning.specs.Rows.{newer, records};
ghost use Rattle.records.specs.Tests.{rows, Askable, Follows};
ghost use Rattle.logs.specs.Carry.{log_record, log_records, Carries, CarriesAll, Puts, stay, FirstTold, Closes, AskableIn, FollowsIn};

use layout::LOG_WORDS;
use meaning::Record;
use records::{is_newer, put_record, record_at};

// Carries one record of the log at `from` to the place `to`, if it is newer than the summary: 1 if so, else 0.
fn carry_one(t: &mut [u32], from: usize, row: usize, to: usize, summary: &[u32]) -> usize
    requires { Carries t.old from row to summary.now }
    ensures { Puts to (newer summary.now (log_record from row t.old ∷ [])) t.old result t.new }
{
    let end = from + LOG_WORDS;
    let r = record_at(&t[from..end], row);
    if is_newer(summary, r) {
        put_record(t, to, r);
        1
    } else {
        0
    }
}

// Carries to the place `to`, in their order, those of the first `held` records of the log at `from` that are newer than the summary.
// What it writes lies apart from that log. How many it carried.
pub fn carry(t: &mut [u32], from: usize, held: usize, to: usize, summary: &[u32]) -> usize
    requires { CarriesAll t.old from held to summary.now }
    ensures { Puts to (newer summary.now (log_records from held t.old)) t.old result t.new }
{
    let mut carried = 0;
    for row in 0..held {
        carried += carry_one(t, from, row, to + 4 * carried, summary);
    }
    carried
}

// The row of the first record of a log that a test lets go, the log lent without the rows that hold none: nothing where all stay. It only reads: the rows
// before that one are lent to nothing that writes.
pub fn first_leaving<F: Fn(Record) -> bool>(log: &[u32], goes: F) -> Option<usize>
    requires { Askable (F.pre goes) log.now }
    ensures { (rule : Record → Bool) → Follows (F.post goes) rule log.now → FirstTold rule (rows log.now) log.now result }
{
    for row in 0..log.len() / 4 {
        if goes(record_at(log, row)) {
            return Some(row);
        }
    }
    None
}

// Closes up the first so many rows of what is lent, from the first record that a test lets go on: those that stay move up, in their order, each to the row
// after the one before (`Carry.stored_rows`); the rows behind them are as they were. How many of them are left.
pub fn close_up<F: Fn(Record) -> bool>(tail: &mut [u32], held: usize, goes: F) -> usize
    requires askable { AskableIn held (F.pre goes) tail.old }
    requires inside { 4 * held ≤ length tail.old }
    ensures few { result ≤ held }
    ensures closed { (rule : Record → Bool) → FollowsIn held (F.post goes) rule tail.old → Closes rule held tail.old →
        Puts 0 (stay rule (records held tail.old)) tail.old result tail.new }
{
    let mut kept = 0;
    for row in 1..held {
        let r = record_at(tail, row);
        if !goes(r) {
            put_record(tail, 4 * kept, r);
            kept += 1;
        }
    }
    kept
}
