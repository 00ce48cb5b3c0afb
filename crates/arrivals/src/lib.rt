// How many records of a log, four words a row, lent as a part that starts anywhere, are newer than a summary.
// They know no offset: where a log stands is the caller's to say. Inner functions: what they require, the table's code shows.
#![tactic(auto)]

ghost use Rattle.std.specs.Prelude.{◌≡◌, true, ◌*◌, ◌≤◌, length};
ghost use Rattle.meaning.specs.Rows.{newer, records, all};
ghost use Rattle.meaning.specs.Table.{record_sound};

use records::{count_of, is_newer};

// How many of the first `held` records of a log are newer than a summary.
pub fn newer_count(summary: &[u32], log: &[u32], held: usize) -> usize
    requires { (4 * held ≤ length log.now) × (all (record_sound (length summary.now)) (records held log.now) ≡ true) }
    ensures { result ≡ length (newer summary.now (records held log.now)) }
{
    count_of(&log[..4 * held], |r| is_newer(summary, r))
}
