// The run of a journal over a lent table: a fresh table, then each step of the journal, up to its end or the first refused line.
// Document 01, "Frames and journals".
#![tactic(auto)]

ghost use Rattle.std.specs.Prelude.{◌≡◌, ◌≤◌, ◌<◌, length, true};
ghost use Rattle.meaning.specs.declared.Refusal.TheVariants.{StartWrong};
ghost use Rattle.meaning.specs.declared.Stopped.TheVariants.{Bad};
ghost use Rattle.meaning.specs.Table.{Vectors, form_words, count_right};
ghost use Rattle.text.specs.Text.{text_most};
ghost use Rattle.run.specs.Run.{RanFrom, Ran, RunTold, Replayed};

use layout::TABLE_WORDS;
use looks::SoundTable;
use meaning::{Done, NextLine, Outcome, Refusal, Stopped};
use text::TEXT_MOST;

// The most bytes of a journal that the program takes.
pub const JOURNAL_MOST: usize = 65536;

// A start of n nodes: a fresh table, then the steps after its line. The start is line 1, so a refused line has the number `steps + 2`.
fn from_start(s: &[u8], from: usize, n: u32, t: &mut [u32]) -> Outcome
    requires { (length t.old ≡ form_words Vectors) × (count_right n ≡ true) × (0 < from) × (from ≤ length s.now) }
    ensures { RanFrom s.now from n result t.new }
{
    let _ = table::fresh(t, n);
    let mut sound = SoundTable { words: t };
    let came = lines::apply_from(s, from, 2, &mut sound);
    match came.fault {
        None => Ok(Done {
            n,
            steps: came.steps,
            refused: came.refused,
        }),
        Some(fault) => Err(Stopped::Bad {
            line: came.steps + 2,
            fault,
        }),
    }
}

// 15: "the first line is no start", place 0
fn unbegun() -> Stopped
    ensures { result ≡ Bad 1 (record { refusal = StartWrong; place = 0 }) }
{
    Stopped::Bad {
        line: 1,
        fault: Refusal::StartWrong.into(),
    }
}

// "applies its steps to a fresh table; a refused step is counted and passed over. A refused line ends it"
// The table is the caller's own where the first line is refused, else a fresh one after the steps before the refused line.
pub fn run(s: &[u8], t: &mut [u32]) -> Outcome
    ensures { Ran s.now t.old result t.new }
{
    if t.len() != TABLE_WORDS {
        return Err(Stopped::Unread {
            refusal: Refusal::Unsound,
        });
    }
    match journal::next_at(s, 0, 1) {
        Ok(Some(NextLine::Begin { n, next })) => from_start(s, next, n as u32, t),
        Ok(Some(NextLine::Act { .. })) => Err(unbegun()),
        Ok(None) => Err(unbegun()),
        Err(fault) => Err(Stopped::Bad { line: 1, fault }),
    }
}

// The text of a run's outcome and of the table that it leaves.
fn told(s: &[u8], t: &mut [u32], out: &mut [u8]) -> usize
    requires { (length t.old ≡ form_words Vectors) × (text_most ≤ length out.old) }
    ensures { RunTold s.now t.old out.old result t.new out.new }
{
    let outcome = run(s, t);
    text::show(out, outcome, t)
}

// What the program prints of a journal, from place 0 of the lent bytes, and its length.
pub fn replay(s: &[u8], t: &mut [u32], out: &mut [u8]) -> usize
    ensures { Replayed s.now t.old out.old result t.new out.new }
{
    if t.len() != TABLE_WORDS {
        return 0;
    }
    if out.len() < TEXT_MOST {
        return 0;
    }
    if JOURNAL_MOST < s.len() {
        let refusal = Refusal::JournalLong;
        return text::show(out, Err(Stopped::Unread { refusal }), t);
    }
    told(s, t, out)
}
