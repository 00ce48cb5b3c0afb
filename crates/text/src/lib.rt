// The printed text of a replay, written into a lent buffer: its first line, of the crate `textlines`, and the nodes' lines, of `nodelines`.
#![tactic(auto)]

ghost use Rattle.std.specs.Prelude.{◌++◌, ◌≤◌, Ok};
ghost use Rattle.meaning.specs.Table.{nodes_most};
ghost use Rattle.meaning.specs.Journals.{node_lines};
ghost use Rattle.printing.specs.Printed.{Printed, Room};
ghost use Rattle.textlines.specs.TextLines.{first_line};
ghost use Rattle.text.specs.Text.{Shown, text_most, text_for};

use layout::{COUNT_AT, NODES_MOST, TABLE_WORDS};
use meaning::{Done, Outcome, Stopped};
use nodeparts::VectorTable;
use printing::Printer;

// Room for the text of every outcome.
pub const TEXT_MOST: usize = 12288;

// The text of a replay that came to its end: its first line and the nodes' lines.
fn all_lines(printer: &mut Printer, done: Done, table: &VectorTable)
    requires { (done.n ≤ nodes_most) × Room printer.old text_most }
    ensures { Printed printer.old (first_line done.n done.steps done.refused ++ node_lines done.n table.now.words.now) text_most printer.new }
{
    textlines::first_line(printer, done);
    nodelines::node_lines(printer, done.n as usize, table);
}

// The text of a replay that came to its end, or nothing where the table has not the words.
fn done_text(printer: &mut Printer, done: Done, t: &[u32])
    requires { Room printer.old text_most }
    ensures { Printed printer.old (text_for printer.old.out.now (Ok done) t.now) text_most printer.new }
{
    let most = NODES_MOST as u32;
    if t.len() == TABLE_WORDS && t[COUNT_AT] <= most && done.n <= most {
        all_lines(printer, done, &VectorTable { words: t });
    }
}

// The text of a replay's outcome.
fn outcome_text(printer: &mut Printer, outcome: Outcome, t: &[u32])
    requires { Room printer.old text_most }
    ensures { Printed printer.old (text_for printer.old.out.now outcome t.now) text_most printer.new }
{
    match outcome {
        Ok(done) => done_text(printer, done, t),
        Err(Stopped::Bad { line, fault }) => textlines::bad_line(printer, line, fault),
        Err(Stopped::Unread { refusal }) => textlines::unread_line(printer, refusal),
    }
}

// The text of a replay's outcome and table, from place 0 of the buffer, and its length.
// Nothing is written into a buffer of less than TEXT_MOST bytes, or where the table has not the words to print.
pub fn show(out: &mut [u8], outcome: Outcome, t: &[u32]) -> usize
    ensures { Shown out.old (text_for out.old outcome t.now) result out.new }
{
    if out.len() < TEXT_MOST {
        return 0;
    }
    let mut printer = Printer { out, at: 0 };
    outcome_text(&mut printer, outcome, t);
    printer.at
}
