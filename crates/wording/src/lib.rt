// Words and numbers after them, printed one after the other.
// Each function's caller shows that the printer has room.
#![tactic(auto)]

ghost use Rattle.std.specs.Prelude.{[], ◌∷◌, ◌++◌, ◌+◌, ◌*◌, length};
ghost use Rattle.meaning.specs.Journals.{spaced};
ghost use Rattle.printing.specs.Printed.{Printed, Room};
ghost use Rattle.wording.specs.PrintedRow.{PrintedRow, row_most};

use printing::Printer;

// A row of numbers, each with a space before it.
fn row(printer: &mut Printer, vs: &[u32])
    requires { Room printer.old (21 * length vs.now) }
    ensures { Printed printer.old (spaced vs.now) (21 * length vs.now) printer.new }
{
    for v in vs {
        printer.entry(*v as usize);
    }
}

// A word, byte for byte.
fn word(printer: &mut Printer, w: &[u8])
    requires { Room printer.old (length w.now) }
    ensures { Printed printer.old w.now (length w.now) printer.new }
{
    let end = printer.at + w.len();
    printer.out[printer.at..end].copy_from_slice(w);
    printer.at = end;
}

// A word and one number after it.
pub fn said_one(printer: &mut Printer, w: &[u8], v: usize)
    requires { Room printer.old (length w.now + 21) }
    ensures { Printed printer.old (w.now ++ spaced (v ∷ [])) (length w.now + 21) printer.new }
{
    word(printer, w);
    printer.entry(v);
}

// A word and a row of numbers after it.
pub fn said_row(printer: &mut Printer, w: &[u8], vs: &[u32])
    requires { Room printer.old (row_most w.now vs.now) }
    ensures { PrintedRow printer.old w.now vs.now printer.new }
{
    word(printer, w);
    row(printer, vs);
}
