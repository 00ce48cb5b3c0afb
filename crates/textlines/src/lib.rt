// The lines of a replay's text that are not a node's, printed one after the other.
// Each function's caller shows that the printer has room.
#![tactic(auto)]

ghost use Rattle.meaning.specs.Refusals.{number_of};
ghost use Rattle.printing.specs.Printed.{Printed, Room};
ghost use Rattle.textlines.specs.TextLines.{bad_line, unread_line, first_line};

use meaning::{Done, Fault, Refusal};
use printing::Printer;
use wording::said_one;

// A refused line: `BAD`, the line's number, the refusal's number and its place in the line.
pub fn bad_line(printer: &mut Printer, line: usize, fault: Fault)
    requires { Room printer.old 67 }
    ensures { Printed printer.old (bad_line line (number_of fault.refusal) fault.place) 67 printer.new }
{
    let number = u32::from(fault.refusal) as usize;
    said_one(printer, b"BAD", line);
    printer.entry(number);
    printer.entry(fault.place);
    printer.put(b'\n');
}

// A refusal that has neither line nor place: `BAD`, 0 for the line, and the refusal's number.
pub fn unread_line(printer: &mut Printer, refusal: Refusal)
    requires { Room printer.old 46 }
    ensures { Printed printer.old (unread_line (number_of refusal)) 46 printer.new }
{
    let number = u32::from(refusal) as usize;
    said_one(printer, b"BAD", 0);
    printer.entry(number);
    printer.put(b'\n');
}

// The first line: `N` and the count, `STEPS` and all step lines, `REFUSED` and those refused.
pub fn first_line(printer: &mut Printer, done: Done)
    requires { Room printer.old 79 }
    ensures { Printed printer.old (first_line done.n done.steps done.refused) 79 printer.new }
{
    said_one(printer, b"N", done.n as usize);
    said_one(printer, b" STEPS", done.steps);
    said_one(printer, b" REFUSED", done.refused);
    printer.put(b'\n');
}
