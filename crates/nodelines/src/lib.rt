// The nodes' lines of a replay's text, one line a node, printed by the parts of the crate `nodeparts`.
// Each function's caller shows that the printer has room.
#![tactic(auto)]

ghost use Rattle.std.specs.Prelude.{◌*◌, ◌≤◌, ◌<◌};
ghost use Rattle.meaning.specs.Table.{nodes_most, node};
ghost use Rattle.meaning.specs.Journals.{node_line, node_lines};
ghost use Rattle.printing.specs.Printed.{Printed, Room};

use nodeparts::VectorTable;
use printing::Printer;

// A node's line: its number, `S` and n summary entries, `K` and n acknowledgements, `L` and the held number, all decimal.
#[tactic(auto, using(nodeparts::proofs::PartLaws::long_form))]
fn node_line(printer: &mut Printer, p: usize, table: &VectorTable)
    requires { (p < nodes_most) × Room printer.old 720 }
    ensures { Printed printer.old (node_line p (node table.now.words.now p)) 720 printer.new }
{
    printer.number(p);
    table.vector(printer, b" S", layout::summary_at(table.words, p));
    table.vector(printer, b" K", layout::acks_at(p));
    table.held_part(printer, p);
    printer.put(b'\n');
}

// The lines of the first n nodes.
pub fn node_lines(printer: &mut Printer, n: usize, table: &VectorTable)
    requires { (n ≤ nodes_most) × Room printer.old (720 * n) }
    ensures { Printed printer.old (node_lines n table.now.words.now) (720 * n) printer.new }
{
    for p in 0..n {
        node_line(printer, p, table);
    }
}
