// The parts of a node's line, printed one after the other: a row of a table, a held number.
// Each method's caller shows that the printer has room.
#![tactic(auto)]

ghost use Rattle.std.specs.Prelude.{[], ◌∷◌, ◌+◌, ◌≤◌, ◌<◌, length};
ghost use Rattle.meaning.specs.Table.{nodes_most, held};
ghost use Rattle.meaning.specs.Journals.{said};
ghost use Rattle.printing.specs.Printed.{Printed, Room};
ghost use Rattle.nodeparts.specs.Nodes.{Nodes, said_part};

use printing::Printer;

// A table of vectors, which alone are printed, whose count is one that its rows have room for.
#[derive(Clone, Copy)]
pub struct VectorTable<'a> {
    pub words: &'a [u32],
    ghost nodes: { Nodes words.now },
}

#[tactic(auto, using(crate::proofs::PartLaws::long_form))]
impl<'a> VectorTable<'a> {
    // A word and the first n entries of the table's row at a place.
    pub fn vector(&self, printer: &mut Printer, w: &[u8], from: usize)
        requires { (from + nodes_most ≤ length self.now.words.now) × Room printer.old (length w.now + 336) }
        ensures { Printed printer.old (said_part w.now self.now.words.now from) (length w.now + 336) printer.new }
    {
        let n = layout::count_of(self.words);
        wording::said_row(printer, w, &self.words[from..from + n as usize]);
    }

    // `L` and the held number.
    pub fn held_part(&self, printer: &mut Printer, p: usize)
        requires { (p < nodes_most) × Room printer.old 23 }
        ensures { Printed printer.old (said " L" (held self.now.words.now p ∷ [])) 23 printer.new }
    {
        wording::said_one(printer, b" L", layout::held_of(self.words, p) as usize);
    }
}
