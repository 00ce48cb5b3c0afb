// Bytes and numbers in decimal, printed into a lent buffer one after the other.
// Each method writes at the printer's place and leaves there the place after what it wrote; its caller shows that there is room.
#![tactic(auto)]

ghost use Rattle.std.specs.Prelude.{[], ◌∷◌, ◌+◌, ◌≤◌, length};
ghost use Rattle.meaning.specs.Journals.{decimal_in, decimal, spaced};
ghost use Rattle.printing.specs.Printed.{Printed, Room};
ghost use Rattle.printing.specs.Wrote.{Wrote};

// A number in decimal at a place of a buffer, of at most so many digits, the higher ones first, and the place after it.
// Over a place of its own: a printer's place would go through memory at each digit.
fn digits(out: &mut [u8], at: usize, most: usize, v: usize) -> usize
    requires { at + most ≤ length out.old }
    ensures { Wrote out.old at (decimal_in most v) most result out.new }
{
    if most == 0 {
        return at;
    }
    // One digit ends here: put after the call instead, a number of one digit takes twice as many instructions.
    if v < 10 {
        out[at] = b'0' + (v % 10) as u8;
        return at + 1;
    }
    let end = digits(out, at, most - 1, v / 10);
    out[end] = b'0' + (v % 10) as u8;
    end + 1
}

// A lent buffer and the place in it where the next byte goes.
#[derive(Drop)]
pub struct Printer<'a> {
    pub out: &'a mut [u8],
    pub at: usize,
}

impl<'a> Printer<'a> {
    // One byte.
    pub fn put(&mut self, b: u8)
        requires { Room self.old 1 }
        ensures { Printed self.old (b ∷ []) 1 self.new }
    {
        self.out[self.at] = b;
        self.at += 1;
    }

    // A number in decimal: 20 digits are enough for every one.
    pub fn number(&mut self, v: usize)
        requires { Room self.old 20 }
        ensures { Printed self.old (decimal v) 20 self.new }
    {
        self.at = digits(self.out, self.at, 20, v);
    }

    // A number with a space before it.
    pub fn entry(&mut self, v: usize)
        requires { Room self.old 21 }
        ensures { Printed self.old (spaced (v ∷ [])) 21 self.new }
    {
        self.put(b' ');
        self.number(v);
    }
}
