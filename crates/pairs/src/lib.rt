// The different pairs of origin and block of at most 64 records, in 64 slots with a chain each: no allocation, no list of more than 64.
// Inner functions: what they require, the crate `verdicts` shows. A record's number is 1 and its row, so that 0 is left for none.
#![tactic(auto)]

ghost use Rattle.std.specs.Prelude.{◌≡◌, ◌*◌, ◌-◌, ◌≤◌, ◌<◌, length, get_or, set, replicate, MatchOption};
ghost use Rattle.meaning.specs.Rows.{record_at};
ghost use Rattle.meaning.specs.Verdicts.{pair_of};
ghost use Rattle.pairs.specs.Chains.{Rising, Seeks, a_pair, slot_of};

// What tells a record from others that are counted once with it: they have the same origin and the same block.
#[derive(Clone, Copy, PartialEq, Eq)]
pub struct Pair {
    pub origin: u32,
    pub block: u32,
}

impl Pair {
    // The pair of the record of this number.
    pub fn of(words: &[u32], number: usize) -> Self
        requires { (0 < number) × (4 * number ≤ length words.now) }
        ensures { a_pair result.origin result.block ≡ pair_of (record_at words.now (number - 1)) }
    {
        Pair {
            origin: words[4 * number - 4],
            block: words[4 * number - 2],
        }
    }

    // Its slot. A block's is 1.012 slots after the one before, and an origin's 37.59: blocks that are read one after another, at one origin or at many,
    // hardly share a slot, and those at any other distance are spread.
    pub fn slot(self) -> usize
        ensures { (result ≡ slot_of (a_pair self.origin self.block)) × (result < 64) }
    {
        let mixed = 67915001 * (self.block as u64) + 2522691884 * (self.origin as u64);
        (mixed / 67108864 % 64) as usize
    }
}

// The first record of each slot, and the next of each record in its slot, by their numbers.
// Fixed memory: 128 bytes of numbers, 0 for none, where an `Option` of a byte would take two.
#[derive(Drop)]
pub struct Chains {
    pub heads: [u8; 64],
    pub links: [u8; 64],
}

// The number that a head or a link says, if any.
fn named(number: u8) -> Option<usize>
    ensures { MatchOption result (number ≡ 0) (λ named. (0 < named) × (named ≡ number)) }
{
    match number {
        0 => None,
        _ => Some(number as usize),
    }
}

impl Chains {
    // No record in any slot.
    pub fn new() -> Self
        ensures heads_none { result.heads ≡ replicate 64 0 }
        ensures links_none { result.links ≡ replicate 64 0 }
    {
        Chains {
            heads: [0; 64],
            links: [0; 64],
        }
    }

    // The first record of this pair in the chain of its slot.
    pub fn find(&self, words: &[u32], pair: Pair) -> Option<usize>
        requires rising { Rising words.now self.now.links }
        requires inside { 4 * get_or self.now.heads (slot_of (a_pair pair.origin pair.block)) 0 ≤ length words.now }
        ensures { let x = a_pair pair.origin pair.block in
            let ends_at = Seeks words.now self.now.links x (get_or self.now.heads (slot_of x) 0) in
            MatchOption result (ends_at 0) (λ number. (0 < number) × ends_at number) }
    {
        let mut next = self.heads[pair.slot()];
        while let Some(number) = named(next) {
            if pair == Pair::of(words, number) {
                return Some(number);
            }
            next = self.links[number - 1];
        }
        None
    }

    // Puts the record of this number and this pair into its slot, before the others there.
    pub fn put_first(&mut self, number: usize, pair: Pair)
        requires { (0 < number) × (number ≤ 64) }
        ensures heads_after { self.new.heads ≡ set self.old.heads (slot_of (a_pair pair.origin pair.block)) number }
        ensures links_after { self.new.links ≡ set self.old.links (number - 1) (get_or self.old.heads (slot_of (a_pair pair.origin pair.block)) 0) }
    {
        let slot = pair.slot();
        self.links[number - 1] = self.heads[slot];
        self.heads[slot] = number as u8;
    }
}
