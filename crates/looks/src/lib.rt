// A table known to be sound, and its words read through their offsets.
#![tactic(auto)]

ghost use Rattle.std.specs.Prelude.{◌≡◌, ◌≤◌, ◌<◌, true};
ghost use Rattle.meaning.specs.Table.{nodes_most, log_most, count, held, mark, node, sound};
ghost use Rattle.meaning.specs.Node.{own};

// A table that is known to be sound, lent to be changed by steps.
#[derive(Drop)]
pub struct SoundTable<'a> {
    pub words: &'a mut [u32],
    ghost is_sound: { sound words.now ≡ true },
}

impl<'a> SoundTable<'a> {
    // n, the number of nodes.
    pub fn nodes(&self) -> usize
        ensures { (result ≡ count self.now.words.now) × (result ≤ nodes_most) }
    {
        layout::count_of(self.words) as usize
    }

    // The number of records in node p's log.
    pub fn held(&self, p: usize) -> usize
        requires { p < count self.now.words.now }
        ensures { (result ≡ held self.now.words.now p) × (result ≤ log_most) }
    {
        layout::held_of(self.words, p) as usize
    }

    // Node p's own summary entry.
    pub fn own(&self, p: usize) -> u32
        requires { p < count self.now.words.now }
        ensures { result ≡ own p (node self.now.words.now p) }
    {
        let at = layout::summary_at(self.words, p) + p;
        self.words[at]
    }

    // Node p's mark.
    pub fn mark(&self, p: usize) -> u32
        requires { p < count self.now.words.now }
        ensures { result ≡ mark self.now.words.now p }
    {
        self.words[layout::mark_at(self.words, p)]
    }
}
