// The verdict count: the different pairs of origin and block of at most 64 records, scrubbed and touched. Its definitions are those of the crate
// `meaning`, specs/Verdicts.antt.
#![tactic(auto)]

ghost use Rattle.std.specs.Prelude.{◌≡◌, true, ◌-◌, ◌*◌, ◌%◌, ◌<◌, ◌≤◌, length};
ghost use Rattle.meaning.specs.Rows.{record_at};
ghost use Rattle.meaning.specs.Table.{form_of, form_words, nodes_most, log_most, held, sound};
ghost use Rattle.meaning.specs.Verdicts.{class_of, is_scrubbed, is_touched, verdict_count, node_count};
ghost use Rattle.pairs.specs.Chains.{Noted, touched_at};

use layout::{LOG_WORDS, RECORD_WORDS};
use meaning::{Class, Count, Refusal, Tally};
use pairs::{Chains, Pair};

// "00–0F not read; 10–1F answered from page cache; 20–2F read from platter, good; 30–3F read from platter, bad;
// 40–4F repaired and read back; 50–FF reserved"
// No `impl From`: it would stand in the crate of `Class`, and the wrong programs `class_1f` and `class_50` edit this function here.
#[tactic(auto, using(crate::proofs::ArmRules::classes))]
pub fn class_of(v: u8) -> Class
    ensures { result ≡ class_of v }
{
    match v {
        0x00..=0x0f => Class::NotRead,
        0x10..=0x1f => Class::PageCache,
        0x20..=0x2f => Class::PlatterGood,
        0x30..=0x3f => Class::PlatterBad,
        0x40..=0x4f => Class::Repaired,
        0x50..=0xff => Class::Reserved,
    }
}

// "Scrubbed" is 10–4F.
fn is_scrubbed(c: Class) -> bool
    ensures { result ≡ is_scrubbed c }
{
    matches!(
        c,
        Class::PageCache | Class::PlatterGood | Class::PlatterBad | Class::Repaired
    )
}

// "touched" is 20–4F.
fn is_touched(c: Class) -> bool
    ensures { result ≡ is_touched c }
{
    matches!(c, Class::PlatterGood | Class::PlatterBad | Class::Repaired)
}

// Both tests of a verdict are functions of their own, so that the compiler makes one comparison of the class's many: a count of 64 different pairs takes
// 1,569 instructions so, and 1,694 where both tests are asked of one class.
fn scrubs(verdict: u8) -> bool
    ensures { result ≡ is_scrubbed (class_of verdict) }
{
    is_scrubbed(class_of(verdict))
}

fn touches(verdict: u8) -> bool
    ensures { result ≡ is_touched (class_of verdict) }
{
    is_touched(class_of(verdict))
}

// The pairs counted so far. The chains are not among its fields: in one struct with them both counts stay in memory, and 64 different pairs take 1,967
// instructions in place of 1,569.
#[derive(Drop)]
struct Counts {
    scrubbed: u32,
    touched: u32,
}

impl Counts {
    // Notes the pair of a scrubbed record: where it is new, or touched for the first time, the record stands for it from now on.
    fn note(&mut self, words: &[u32], chains: &mut Chains, number: usize, platter: bool)
        requires number_value { (0 < number) × (4 * number ≤ length words.now) }
        requires noted { Noted words.now number chains.old.heads chains.old.links self.old.scrubbed self.old.touched }
        requires is_scrubbed_value { is_scrubbed (class_of ((record_at words.now (number - 1)).verdict % 256)) ≡ true }
        requires platter_value { platter ≡ touched_at words.now number }
        ensures { Noted words.now (number - 1) chains.new.heads chains.new.links self.new.scrubbed self.new.touched }
    {
        let pair = Pair::of(words, number);
        match chains.find(words, pair) {
            None => {
                chains.put_first(number, pair);
                self.scrubbed += 1;
                self.touched += u32::from(platter);
            }
            Some(known) => {
                // the record that stands for the pair is a touched one if the pair has any
                if platter && !touches((words[4 * known - 1] % 256) as u8) {
                    chains.put_first(number, pair);
                    self.touched += 1;
                }
            }
        }
    }

    // A record, whose verdict has the low byte v: a scrubbed one is noted.
    fn count_record(&mut self, words: &[u32], chains: &mut Chains, number: usize, v: u8)
        requires number_value { (0 < number) × (4 * number ≤ length words.now) × (v ≡ (record_at words.now (number - 1)).verdict % 256) }
        requires noted { Noted words.now number chains.old.heads chains.old.links self.old.scrubbed self.old.touched }
        ensures { Noted words.now (number - 1) chains.new.heads chains.new.links self.new.scrubbed self.new.touched }
    {
        if scrubs(v) {
            self.note(words, chains, number, is_touched(class_of(v)));
        }
    }
}

// The count over whole records, in one pass from the last to the first. It has no early end: the verdicts' bits are gathered, and a verdict is
// above 255 where what they make is. A `while` over the words' end: a record that is not scrubbed takes seven instructions so, nine in a `for` over the
// numbers from 1, eleven in one over the rows from 0, and eight by `split_last_chunk`.
fn count_records(words: &[u32]) -> Count
    requires { (length words.now % 4 ≡ 0) × (length words.now ≤ 4 * log_most) }
    ensures { result ≡ verdict_count words.now }
{
    let mut chains = Chains::new();
    let mut counts = Counts {
        scrubbed: 0,
        touched: 0,
    };
    let mut seen: u32 = 0;
    let mut end = words.len();
    while 0 < end {
        let verdict = words[end - 1];
        seen |= verdict;
        let number = end / RECORD_WORDS;
        counts.count_record(words, &mut chains, number, (verdict % 256) as u8);
        end -= RECORD_WORDS;
    }
    if 255 < seen {
        return Err(Refusal::Unsound);
    }
    let Counts { scrubbed, touched } = counts;
    Ok(Tally {
        scrubbed,
        touched,
        gap: scrubbed - touched,
    })
}

// "Over a lent list of 0 to 64 records of four words (else, or with a verdict above 255, refusal 1 and zero counts)"
#[tactic(auto, using(crate::proofs::ArmRules::lengths))]
pub fn count(words: &[u32]) -> Count
    ensures { result ≡ verdict_count words.now }
{
    let len = words.len();
    if len % RECORD_WORDS != 0 {
        return Err(Refusal::Unsound);
    }
    if LOG_WORDS < len {
        return Err(Refusal::Unsound);
    }
    count_records(words)
}

// The count over the log of node p in a sound table.
fn count_log(t: &[u32], p: usize) -> Count
    requires t_len { (length t.now ≡ form_words (form_of t.now)) × (p < nodes_most) × (held t.now p ≤ log_most) }
    requires t_value { (sound t.now ≡ true) × (p < Rattle.meaning.specs.Table.count t.now) }
    ensures { result ≡ node_count t.now p }
{
    let held = layout::held_of(t, p) as usize;
    let from = layout::log_at(t, p);
    let to = from + RECORD_WORDS * held;
    count_records(&t[from..to])
}

// The count over a node's log inside a table: 1 for a table that is not sound, then 3 for a node out of range.
pub fn count_node(t: &[u32], node: u8) -> Count
    ensures { result ≡ node_count t.now node }
{
    if !soundness::is_sound(t) {
        return Err(Refusal::Unsound);
    }
    let p = node as usize;
    if layout::count_of(t) as usize <= p {
        return Err(Refusal::NodeAbsent);
    }
    count_log(t, p)
}
