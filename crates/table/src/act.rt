// One action by its fields, on any words at all: what `apply` does with a step, but no step is built in memory and read back. What C calls.
ghost use Rattle.meaning.specs.declared.Action.TheVariants.{Write, Session, Purge, Deliver};
ghost use Rattle.looks.specs.Applied.{Applied};
ghost use Rattle.deliveries.specs.Lent.{Lent};

use crate::scanned;
use looks::SoundTable;
use meaning::Reply;

// A write: the refusal, or that it is done; a refusal changes no word.
pub fn write(t: &mut [u32], node: u8, timestamp: u32, block: u32, verdict: u8) -> Reply
    ensures { Applied t.old (Write node timestamp block verdict) result t.new }
{
    scanned(t)?;
    writes::write(
        &mut SoundTable { words: t },
        node,
        timestamp,
        block,
        verdict,
    )
}

// A session: the refusal, or what it carried to each side; a refusal changes no word.
pub fn session(t: &mut [u32], a: u8, b: u8, ca: u32, cb: u32, outcome: u8) -> Reply
    ensures { Applied t.old (Session a b ca cb outcome) result t.new }
{
    scanned(t)?;
    sessions::session(&mut SoundTable { words: t }, a, b, ca, cb, outcome)
}

// A purge: the refusal, or how many records left; a refusal changes no word.
pub fn purge(t: &mut [u32], node: u8) -> Reply
    ensures { Applied t.old (Purge node) result t.new }
{
    scanned(t)?;
    purges::purge(&mut SoundTable { words: t }, node)
}

// A delivery into a lent list of any length: the refusal, or how many records it wrote there; a refusal changes no word of either.
pub fn deliver(t: &mut [u32], list: &mut [u32], node: u8) -> Reply
    ensures { Lent t.old list.old node result t.new list.new }
{
    scanned(t)?;
    deliveries::deliver(&mut SoundTable { words: t }, list, node)
}

// A delivery into a list of its own, which has room for all: the refusal, or how many records were due; a refusal changes no word.
pub fn deliver_alone(t: &mut [u32], node: u8) -> Reply
    ensures { Applied t.old (Deliver node) result t.new }
{
    scanned(t)?;
    deliveries::deliver_alone(&mut SoundTable { words: t }, node)
}
