// The table for C: a fresh one, and each of the four actions on the caller's own words. Thin over the crate `table`.
ghost use Rattle.std.specs.Prelude.{◌≡◌, [], ◌∷◌};
ghost use Rattle.meaning.specs.declared.Action.TheVariants.{Write, Session, Purge};
ghost use Rattle.meaning.specs.Table.{fresh_refusal, made_fresh};
ghost use Rattle.answers.specs.Told.{Stepped, DeliveryTold};

use answers::{first_of, number_of, second_of};

// Makes a fresh table of n nodes of the words lent.
#[unsafe(no_mangle)]
pub extern "C" fn pollencart_fresh(table: &mut [u32], n: u32) -> u32
    ensures { (result ≡ fresh_refusal table.old n) × (table.new ≡ made_fresh table.old n) }
{
    match table::fresh(table, n) {
        Ok(()) => 0,
        Err(refusal) => refusal.into(),
    }
}

// A node writes a finding of its own.
#[unsafe(no_mangle)]
pub extern "C" fn pollencart_write(
    table: &mut [u32],
    node: u8,
    timestamp: u32,
    block: u32,
    verdict: u8,
) -> u32
    ensures { Stepped table.old (Write node timestamp block verdict) (result ∷ []) table.new }
{
    let answer = table::act::write(table, node, timestamp, block, verdict);
    number_of(answer)
}

// Two nodes hold a session; what it carried to each is stored.
#[unsafe(no_mangle)]
pub extern "C" fn pollencart_session(
    table: &mut [u32],
    a: u8,
    b: u8,
    ca: u32,
    cb: u32,
    outcome: u8,
    to_a: &mut u32,
    to_b: &mut u32,
) -> u32
    ensures { Stepped table.old (Session a b ca cb outcome) (result ∷ to_a.new ∷ to_b.new ∷ []) table.new }
{
    let answer = table::act::session(table, a, b, ca, cb, outcome);
    *to_a = first_of(answer);
    *to_b = second_of(answer);
    number_of(answer)
}

// A node drops what every node has acknowledged to it; how many records left is stored, and the node that lags.
#[unsafe(no_mangle)]
pub extern "C" fn pollencart_purge(
    table: &mut [u32],
    node: u8,
    removed: &mut u32,
    lags: &mut u32,
) -> u32
    ensures { Stepped table.old (Purge node) (result ∷ removed.new ∷ lags.new ∷ []) table.new }
{
    let answer = table::act::purge(table, node);
    *removed = first_of(answer);
    *lags = second_of(answer);
    number_of(answer)
}

// A node delivers what is due to it into the list lent, in the order that is the same everywhere; how many records it wrote there is stored.
#[unsafe(no_mangle)]
pub extern "C" fn pollencart_deliver(
    table: &mut [u32],
    node: u8,
    list: &mut [u32],
    delivered: &mut u32,
) -> u32
    ensures { DeliveryTold table.old list.old node (result ∷ delivered.new ∷ []) table.new list.new }
{
    let answer = table::act::deliver(table, list, node);
    *delivered = first_of(answer);
    number_of(answer)
}
