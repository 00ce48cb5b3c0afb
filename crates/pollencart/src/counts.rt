// The verdict count for C: the refusal number is returned, both counts and their gap are stored, zero if refused.
ghost use Rattle.std.specs.Prelude.{◌≡◌, [], ◌∷◌};
ghost use Rattle.meaning.specs.Verdicts.{verdict_count, node_count, count_values};

use answers::store;

// The verdict count over a lent list of records.
#[unsafe(no_mangle)]
pub extern "C" fn pollencart_count(
    words: &[u32],
    scrubbed: &mut u32,
    touched: &mut u32,
    gap: &mut u32,
) -> u32
    ensures { (result ∷ scrubbed.new ∷ touched.new ∷ gap.new ∷ []) ≡ count_values (verdict_count words.now) }
{
    store(verdicts::count(words), scrubbed, touched, gap)
}

// The verdict count over a node's log in a lent table.
#[unsafe(no_mangle)]
pub extern "C" fn pollencart_count_node(
    table: &[u32],
    node: u8,
    scrubbed: &mut u32,
    touched: &mut u32,
    gap: &mut u32,
) -> u32
    ensures { (result ∷ scrubbed.new ∷ touched.new ∷ gap.new ∷ []) ≡ count_values (node_count table.now node) }
{
    store(verdicts::count_node(table, node), scrubbed, touched, gap)
}
