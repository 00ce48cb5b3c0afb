// What C reads of a table: one scan for soundness a call, and 0 where there is none. Thin over the crate `entries`.
ghost use Rattle.std.specs.Prelude.{◌≡◌};
ghost use Rattle.entries.specs.Entries.{summary_entry, ack_entry, column_entry, held_number, record_word, mark_entry};

// A node's summary entry for an origin, on columns that of its own column.
#[unsafe(no_mangle)]
pub extern "C" fn pollencart_summary(table: &[u32], node: u8, origin: u8) -> u32
    ensures { result ≡ summary_entry table.now node origin }
{
    entries::summary_of(table, node, origin)
}

// What a node knows that another has acknowledged, 0 on columns.
#[unsafe(no_mangle)]
pub extern "C" fn pollencart_acknowledgement(table: &[u32], node: u8, of: u8) -> u32
    ensures { result ≡ ack_entry table.now node of }
{
    entries::ack_of(table, node, of)
}

// What a node knows that the node of a column has of an origin, 0 on vectors.
#[unsafe(no_mangle)]
pub extern "C" fn pollencart_column(table: &[u32], node: u8, column: u8, origin: u8) -> u32
    ensures { result ≡ column_entry table.now node column origin }
{
    entries::column_of(table, node, column, origin)
}

// The number of records that a node holds.
#[unsafe(no_mangle)]
pub extern "C" fn pollencart_held(table: &[u32], node: u8) -> u32
    ensures { result ≡ held_number table.now node }
{
    entries::held_number(table, node)
}

// One word of a held record, oldest first: origin, timestamp, block, verdict.
#[unsafe(no_mangle)]
pub extern "C" fn pollencart_record(table: &[u32], node: u8, index: u32, word: u32) -> u32
    ensures { result ≡ record_word table.now node index word }
{
    entries::record_word(table, node, index, word)
}

// A node's mark: it has delivered every record of a timestamp up to this.
#[unsafe(no_mangle)]
pub extern "C" fn pollencart_mark(table: &[u32], node: u8) -> u32
    ensures { result ≡ mark_entry table.now node }
{
    entries::mark_of(table, node)
}
