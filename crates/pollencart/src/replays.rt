// The replay of a journal for C. Thin over the crate `run`.
ghost use Rattle.run.specs.Run.{Replayed};

// What the program prints of a journal, from place 0 of the bytes lent; the number of bytes written is returned.
#[unsafe(no_mangle)]
pub extern "C" fn pollencart_replay(journal: &[u8], table: &mut [u32], out: &mut [u8]) -> u32
    ensures { Replayed journal.now table.old out.old result table.new out.new }
{
    let written = run::replay(journal, table, out);
    written as u32
}
