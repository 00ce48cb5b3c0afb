// What a case prints: its name, then what the library answered.
ghost use Rattle.std.specs.Prelude.{◌≤◌, ◌<◌};
ghost use Rattle.meaning.specs.Table.{nodes_most};

use meaning::{Fault, Reply, Report};

// Bytes as they are. A write that fails, here and below, is passed over, and the next one is tried: what the program printed is compared.
pub(crate) fn text(rt: &HostRuntime, bytes: &[u8]) {
    let _ = rt.stdout().write_all(bytes);
}

// A number of all the words: it differs where one word differs.
pub(crate) fn digest(t: &[u32]) -> u64 {
    t.iter()
        .fold(0, |sum: u64, word| sum % 4294967296 * 31 + *word as u64)
}

// How many nodes have a held number to print: those below the count, of which a table has 16 at most.
fn nodes(t: &[u32]) -> usize
    ensures { result ≤ nodes_most }
{
    let count = t.get(layout::COUNT_AT).copied().unwrap_or(0);
    layout::NODES_MOST.min(count as usize)
}

// A node's held number, 0 where the length is no table's.
fn held_by(t: &[u32], p: usize) -> u32
    requires { p < nodes_most }
{
    if layout::is_long(t) {
        layout::held_of(t, p)
    } else {
        0
    }
}

// Each node's held number.
fn held(rt: &HostRuntime, t: &[u32]) {
    for p in 0..nodes(t) {
        let held = held_by(t, p);
        let _ = print!(rt; " {held}");
    }
}

// The refusal number of a reply, 0 for none, and its two counts.
fn values(r: Reply) -> (u32, u32, u32) {
    match r {
        Ok(Report::Written) => (0, 0, 0),
        Ok(Report::Carried { a, b }) => (0, a, b),
        Ok(Report::Purged { removed, lags }) => (0, removed, u32::from(lags)),
        Ok(Report::Delivered { records }) => (0, records, 0),
        Err(refusal) => (u32::from(refusal), 0, 0),
    }
}

// One line: the case, the reply's values, each node's held number, and the number of all the words. It says so if a refused step changed a word.
pub(crate) fn reply(rt: &HostRuntime, t: &[u32], name: &[u8], r: Reply, before: u64) {
    let (number, first, second) = values(r);
    let words = digest(t);
    text(rt, name);
    let _ = print!(rt; ": refusal {number} counts {first} {second} held");
    held(rt, t);
    let _ = println!(rt; " words {words}");
    if r.is_err() && words != before {
        let _ = println!(rt; "a refused step changed the table");
    }
}

// Making a table of n nodes of these words.
pub(crate) fn fresh(rt: &HostRuntime, t: &mut [u32], name: &[u8], n: u32) {
    let before = digest(t);
    let made = table::fresh(t, n).map(|_| Report::Written);
    reply(rt, t, name, made, before);
}

// A refusal, and its place in the line.
pub(crate) fn refusal(rt: &HostRuntime, fault: Fault) {
    let number = u32::from(fault.refusal);
    let at = fault.place;
    let _ = print!(rt; "refusal {number} at {at}");
}

// A single line, given to the frame reader: the refusal and its place, or none.
pub(crate) fn frame(rt: &HostRuntime, name: &[u8]) {
    let _ = print!(rt; "line ");
    text(rt, name);
    let _ = print!(rt; ": ");
    match reading::read_line(name, 1) {
        Ok(_) => {
            let _ = print!(rt; "refusal 0");
        }
        Err(fault) => refusal(rt, fault),
    }
    let _ = println!(rt; "");
}
