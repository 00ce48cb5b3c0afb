// The replay program: a journal on standard input, what a replay of it prints on standard output.
// All that matters is `run::replay`; here stand a read to the end, a call and a write. Where the read or the write fails, a line on standard error
// says why, and after a failed read nothing is printed.
#![tactic(auto)]

use input::Input;
use std::fmt::Display;

// A line on standard error: what failed, and why. Where that fails too, nobody is left to tell.
fn fail<W: Display + Drop>(rt: &HostRuntime, what: &str, why: W) {
    let _ = eprintln!(rt; "replay: {what}: {why}");
}

// Prints what a journal gives.
fn print(rt: &HostRuntime, journal: &[u8]) {
    let mut table = [0u32; 4641];
    let mut out = [0u8; 12288];
    let k = run::replay(journal, &mut table, &mut out);
    if let Err(e) = rt.stdout().write_all(&out[..k]) {
        fail(rt, "writing the result", e);
    }
}

// Reads the journal into the lent bytes and prints what it gives, or says why it could not be read and prints nothing.
fn serve(rt: &HostRuntime, journal: &mut [u8]) {
    match input::read_all(&mut rt.stdin(), journal) {
        Ok(Input::End(n)) => print(rt, &journal[..n]),
        Ok(Input::Full) => print(rt, journal),
        Ok(Input::More(_)) => fail(rt, "reading the journal", "no end of it was found"),
        Err(e) => fail(rt, "reading the journal", e),
    }
}

// Lends one byte more than a journal may have, so that one too long is known.
fn main(rt: HostRuntime) {
    let mut journal = [0u8; 65537];
    serve(&rt, &mut journal);
}
