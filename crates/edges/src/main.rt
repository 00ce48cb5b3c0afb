// Edges that are run and not computed in a proof, some of their neighbours, and deliveries, over the library: the cases stand in the file stdin, a line
// each, and what they must print stands in the file stdout. Journals are walked with the reader.
#![tactic(auto)]

use input::Input;

mod cases;
mod say;
mod walk;

// Making tables: a count of 1 or 17 is refused, and the counts between are taken.
fn making(rt: &HostRuntime, t: &mut [u32]) {
    say::fresh(rt, t, b"count 1", 1);
    say::fresh(rt, t, b"count 2", 2);
    say::fresh(rt, t, b"count 16", 16);
    say::fresh(rt, t, b"count 17", 17);
}

// Making tables of words too few and too many for either form.
fn wrong_lengths(rt: &HostRuntime) {
    say::fresh(rt, &mut [0u32; 4640], b"4640 words", 2);
    say::fresh(rt, &mut [0u32; 4642], b"4642 words", 2);
    say::fresh(rt, &mut [0u32; 8224], b"8224 words", 2);
    say::fresh(rt, &mut [0u32; 8226], b"8226 words", 2);
}

// The cases on a table of one form.
fn on_form(rt: &HostRuntime, form: &str, t: &mut [u32], cases: &[u8]) {
    let _ = println!(rt; "{form}");
    making(rt, t);
    cases::all(rt, t, cases);
}

// Reads the cases into the lent bytes and tries them on a table of vectors, then on one of columns.
fn serve(rt: &HostRuntime, file: &mut [u8]) {
    wrong_lengths(rt);
    match input::read_all(&mut rt.stdin(), file) {
        Ok(Input::End(n)) => {
            on_form(rt, "vectors", &mut [0u32; 4641], &file[..n]);
            on_form(rt, "columns", &mut [0u32; 8225], &file[..n]);
        }
        _ => {
            let _ = print!(rt; "no cases0");
        }
    }
}

// Lends more bytes than the cases have.
fn main(rt: HostRuntime) {
    let mut file = [0u8; 16384];
    serve(&rt, &mut file);
}
