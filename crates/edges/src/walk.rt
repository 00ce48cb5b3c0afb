// A journal walked with the reader, line by line: where each line stands, its part of the journal, what it says, and its frame written back.
use crate::say;
use meaning::{Fault, Framed, Next, NextLine};
use reader::Reader;

// The bytes begin with the part and an LF after it.
fn is_frame(out: &[u8], part: &[u8]) -> bool {
    match out.strip_prefix(part) {
        Some([b'\n', ..]) => true,
        _ => false,
    }
}

// How a frame that was written compares with the line that was read.
fn compared(rt: &HostRuntime, out: &[u8], framed: Framed, part: &[u8]) {
    match framed {
        Ok(bytes) => {
            let alike = if is_frame(out, part) {
                "alike"
            } else {
                "another line"
            };
            let _ = print!(rt; ", written back in {bytes} bytes, {alike}");
        }
        Err(refusal) => {
            let number = u32::from(refusal);
            let _ = print!(rt; ", not written back: {number}");
        }
    }
}

// What a line says, with its frame written back.
fn said(rt: &HostRuntime, line: NextLine, part: &[u8]) {
    let mut out = [0u8; 32];
    let framed = match line {
        NextLine::Begin { n, .. } => {
            let _ = print!(rt; " starts {n}");
            writing::write_start(&mut out, n)
        }
        NextLine::Act { step, .. } => writing::write_step(&mut out, step),
    };
    compared(rt, &out, framed, part);
}

// A refusal, and the line that is refused: the reader's part is empty then, the finder's is the line, or empty where no LF ends one.
fn refused(rt: &HostRuntime, reader: Reader, fault: Fault) {
    say::refusal(rt, fault);
    let _ = print!(rt; " of '");
    say::text(rt, finder::line(reader.journal, reader.at));
    let _ = print!(rt; "'");
}

// What the reader found.
fn answer(rt: &HostRuntime, reader: Reader, found: Next, part: &[u8]) {
    match found {
        Ok(Some(line)) => said(rt, line, part),
        Ok(None) => {
            let _ = print!(rt; "the end");
        }
        Err(fault) => refused(rt, reader, fault),
    }
}

// The line where the reader stands, and the reader after it.
fn one<'a>(rt: &HostRuntime, reader: Reader<'a>, line: usize) -> Reader<'a> {
    let part = reader.part(line);
    let after = reader.moved(line);
    let at = reader.at;
    let to = after.at;
    let _ = print!(rt; "line {line} at {at} to {to}: ");
    say::text(rt, part);
    answer(rt, reader, reader.next(line), part);
    let _ = println!(rt; "");
    after
}

// From the journal's start to its end or the first refused line, ten lines at most.
pub(crate) fn journal(rt: &HostRuntime, name: &[u8], s: &[u8]) {
    say::text(rt, name);
    let _ = println!(rt; "");
    let mut reader = Reader::new(s, 0);
    for line in 1..11 {
        let after = one(rt, reader, line);
        if after.at == reader.at {
            break;
        }
        reader = after;
    }
}
