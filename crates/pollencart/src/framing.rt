// Frames for C: check a line, read all of it at once, its kind and fields one by one, write each kind. Thin over `reading`, `words` and `writing`.
ghost use Rattle.std.specs.Prelude.{◌≡◌, [], ◌∷◌, ◌+◌, get_or};
ghost use Rattle.meaning.specs.declared.Action.TheVariants.{Write, Session, Purge, Deliver};
ghost use Rattle.meaning.specs.Frames.{read_line, line_fault, line_values};
ghost use Rattle.meaning.specs.Refusals.{fault_values};
ghost use Rattle.answers.specs.Told.{LineRead, Framed, Started};

use answers::{locate, report};

// 0 for a line that reads as a start or a step, else the number of its refusal, and its place in the line through the reference, 0 for none.
#[unsafe(no_mangle)]
pub extern "C" fn pollencart_check_line(line: &[u8], place: &mut usize) -> u32
    ensures { (result ∷ place.new ∷ []) ≡ fault_values (line_fault line.now) }
{
    let fault = reading::check(line);
    locate(fault, place)
}

// The same, with 17 after the line's refusals for fewer than six words, and the line's kind and all its fields in the first six; a refusal changes none.
#[unsafe(no_mangle)]
pub extern "C" fn pollencart_read_line(line: &[u8], values: &mut [u32], place: &mut usize) -> u32
    ensures { LineRead line.now values.old (result ∷ place.new ∷ []) values.new }
{
    let fault = words::read_words(line, values);
    locate(fault, place)
}

// The kind of a line, 0 for one that is refused. A start's is 0 too: the check tells them apart.
#[unsafe(no_mangle)]
pub extern "C" fn pollencart_kind(line: &[u8]) -> u32
    ensures { result ≡ get_or (line_values (read_line 0 line.now)) 2 0 }
{
    reading::kind(line)
}

// The field of a line at this place among its kind's fields, from 0; 0 for a refused line and for a field that the kind has not.
#[unsafe(no_mangle)]
pub extern "C" fn pollencart_field(line: &[u8], index: u32) -> u32
    ensures { result ≡ get_or (line_values (read_line 0 line.now)) (3 + index) 0 }
{
    reading::field(line, index)
}

// Writes a start's frame, LF included, from place 0.
#[unsafe(no_mangle)]
pub extern "C" fn pollencart_frame_start(out: &mut [u8], n: u8, length: &mut u32) -> u32
    ensures { Started out.old n (result ∷ length.new ∷ []) out.new }
{
    let answer = writing::write_start(out, n);
    report(answer, length)
}

// Writes a write's frame, LF included, from place 0.
#[unsafe(no_mangle)]
pub extern "C" fn pollencart_frame_write(
    out: &mut [u8],
    node: u8,
    timestamp: u32,
    block: u32,
    verdict: u8,
    length: &mut u32,
) -> u32
    ensures { Framed out.old (Write node timestamp block verdict) (result ∷ length.new ∷ []) out.new }
{
    let answer = writing::write::write(out, node, timestamp, block, verdict);
    report(answer, length)
}

// Writes a session's frame, LF included, from place 0.
#[unsafe(no_mangle)]
pub extern "C" fn pollencart_frame_session(
    out: &mut [u8],
    a: u8,
    b: u8,
    ca: u32,
    cb: u32,
    outcome: u8,
    length: &mut u32,
) -> u32
    ensures { Framed out.old (Session a b ca cb outcome) (result ∷ length.new ∷ []) out.new }
{
    let answer = writing::write::session(out, a, b, ca, cb, outcome);
    report(answer, length)
}

// Writes a purge's frame, LF included, from place 0.
#[unsafe(no_mangle)]
pub extern "C" fn pollencart_frame_purge(out: &mut [u8], node: u8, length: &mut u32) -> u32
    ensures { Framed out.old (Purge node) (result ∷ length.new ∷ []) out.new }
{
    let answer = writing::write::purge(out, node);
    report(answer, length)
}

// Writes a delivery's frame, LF included, from place 0.
#[unsafe(no_mangle)]
pub extern "C" fn pollencart_frame_deliver(out: &mut [u8], node: u8, length: &mut u32) -> u32
    ensures { Framed out.old (Deliver node) (result ∷ length.new ∷ []) out.new }
{
    let answer = writing::write::deliver(out, node);
    report(answer, length)
}
