// Lines on the caller's own table for C: one, and many at once. Thin over the crate `lines`.
ghost use Rattle.std.specs.Prelude.{[], ◌∷◌};
ghost use Rattle.answers.specs.Told.{LineTold, LinesTold};

use answers::{first_of, locate, second_of};

// Reads a line, without its LF, and applies its step; what a session carried to each side, a purge removed or a delivery would give is stored,
// and the place in the line where it is the line that is refused, else 0.
#[unsafe(no_mangle)]
pub extern "C" fn pollencart_apply_line(
    table: &mut [u32],
    line: &[u8],
    first: &mut u32,
    second: &mut u32,
    place: &mut usize,
) -> u32
    ensures { LineTold table.old line.now
        (result ∷ first.new ∷ second.new ∷ place.new ∷ []) table.new }
{
    match oneline::apply_line(table, line) {
        Ok(report) => {
            *first = first_of(Ok(report));
            *second = second_of(Ok(report));
            *place = 0;
            0
        }
        Err(fault) => {
            *first = 0;
            *second = 0;
            locate(Some(fault), place)
        }
    }
}

// Reads lines, each ended by an LF, and applies their steps, up to the first refused line; how far they came and the place in that line are
// stored.
#[unsafe(no_mangle)]
pub extern "C" fn pollencart_apply_lines(
    table: &mut [u32],
    lines: &[u8],
    applied: &mut usize,
    refused: &mut usize,
    stopped: &mut usize,
    place: &mut usize,
) -> u32
    ensures { LinesTold table.old lines.now
        (result ∷ applied.new ∷ refused.new ∷ stopped.new ∷ place.new ∷ []) table.new }
{
    let came = lines::apply_lines(table, lines);
    *applied = came.steps;
    *refused = came.refused;
    *stopped = came.stop;
    locate(came.fault, place)
}
