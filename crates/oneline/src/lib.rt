// What one line does to a table that is there already. The entry point, `apply_line`, takes any words and any bytes at all.
#![tactic(auto)]

ghost use Rattle.std.specs.Prelude.{◌≡◌, true};
ghost use Rattle.meaning.specs.Frames.{wide};
ghost use Rattle.looks.specs.Applied.{Applied};
ghost use Rattle.oneline.specs.OneLine.{step_at, AppliedLine};

use meaning::{Answer, Refusal, Reply};

// The step of a line's six words, its kind and its fields, on any words of a table: what it reports; a refusal changes no word.
fn apply_words(t: &mut [u32], words: [u32; 6]) -> Reply
    requires { wide (step_at words) ≡ true }
    ensures { Applied t.old (step_at words) result t.new }
{
    let [kind, a, b, c, d, e] = words;
    let node = a as u8;
    match kind {
        1 => table::act::write(t, node, b, c, d as u8),
        2 => table::act::session(t, node, b as u8, c, d, e as u8),
        5 => table::act::deliver_alone(t, node),
        _ => table::act::purge(t, node),
    }
}

// One line on any words: what is wrong with the line, at its place, 15 for a start, or what its step reports; a refusal changes no word.
pub fn apply_line(t: &mut [u32], line: &[u8]) -> Answer
    ensures { AppliedLine t.old line.now result t.new }
{
    let mut words = [0u32; 6];
    if let Some(fault) = words::read_words(line, &mut words[..]) {
        return Err(fault);
    }
    if words[0] == 0 {
        return Err(Refusal::StartWrong.into());
    }
    Ok(apply_words(t, words)?)
}
