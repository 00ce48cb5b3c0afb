// Answers taken apart for C: a reply's numbers, a count's, a writer's, a checked line's.
#![tactic(auto)]

ghost use Rattle.std.specs.Prelude.{◌≡◌, [], ◌∷◌, ◌≤◌, get_or};
ghost use Rattle.meaning.specs.Steps.{reply_values};
ghost use Rattle.meaning.specs.Verdicts.{count_values};
ghost use Rattle.meaning.specs.Frames.{framed_values};
ghost use Rattle.meaning.specs.Refusals.{fault_values};

use meaning::{Count, Fault, Framed, Reply, Report};

// A reply's refusal number, 0 for none.
pub fn number_of(answer: Reply) -> u32
    ensures { result ≡ get_or (reply_values answer) 0 0 }
{
    match answer {
        Ok(_) => 0,
        Err(refusal) => refusal.into(),
    }
}

// A reply's first count: what a session carried to a, what a purge removed, or what a delivery gave.
pub fn first_of(answer: Reply) -> u32
    ensures { result ≡ get_or (reply_values answer) 1 0 }
{
    match answer {
        Ok(Report::Carried { a, .. }) => a,
        Ok(Report::Purged { removed, .. }) => removed,
        Ok(Report::Delivered { records }) => records,
        Ok(Report::Written) | Err(_) => 0,
    }
}

// A reply's second count: what a session carried to b, or the node that lags at a purge.
pub fn second_of(answer: Reply) -> u32
    ensures { result ≡ get_or (reply_values answer) 2 0 }
{
    match answer {
        Ok(Report::Carried { b, .. }) => b,
        Ok(Report::Purged { lags, .. }) => u32::from(lags),
        Ok(Report::Written | Report::Delivered { .. }) | Err(_) => 0,
    }
}

// Takes a count's answer apart: its number, and its two counts and their gap into the words lent.
pub fn store(answer: Count, scrubbed: &mut u32, touched: &mut u32, gap: &mut u32) -> u32
    ensures { (result ∷ scrubbed.new ∷ touched.new ∷ gap.new ∷ []) ≡ count_values answer }
{
    match answer {
        Ok(tally) => {
            *scrubbed = tally.scrubbed;
            *touched = tally.touched;
            *gap = tally.gap;
            0
        }
        Err(refusal) => {
            *scrubbed = 0;
            *touched = 0;
            *gap = 0;
            refusal.into()
        }
    }
}

// The writer's answer for C: the refusal number, 0 for none, and the length through the reference, 0 if refused.
pub fn report(answer: Framed, length: &mut u32) -> u32
    requires { get_or (framed_values answer) 1 0 ≤ 27 }
    ensures { (result ∷ length.new ∷ []) ≡ framed_values answer }
{
    match answer {
        Ok(bytes) => {
            *length = bytes as u32;
            0
        }
        Err(refused) => {
            *length = 0;
            refused.into()
        }
    }
}

// A checked line's answer for C: the refusal number, 0 for none, and its place in the line through the reference, 0 for none.
pub fn locate(answer: Option<Fault>, place: &mut usize) -> u32
    ensures { (result ∷ place.new ∷ []) ≡ fault_values answer }
{
    match answer {
        Some(fault) => {
            *place = fault.place;
            fault.refusal.into()
        }
        None => {
            *place = 0;
            0
        }
    }
}
