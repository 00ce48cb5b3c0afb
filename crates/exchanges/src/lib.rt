// The exchange of a session: both sides, each from what the other began with.
// Inner functions: what they require, the table's entry points show.
#![tactic(auto)]

ghost use Rattle.exchanges.specs.Met.{Exchanged, Meets, TradeDone, Trades};

use meaning::{Refusal, Reply, Report};
use openings::{Party, Start, Which, finishes, overfills};
use sides::side;

// Both sides of a session that has room, each from the starting values. b is shown as many of a's records as a began with. On columns b reads those that
// a left: where a finished they are raised by b's columns, and b takes from them what it would have taken from those that a began with; a's own column,
// which took more, is lent as it began.
fn both_sides(t: &mut [u32], a: &Party, b: &Party) -> Reply
    requires { Trades t.old a.now b.now }
    ensures { TradeDone t.old a.now b.now result t.new }
{
    let now_a = side(t, a, b);
    let now_b = side(t, b, a);
    Ok(Report::Carried {
        a: (now_a - a.held) as u32,
        b: (now_b - b.held) as u32,
    })
}

// The session between two nodes whose readings are in order: refused with 6, or both sides done.
pub fn exchange(t: &mut [u32], outcome: u8, a: Start, b: Start) -> Reply
    requires { Meets t.old a b }
    ensures { Exchanged t.old outcome a.entry b.entry result t.new }
{
    let a = Party {
        start: a,
        finishes: finishes(outcome, Which::A),
        held: layout::held_of(t, a.node) as usize,
    };
    let b = Party {
        start: b,
        finishes: finishes(outcome, Which::B),
        held: layout::held_of(t, b.node) as usize,
    };
    if overfills(t, &a, &b) || overfills(t, &b, &a) {
        return Err(Refusal::LogFull);
    }
    both_sides(t, &a, &b)
}
