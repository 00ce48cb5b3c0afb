// Each kind's frame written into lent bytes that have room for it, by its fields, as numbers. Inner functions: what they require, the writers show.
#![tactic(auto)]

ghost use Rattle.std.specs.Prelude.{◌≡◌, [], ◌∷◌, ◌≤◌, length};
ghost use Rattle.meaning.specs.declared.Action.TheVariants.{Write, Session};
ghost use Rattle.meaning.specs.Table.{place};
ghost use Rattle.meaning.specs.Frames.{widths, packed, sealed, frame_of, frame};

use fields::{put_frame, put_line, seal, split};
use spelling::spell;

// The frame of a kind with one byte: a start, a purge or a delivery. The kind is a byte that is written, and selects nothing.
#[tactic(auto, using(crate::proofs::WriteLaws::short_frame))]
pub fn put_short(out: &mut [u8], kind: u8, n: u8)
    requires { (widths kind ≡ 1 ∷ []) × (7 ≤ length out.old) }
    ensures { out.new ≡ place 0 (frame_of kind (n ∷ [])) out.old }
{
    let mut b = [kind, n, 0];
    seal(&mut b);
    let mut d = [0; 6];
    spell(&b, &mut d);
    put_line(out, &d);
}

// The bytes of a write's frame. A write's fields and a session's go one by one, since a step built in memory only to be read back costs a frame a
// third to a half of its time (docs/DECISIONS.md, "By fields for C").
fn write_bytes(node: u8, timestamp: u32, block: u32, verdict: u8) -> [u8; 12]
    ensures { result ≡ sealed (1 ∷ packed (widths 1) (node ∷ timestamp ∷ block ∷ verdict ∷ [])) }
{
    let mut write = [1, node, 0, 0, 0, 0, 0, 0, 0, 0, verdict, 0];
    split(&mut write, 2, timestamp);
    split(&mut write, 6, block);
    seal(&mut write);
    write
}

// The frame of a write.
#[tactic(auto, unfolding(meaning::specs::Frames::frame, meaning::specs::Frames::frame_in))]
pub fn put_write(out: &mut [u8], node: u8, timestamp: u32, block: u32, verdict: u8)
    requires { 25 ≤ length out.old }
    ensures { out.new ≡ place 0 (frame (Write node timestamp block verdict)) out.old }
{
    put_frame(out, &write_bytes(node, timestamp, block, verdict));
}

// The bytes of a session's frame.
fn session_bytes(a: u8, b: u8, ca: u32, cb: u32, outcome: u8) -> [u8; 13]
    ensures { result ≡ sealed (2 ∷ packed (widths 2) (a ∷ b ∷ ca ∷ cb ∷ outcome ∷ [])) }
{
    let mut session = [2, a, b, 0, 0, 0, 0, 0, 0, 0, 0, outcome, 0];
    split(&mut session, 3, ca);
    split(&mut session, 7, cb);
    seal(&mut session);
    session
}

// The frame of a session.
#[tactic(auto, unfolding(meaning::specs::Frames::frame, meaning::specs::Frames::frame_in))]
pub fn put_session(out: &mut [u8], a: u8, b: u8, ca: u32, cb: u32, outcome: u8)
    requires { 27 ≤ length out.old }
    ensures { out.new ≡ place 0 (frame (Session a b ca cb outcome)) out.old }
{
    put_frame(out, &session_bytes(a, b, ca, cb, outcome));
}
