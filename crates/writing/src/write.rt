// The writers of each kind of frame, by its fields, as numbers, so that no step is built in memory and read back: what C calls
// (docs/DECISIONS.md, "By fields for C", has what that cost).
ghost use Rattle.std.specs.Prelude.{◌≡◌, ◌<◌, ◌≤◌, [], ◌∷◌, true, length, OnOk, IfErr};
ghost use Rattle.meaning.specs.declared.Action.TheVariants.{Write, Session, Purge, Deliver};
ghost use Rattle.meaning.specs.declared.Refusal.TheVariants.{RoomShort};
ghost use Rattle.meaning.specs.Table.{count_right};
ghost use Rattle.meaning.specs.Frames.{widths, frame_of, Wrote, Began};
ghost use Rattle.writing.specs.Filled.{Filled};

use frames::{put_session, put_short, put_write};
use meaning::{Framed, Refusal};

// Whether the lent bytes have room for a frame of n.
fn room(out: &[u8], n: usize) -> Result<(), Refusal>
    ensures ok { OnOk result (n ≤ length out.now) }
    ensures err { IfErr result (λ e. (e ≡ RoomShort) × (length out.now < n)) }
{
    if out.len() < n {
        return Err(Refusal::RoomShort);
    }
    Ok(())
}

// A frame of a kind with one byte into lent bytes: refused where they are too few.
fn short(out: &mut [u8], kind: u8, n: u8) -> Framed
    requires { widths kind ≡ 1 ∷ [] }
    ensures { Filled out.old (frame_of kind (n ∷ [])) result out.new }
{
    room(out, 7)?;
    put_short(out, kind, n);
    Ok(7)
}

// A write's frame into lent bytes: refused where they are too few.
pub fn write(out: &mut [u8], node: u8, timestamp: u32, block: u32, verdict: u8) -> Framed
    ensures { Wrote out.old (Write node timestamp block verdict) result out.new }
{
    room(out, 25)?;
    put_write(out, node, timestamp, block, verdict);
    Ok(25)
}

// A session's frame into lent bytes: refused for an outcome above 3, then where they are too few.
pub fn session(out: &mut [u8], a: u8, b: u8, ca: u32, cb: u32, outcome: u8) -> Framed
    ensures { Wrote out.old (Session a b ca cb outcome) result out.new }
{
    if 3 < outcome {
        return Err(Refusal::SessionOutcome);
    }
    room(out, 27)?;
    put_session(out, a, b, ca, cb, outcome);
    Ok(27)
}

// A purge's frame into lent bytes: refused where they are too few.
pub fn purge(out: &mut [u8], node: u8) -> Framed
    ensures { Wrote out.old (Purge node) result out.new }
{
    short(out, 3, node)
}

// A delivery's frame into lent bytes: refused where they are too few.
pub fn deliver(out: &mut [u8], node: u8) -> Framed
    ensures { Wrote out.old (Deliver node) result out.new }
{
    short(out, 5, node)
}

// A start's frame into lent bytes, its n being 2 to 16: refused where they are too few.
pub(crate) fn start(out: &mut [u8], n: u8) -> Framed
    requires { count_right n ≡ true }
    ensures { Began out.old n result out.new }
{
    short(out, 0, n)
}
