// An input read into lent bytes up to its end, where a failed read is told from the end. The program's journal is read so: half of one must not pass
// for a whole one.
#![tactic(auto)]

ghost use Rattle.std.specs.Prelude.{◌≡◌, ◌<◌, length, take};
ghost use Rattle.input.specs.Reading.{read_to, Within, Told};

use std::io;
use std::io::{ErrorKind, Read};

// How far an input has been read: so many bytes have come and more may follow, it ended after so many, or it filled the lent bytes before it ended.
#[derive(Clone, Copy)]
pub enum Input {
    More(usize),
    End(usize),
    Full,
}

// What the answer of a read makes of it. Bytes beyond the lent ones are never counted, and an interrupted read is tried again.
fn read_to(lent: usize, at: usize, got: io::Result<usize>) -> io::Result<Input>
    ensures { result ≡ read_to lent at got }
{
    match got {
        Ok(0) => Ok(Input::End(at)),
        Ok(count) if count < lent.saturating_sub(at) => Ok(Input::More(at + count)),
        Ok(_) => Ok(Input::Full),
        Err(e) => match e.kind() {
            ErrorKind::Interrupted => Ok(Input::More(at)),
            _ => Err(e),
        },
    }
}

// One read into the bytes from `at` on: those before it, which came earlier, stay as they are.
fn read_on<R: Read>(source: &mut R, bytes: &mut [u8], at: usize) -> io::Result<Input>
    requires { at < length bytes.old }
    ensures bytes_len_unchanged { length bytes.new ≡ length bytes.old }
    ensures bytes_unchanged { take at bytes.new ≡ take at bytes.old }
    ensures within { Within (length bytes.old) result }
    ensures told { Told result }
{
    let lent = bytes.len();
    let got = source.read(&mut bytes[at..]);
    read_to(lent, at, got)
}

// Reads to the end, the last lent byte or a failure. A proved loop has to end, and nothing says that an input does or that signals stop, so it has
// as many turns as no run uses up; if one did, the answer would be `More`.
pub fn read_all<R: Read>(source: &mut R, bytes: &mut [u8]) -> io::Result<Input>
    ensures bytes_len_unchanged { length bytes.new ≡ length bytes.old }
    ensures within { Within (length bytes.old) result }
    ensures told { Told result }
{
    if bytes.is_empty() {
        return Ok(Input::Full);
    }
    let mut at = 0;
    for _turn in 0..u64::MAX {
        match read_on(source, bytes, at)? {
            Input::More(next) => at = next,
            ended => return Ok(ended),
        }
    }
    Ok(Input::More(at))
}
