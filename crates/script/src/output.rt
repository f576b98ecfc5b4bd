// Bytes that are lent to be written to: set to 7 throughout, and then what was written, and whether what
// stands behind it is as it was set. `map` does the same for numbers, on its own: of a type parameter 7 and `==` are
// known by relations, and the promises here are equations.
ghost use Rattle.std.specs.Prelude.{◌≡◌, length};
ghost use Rattle.script.specs.Sevens.{sevens, sevens_from};

use crate::answers;
use crate::answers::say_refused;
use kernel::Refusal;
use std::io;
use std::io::Write;

// Sets all bytes lent to 7.
pub fn set_all(out: &mut [u8])
    ensures { out.new ≡ sevens (length out.old) }
{
    out.fill(7);
}

// Whether the bytes from a place on are as they were set.
fn kept_from(out: &[u8], from: usize) -> bool
    ensures { result ≡ sevens_from out.now from }
{
    let mut kept = true;
    for b in &out[from.min(out.len())..] {
        kept &= *b == 7;
    }
    kept
}

fn say_kept<W: Write>(to: &mut W, out: &[u8], from: usize) -> io::Result<()> {
    answers::say_kept(to, "output", kept_from(out, from))
}

// The bytes written, and whether those behind them were kept.
pub fn say_done<W: Write>(to: &mut W, out: &[u8], n: usize) -> io::Result<()> {
    writeln!(to, "done {n}")?;
    for b in out.iter().take(n) {
        write!(to, "{b:02x}")?;
    }
    writeln!(to)?;
    say_kept(to, out, n)
}

// A refusal, and whether all that was lent was kept.
pub fn say_stopped<W: Write>(to: &mut W, out: &[u8], x: Refusal) -> io::Result<()> {
    say_refused(to, x)?;
    say_kept(to, out, 0)
}
