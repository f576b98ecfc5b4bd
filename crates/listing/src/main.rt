// Lists a capture: a record of 24 bytes for each item of an accepted element, and one for a refused element.
#![tactic(auto)]

ghost use Rattle.std.specs.Prelude.{◌≡◌, length};

use intake::read_full;
use listing_blocks::lay_block;
use std::io;
use std::io::Write;

// Writes the listing out, block by block.
fn list<W: Write>(to: &mut W, capture: &[u8], out: &mut [u8]) -> io::Result<()>
    requires { length out.old ≡ 65536 }
{
    let mut reached = capture::start();
    loop {
        let block = lay_block(capture, reached, out);
        to.write_all(&out[..block.bytes])?;
        if block.ended {
            return Ok(());
        }
        reached = block.reached.mark;
    }
}

fn main(rt: HostRuntime) -> io::Result<()> {
    // Buffers of fixed sizes: there is no heap.
    let mut buf = [0; 65536];
    let n = read_full(&mut rt.stdin(), &mut buf)?;
    let mut more = [0; 1];
    let over = read_full(&mut rt.stdin(), &mut more)?;
    let mut out = [0; 65536];
    list(&mut rt.stdout(), &buf[..n], &mut out)?;
    if over == 1 {
        rt.stderr().write_all(
            b"the capture is longer than 65536 bytes: only the first 65536 were listed\n",
        )?;
    }
    Ok(())
}
