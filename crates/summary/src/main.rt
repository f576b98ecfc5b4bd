// Summarizes a capture for the duty desk: a line for each stream of a configuration that becomes held, and
// one for each refused element.
#![tactic(auto)]

ghost use Rattle.std.specs.Prelude.{◌≡◌, IfOk, length};
ghost use Rattle.capture.specs.Frames.{start, frames_of, behind_all};

use capture::start_holding;
use intake::read_full;
use std::io;
use std::io::Write;
use summary_blocks::{Summary, lay_block, lay_end, lay_head};

// Writes the lines of a capture out, block by block; the number of its frames.
fn show<W: Write>(to: &mut W, capture: &[u8], out: &mut [u8]) -> io::Result<usize>
    requires { length out.old ≡ 65536 }
    ensures { IfOk result (λ n. n ≡ (behind_all start (frames_of capture.now 4368 start)).number) }
{
    let mut reached = Summary {
        holding: start_holding(),
        said: false,
    };
    loop {
        let block = lay_block(capture, reached, out);
        to.write_all(&out[..block.bytes])?;
        reached = block.reached;
        if block.ended {
            return Ok(reached.holding.mark.number);
        }
    }
}

fn main(rt: HostRuntime) -> io::Result<()> {
    // Buffers of fixed sizes: there is no heap.
    let mut buf = [0; 65536];
    let n = read_full(&mut rt.stdin(), &mut buf)?;
    let mut more = [0; 1];
    let over = read_full(&mut rt.stdin(), &mut more)?;
    let mut out = [0; 65536];
    let mut to = rt.stdout();
    let head = lay_head(&mut out);
    to.write_all(&out[..head])?;
    let frames = show(&mut to, &buf[..n], &mut out)?;
    let end = lay_end(&mut out, frames, over == 1);
    to.write_all(&out[..end])
}
