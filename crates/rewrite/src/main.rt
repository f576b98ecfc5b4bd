// Writes each accepted element of a capture anew, in a frame: the same record, slots and other data.
#![tactic(auto)]

ghost use Rattle.std.specs.Prelude.{◌≤◌, ◌<◌, length};

use capture::{advance, start_holding};
use element::Accepted;
use intake::read_full;
use items::{copy_item, item_at};
use kernel::Refusal;
use records::Record;
use std::io;
use std::io::Write;
use sync::element_at;

// What an element is read into, its slots' lengths, its payload and other data one behind the other and then the
// frame, and what is written anew.
#[derive(Drop)]
struct Buffers {
    map: [u32; 4368],
    table: [[u8; 8]; 16],
    lengths: [u32; 1092],
    bytes: [u8; 8200],
    out: [u8; 8192],
}

// The items of one kind, from byte `from` on; the byte behind them. What has no room is left out.
fn copy_kind(
    el: &[u8],
    map: &[u32],
    items: usize,
    kind: u32,
    out: &mut [u8; 8200],
    from: usize,
) -> usize
    requires { from ≤ 8200 }
    ensures { (from ≤ result) × (result ≤ 8200) }
{
    let mut at = from;
    for i in 0..items {
        let it = item_at(map, i);
        if it.kind == kind {
            at = copy_item(el, it, out, at).min(8200);
        }
    }
    at
}

// The slots' lengths in bytes; how many.
fn slots_of(map: &[u32], items: usize, lengths: &mut [u32; 1092]) -> usize
    requires { items ≤ 1092 }
    ensures { result ≤ 1092 }
{
    let mut n: usize = 0;
    for i in 0..items {
        let it = item_at(map, i);
        if it.kind == 4 {
            lengths[n] = it.width / 8;
            n += 1;
        }
    }
    n
}

// What was read of one element, taken out slot by slot and written anew, in a frame; nothing of one that was refused.
fn take_out<W: Write>(
    to: &mut W,
    el: &[u8],
    verdict: Result<Accepted, Refusal>,
    held: Option<Record>,
    b: &mut Buffers,
) -> io::Result<()> {
    let Ok(a) = verdict else {
        return Ok(());
    };
    let Some(r) = held else {
        return Ok(());
    };
    let items = (a.items as usize).min(1092);
    let n = slots_of(&b.map, items, &mut b.lengths);
    let p = copy_kind(el, &b.map, items, 4, &mut b.bytes, 0);
    let o = copy_kind(el, &b.map, items, 5, &mut b.bytes, p);
    let (payload, other) = b.bytes[..o].split_at(p);
    let Ok(size) = writer::write(r, a.sent, &b.lengths[..n], payload, other, &mut b.out) else {
        return Ok(());
    };
    let Ok(end) = sync::frame(&b.out[..size], &mut b.bytes) else {
        return Ok(());
    };
    to.write_all(&b.bytes[..end])
}

// Each element of the capture in turn.
fn all<W: Write>(to: &mut W, capture: &[u8], b: &mut Buffers) -> io::Result<()> {
    let mut reached = start_holding();
    while let Some(step) = advance(capture, reached.mark, &mut b.map, &mut b.table) {
        reached.pass(&step);
        let el = element_at(capture, step.place, step.size);
        take_out(to, el, step.verdict, reached.held, b)?;
    }
    Ok(())
}

fn main(rt: HostRuntime) -> io::Result<()> {
    // Buffers of fixed sizes: there is no heap.
    let mut buf = [0; 65536];
    let n = read_full(&mut rt.stdin(), &mut buf)?;
    let mut more = [0; 1];
    let over = read_full(&mut rt.stdin(), &mut more)?;
    let mut b = Buffers {
        map: [0; 4368],
        table: [[255; 8]; 16],
        lengths: [0; 1092],
        bytes: [0; 8200],
        out: [0; 8192],
    };
    all(&mut rt.stdout(), &buf[..n], &mut b)?;
    if over == 1 {
        rt.stderr().write_all(
            b"the capture is longer than 65536 bytes: only the first 65536 were rewritten\n",
        )?;
    }
    Ok(())
}
