// The map of an element read back, and the bits of its items copied.
#![tactic(auto)]

ghost use Rattle.std.specs.Prelude.{◌≡◌, ◌+◌, ◌*◌, ◌%◌, ◌≤◌, length};
ghost use Rattle.kernel.specs.Bits.{value_at, Put};
ghost use Rattle.kernel.specs.Puts.{Room, Puts};
ghost use Rattle.items.specs.Items.{item_at};
ghost use Rattle.items.specs.Copied.{padded, copied};

use kernel::{BitWriter, Cursor, Window, fetch};

// Kind, stream, first bit and width. The kind is a number, since `item_at` promises that of any map, also of one that no
// reading made.
#[derive(Clone, Copy)]
pub struct Item {
    pub kind: u32,
    pub stream: u32,
    pub first: u32,
    pub width: u32,
}

// Item i of a map; zeros where the map has none.
pub fn item_at(map: &[u32], i: usize) -> Item
    ensures { result ≡ item_at map.now i }
{
    match map.chunks_exact(4).nth(i) {
        Some(&[kind, stream, first, width]) => Item {
            kind,
            stream,
            first,
            width,
        },
        _ => Item {
            kind: 0,
            stream: 0,
            first: 0,
            width: 0,
        },
    }
}

// Up to 8 bits that the element has.
#[tactic(auto, using(kernel::proofs::Steps::fields))]
fn bits_at(el: &[u8], at: usize, width: usize) -> u32
    requires { (1 ≤ width) × (width ≤ 8) × (at + width ≤ 8 * length el.now) × (length el.now ≤ 8191) }
    ensures { result ≡ value_at el.now at width }
{
    match fetch(el, Window::Open, Cursor { at: at, fields: 0 }, width) {
        Ok(read) => read.value,
        Err(_) => 0,
    }
}

// Bits that the element has, with zeros behind them up to a byte.
#[tactic(auto, using(crate::proofs::Copies::copies))]
fn copy_bits(el: &[u8], first: usize, width: usize, w: &mut BitWriter)
    requires { (first + width ≤ 8 * length el.now) × (length el.now ≤ 8191) × Room 65528 w.old }
    ensures bits { Puts w.old (padded el.now first width) 65528 w.new }
    ensures whole { w.new.at % 8 ≡ w.old.at % 8 }
{
    for i in (0..width).step_by(8) {
        let n = (width - i).min(8);
        w.put(n, bits_at(el, first + i, n));
    }
    w.put((8 - width % 8) % 8, 0);
}

// The bits of an item, from byte `at` of out on, packed from the top bit, with zeros behind them up to a
// byte; the byte behind.
#[tactic(auto, using(crate::proofs::Copies::copies))]
pub fn copy_item(el: &[u8], it: Item, out: &mut [u8], at: usize) -> usize
    requires { 8 * at + 65528 ≤ 1000000 }
    ensures { (result ≤ at + 8191)
        × Put out.old (8 * at) (copied el.now it) out.new (8 * result) }
{
    let first = it.first as usize;
    let width = it.width as usize;
    if 8191 < el.len() || 8 * el.len() < first + width {
        return at;
    }
    let mut w = BitWriter::new(out, 8 * at);
    copy_bits(el, first, width, &mut w);
    w.at / 8
}
