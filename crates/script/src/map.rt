// A map that is lent: set to 7 throughout, and then its items, and whether what stands behind them is as it was set.
ghost use Rattle.std.specs.Prelude.{◌≡◌, length};
ghost use Rattle.script.specs.Sevens.{sevens, sevens_from};

use crate::answers;
use items::item_at;
use std::io;
use std::io::Write;

// Sets every number to 7.
pub fn set_all(map: &mut [u32])
    ensures { map.new ≡ sevens (length map.old) }
{
    map.fill(7);
}

// Whether the numbers from a place on are as they were set.
fn kept_from(map: &[u32], from: usize) -> bool
    ensures { result ≡ sevens_from map.now from }
{
    let mut kept = true;
    for n in &map[from.min(map.len())..] {
        kept &= *n == 7;
    }
    kept
}

// Says whether they are.
pub fn say_kept<W: Write>(to: &mut W, map: &[u32], from: usize) -> io::Result<()> {
    answers::say_kept(to, "map", kept_from(map, from))
}

// The first items, a line each.
pub fn say_items<W: Write>(to: &mut W, map: &[u32], items: u32) -> io::Result<()> {
    for i in 0..items {
        let it = item_at(map, i as usize);
        writeln!(to, "  {} {} {} {}", it.kind, it.stream, it.first, it.width)?;
    }
    Ok(())
}
