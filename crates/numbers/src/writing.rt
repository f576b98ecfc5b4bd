// Numbers put in the fewest bytes that hold them.
ghost use Rattle.std.specs.Prelude.{◌≡◌, ◌≤◌};
ghost use Rattle.kernel.specs.Puts.{Room, Puts};
ghost use Rattle.numbers.specs.Values.{fewest, value_bits, group_bits};

use kernel::BitWriter;

// One less than the fewest bytes that hold v.
fn fewest(v: u32) -> u32
    ensures { (result ≡ fewest v) × (result ≤ 3) }
{
    match v {
        0..=255 => 0,
        256..=65535 => 1,
        65536..=16777215 => 2,
        _ => 3,
    }
}

// LatmGetValue.
#[tactic(auto, using(kernel::proofs::Puts::puts), unfolding(crate::specs::Values::value_bits))]
pub fn put_value(w: &mut BitWriter, v: u32)
    requires { Room 34 w.old }
    ensures { Puts w.old (value_bits v) 34 w.new }
{
    let k = fewest(v);
    w.put(2, k);
    w.put(8 * (k as usize + 1), v);
}

// The length of other data in version 0: a continue bit and a byte, highest first.
#[tactic(auto, using(crate::proofs::Turns::groups_put))]
pub fn put_groups(w: &mut BitWriter, v: u32)
    requires { Room 36 w.old }
    ensures { Puts w.old (group_bits v) 36 w.new }
{
    for k in (1..=fewest(v)).rev() {
        w.put(1, 1);
        w.put(8, v >> (8 * k));
    }
    w.put(1, 0);
    w.put(8, v);
}
