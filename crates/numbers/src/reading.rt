// Numbers of several bytes: a variable value, and groups of a continue bit and a byte.
ghost use Rattle.std.specs.Prelude.{◌≡◌, ◌≤◌};
ghost use Rattle.kernel.specs.Reading.{Stands};
ghost use Rattle.kernel.specs.Answer.{told};
ghost use Rattle.numbers.specs.Values.{bytes_from, latm_get_value, groups_from};

use kernel::{Cursor, Read, Refusal, Window, fetch, refused_at};

#[tactic(auto, using(crate::proofs::Turns::byte_by_byte))]
fn bytes_from(el: &[u8], c: Cursor, n: u32) -> Result<Read<u32>, Refusal>
    requires { (n ≤ 4) × Stands el.now c }
    ensures { result ≡ told el.now (bytes_from n 0) c }
{
    let mut number = Read { value: 0, next: c };
    for i in 0..n {
        let byte = fetch(el, Window::Open, number.next, 8)?;
        number = Read {
            value: 256 * number.value + byte.value,
            next: byte.next,
        };
    }
    Ok(number)
}

// A variable value: two bits k, then k + 1 bytes.
#[tactic(auto, using(kernel::proofs::Steps::fields), unfolding(crate::specs::Values::latm_get_value))]
pub fn latm_get_value(el: &[u8], c: Cursor) -> Result<Read<u32>, Refusal>
    requires { Stands el.now c }
    ensures { result ≡ told el.now latm_get_value c }
{
    let k = fetch(el, Window::Open, c, 2)?;
    bytes_from(el, k.next, k.value + 1)
}

// The length of other data in version 0: a continue bit and a byte, in at most four groups.
#[tactic(auto, using(crate::proofs::Turns::group_by_group))]
pub fn groups_of(el: &[u8], c: Cursor) -> Result<Read<u32>, Refusal>
    requires { Stands el.now c }
    ensures { result ≡ told el.now (groups_from 4 0) c }
{
    let mut number = Read { value: 0, next: c };
    for i in 0..4u32 {
        let more = fetch(el, Window::Open, number.next, 1)?;
        if more.value != 0 && i == 3 {
            return Err(refused_at(14, number.next.at, more.next));
        }
        let byte = fetch(el, Window::Open, more.next, 8)?;
        number = Read {
            value: 256 * number.value + byte.value,
            next: byte.next,
        };
        if more.value != 1 {
            return Ok(number);
        }
    }
    Ok(number)
}
