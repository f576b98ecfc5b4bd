// Object types: which are carried, and where.
ghost use Rattle.std.specs.Prelude.{◌≡◌, ◌≤◌};
ghost use Rattle.kernel.specs.Reading.{refuse_after, Stands};
ghost use Rattle.kernel.specs.Answer.{told};
ghost use Rattle.asc.specs.Asc.{is_core, is_front, object_type, any_type};
ghost use Rattle.asc.specs.Answer.{carried_if};

use bits::take_at;
use kernel::{Cursor, Read, Refusal, Window, refused_at};

// Types that stand alone, or under type 5 or 29.
pub fn is_core(t: u32) -> bool
    ensures { result ≡ is_core t }
{
    matches!(t, 1..=4)
}

fn is_front(t: u32) -> bool
    ensures { result ≡ is_front t }
{
    matches!(t, 1..=5 | 29)
}

#[tactic(auto, unfolding(crate::specs::Answer::carried_if))]
fn carried(under: bool, t: u32) -> bool
    ensures { result ≡ carried_if under t }
{
    if under { is_core(t) } else { is_front(t) }
}

// The six more bits of a five-bit type 31, for which no type is carried.
#[tactic(auto, using(kernel::proofs::Steps::fields))]
fn escaped(el: &[u8], win: Window, c: Cursor) -> Result<Read<u32>, Refusal>
    requires { (5 ≤ c.at) × Stands el.now c }
    ensures { result ≡ told el.now (refuse_after win 6 8 5) c }
{
    let six = take_at(el, win, c, 6)?;
    Err(refused_at(8, c.at - 5, six.next))
}

// A type that is carried in front, or as a core under type 5 or 29.
#[tactic(auto, using(kernel::proofs::Steps::fields), unfolding(crate::specs::Asc::object_type))]
pub fn object_type(el: &[u8], win: Window, c: Cursor, under: bool) -> Result<Read<u32>, Refusal>
    requires { Stands el.now c }
    ensures { result ≡ told el.now (object_type (carried_if under) win) c }
{
    let five = take_at(el, win, c, 5)?;
    if five.value == 31 {
        return escaped(el, win, five.next);
    }
    if !carried(under, five.value) {
        return Err(refused_at(8, c.at, five.next));
    }
    Ok(five)
}

// Any type, with the six more bits of 31.
#[tactic(auto, using(kernel::proofs::Steps::fields), unfolding(crate::specs::Asc::any_type))]
pub fn any_type(el: &[u8], win: Window, c: Cursor) -> Result<Read<u32>, Refusal>
    requires { Stands el.now c }
    ensures { result ≡ told el.now (any_type win) c }
{
    let five = take_at(el, win, c, 5)?;
    if five.value != 31 {
        return Ok(five);
    }
    let six = take_at(el, win, five.next, 6)?;
    Ok(Read {
        value: 32 + six.value,
        next: six.next,
    })
}
