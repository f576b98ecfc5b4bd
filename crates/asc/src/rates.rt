// Frequencies, by index or in 24 bits.
ghost use Rattle.std.specs.Prelude.{◌≡◌};
ghost use Rattle.kernel.specs.Reading.{Stands};
ghost use Rattle.kernel.specs.Answer.{told};
ghost use Rattle.asc.specs.Asc.{hertz, frequency};

use bits::take_at;
use kernel::{Cursor, Read, Refusal, Window, refused_at};
use records::Freq;

#[tactic(auto, using(kernel::proofs::Steps::fields), unfolding(crate::specs::Asc::hertz))]
fn hertz_of(el: &[u8], win: Window, c: Cursor) -> Result<Read<Freq>, Refusal>
    requires { Stands el.now c }
    ensures { result ≡ told el.now (hertz win) c }
{
    let hz = take_at(el, win, c, 24)?;
    if hz.value == 0 {
        return Err(refused_at(9, c.at, hz.next));
    }
    Ok(Read {
        value: Freq::Hz(hz.value),
        next: hz.next,
    })
}

// A frequency by its index, or in 24 bits behind index 15.
#[tactic(auto, using(kernel::proofs::Steps::fields), unfolding(crate::specs::Asc::frequency))]
pub fn frequency_of(el: &[u8], win: Window, c: Cursor) -> Result<Read<Freq>, Refusal>
    requires { Stands el.now c }
    ensures { result ≡ told el.now (frequency win) c }
{
    let four = take_at(el, win, c, 4)?;
    match four.value {
        0..=12 => Ok(Read {
            value: Freq::Index(four.value),
            next: four.next,
        }),
        15 => hertz_of(el, win, four.next),
        _ => Err(refused_at(9, c.at, four.next)),
    }
}
