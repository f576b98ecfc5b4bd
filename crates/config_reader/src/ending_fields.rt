// Other data and checksum, as the configuration announces them.
ghost use Rattle.std.specs.Prelude.{◌≡◌};
ghost use Rattle.kernel.specs.Reading.{Stands};
ghost use Rattle.kernel.specs.Answer.{told};
ghost use Rattle.config.specs.Mux.{other_length, mux_ending};

use config::Ending;
use kernel::{Cursor, Read, Refusal, Window, fetch};
use numbers::{groups_of, latm_get_value};

#[tactic(auto, using(kernel::proofs::Steps::steps), unfolding(config::specs::Mux::other_length))]
fn other_length(el: &[u8], version: u32, c: Cursor) -> Result<Read<u32>, Refusal>
    requires { Stands el.now c }
    ensures { result ≡ told el.now (other_length version) c }
{
    if version == 1 {
        return latm_get_value(el, c);
    }
    groups_of(el, c)
}

// From otherDataPresent on.
#[tactic(auto, using(kernel::proofs::Steps::steps), unfolding(config::specs::Mux::mux_ending))]
pub fn ending_of(el: &[u8], version: u32, c: Cursor) -> Result<Read<Ending>, Refusal>
    requires { Stands el.now c }
    ensures { result ≡ told el.now (mux_ending version) c }
{
    let other = fetch(el, Window::Open, c, 1)?;
    let bits = if other.value == 1 {
        other_length(el, version, other.next)?
    } else {
        Read {
            value: 0,
            next: other.next,
        }
    };
    let checked = fetch(el, Window::Open, bits.next, 1)?;
    let crc = if checked.value == 1 {
        fetch(el, Window::Open, checked.next, 8)?
    } else {
        Read {
            value: 0,
            next: checked.next,
        }
    };
    Ok(Read {
        value: Ending {
            other: other.value,
            bits: bits.value,
            checked: checked.value,
            crc: crc.value,
        },
        next: crc.next,
    })
}
