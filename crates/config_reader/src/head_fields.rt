// The values in front of the programs.
ghost use Rattle.std.specs.Prelude.{◌≡◌, ◌≤◌, IfOk};
ghost use Rattle.kernel.specs.Reading.{Stands};
ghost use Rattle.kernel.specs.Answer.{told};
ghost use Rattle.config.specs.Mux.{mux_version_a, mux_head};

use config::Head;
use kernel::{Cursor, Read, Refusal, Window, fetch, refused_at};
use numbers::latm_get_value;

#[tactic(auto, using(kernel::proofs::Steps::fields), unfolding(config::specs::Mux::mux_version_a))]
fn subversion_of(el: &[u8], c: Cursor) -> Result<Read<u32>, Refusal>
    requires { Stands el.now c }
    ensures { result ≡ told el.now mux_version_a c }
{
    let a = fetch(el, Window::Open, c, 1)?;
    if a.value != 0 {
        return Err(refused_at(5, c.at, a.next));
    }
    Ok(a)
}

// Up to numProgram.
#[tactic(auto, using(kernel::proofs::Steps::fields), unfolding(config::specs::Mux::mux_head))]
pub fn head_of(el: &[u8], c: Cursor) -> Result<Read<Head>, Refusal>
    requires { Stands el.now c }
    ensures told { result ≡ told el.now mux_head c }
    ensures few { IfOk result (λ r. (r.value.programs ≤ 15) × (r.value.subframes ≤ 63)) }
{
    let version = fetch(el, Window::Open, c, 1)?;
    let subversion = if version.value == 1 {
        subversion_of(el, version.next)?
    } else {
        Read {
            value: 0,
            next: version.next,
        }
    };
    let tara = if version.value == 1 {
        latm_get_value(el, subversion.next)?
    } else {
        Read {
            value: 0,
            next: subversion.next,
        }
    };
    let framing = fetch(el, Window::Open, tara.next, 1)?;
    if framing.value != 1 {
        return Err(refused_at(6, tara.next.at, framing.next));
    }
    let subframes = fetch(el, Window::Open, framing.next, 6)?;
    let programs = fetch(el, Window::Open, subframes.next, 4)?;
    Ok(Read {
        value: Head {
            version: version.value,
            subversion: subversion.value,
            tara: tara.value,
            framing: framing.value,
            subframes: subframes.value,
            programs: programs.value,
        },
        next: programs.next,
    })
}
