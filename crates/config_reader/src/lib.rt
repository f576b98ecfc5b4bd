// The readers of StreamMuxConfig, one for each production of crates/config/specs/Mux.antt.
#![tactic(auto)]

mod ending_fields;
mod head_fields;
mod layers;

ghost use Rattle.std.specs.Prelude.{◌≡◌, IfOk};
ghost use Rattle.kernel.specs.Reading.{Stands};
ghost use Rattle.kernel.specs.Answer.{told};
ghost use Rattle.records.specs.Table.{table_of};
ghost use Rattle.config.specs.Mux.{record_of, stream_mux_config};
ghost use Rattle.config_reader.specs.Answer.{table_after, Few};

use config::{Ending, Head, Places};
use ending_fields::ending_of;
use head_fields::head_of;
use kernel::{Cursor, Read, Refusal};
use layers::programs_of;
use records::Record;

fn record_of(h: Head, g: Places, t: Ending) -> Record
    ensures { result ≡ record_of h g t }
{
    let layers = g.layers;
    let streams = g.streams;
    Record {
        version: h.version,
        subversion: h.subversion,
        tara: h.tara,
        framing: h.framing,
        subframes: h.subframes,
        programs: h.programs,
        layers: layers,
        streams: streams,
        other: t.other,
        bits: t.bits,
        checked: t.checked,
        crc: t.crc,
    }
}

// A whole StreamMuxConfig, and the table of its streams; a refusal leaves the table lent as it stood.
#[tactic(auto, using(kernel::proofs::Steps::steps), unfolding(config::specs::Mux::stream_mux_config))]
pub fn stream_mux_config(
    el: &[u8],
    c: Cursor,
    table: &mut [[u8; 8]; 16],
) -> Result<Read<Record>, Refusal>
    requires { Stands el.now c }
    ensures told { result ≡ told el.now stream_mux_config c }
    ensures table { table.new ≡ table_after (λ r. table_of r.layers r.programs) result table.old }
    ensures few { IfOk result (λ r. Few r.value) }
{
    let head = head_of(el, c)?;
    let version = head.value.version;
    let mut cells = [[255; 8]; 16];
    let places = programs_of(el, version, head.value.programs, head.next, &mut cells)?;
    let ending = ending_of(el, version, places.next)?;
    *table = cells;
    Ok(Read {
        value: record_of(head.value, places.value, ending.value),
        next: ending.next,
    })
}
