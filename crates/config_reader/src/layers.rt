// The programs, their layers, and the streams that these configure.
ghost use Rattle.std.specs.Prelude.{◌≡◌, ◌+◌, ◌≤◌, IfOk};
ghost use Rattle.kernel.specs.Reading.{Stands};
ghost use Rattle.kernel.specs.Answer.{told};
ghost use Rattle.records.specs.Table.{streams_in, table_of};
ghost use Rattle.config.specs.Mux.{no_places, num_layer, programs};
ghost use Rattle.config_reader.specs.Answer.{table_after};

use config::Places;
use kernel::{Cursor, Read, Refusal, Window, fetch, refused_at};
use layer_reader::layer_of;
use records::{no_stream, row_from};

// numLayer of a program whose first layer is stream `next`.
#[tactic(auto, using(kernel::proofs::Steps::fields), unfolding(config::specs::Mux::num_layer))]
fn num_layer(el: &[u8], next: usize, c: Cursor) -> Result<Read<u32>, Refusal>
    requires { (next ≤ 16) × Stands el.now c }
    ensures told { result ≡ told el.now (num_layer next) c }
    ensures few { IfOk result (λ r. next + (r.value + 1) ≤ 16) }
{
    let k = fetch(el, Window::Open, c, 3)?;
    if 16 < next + (k.value as usize + 1) {
        return Err(refused_at(7, c.at, k.next));
    }
    Ok(k)
}

// The programs 0 to n, and the row of each in the table; a refusal leaves the table lent as it stood. No function of
// its own for the layers of a program, since an array is copied wherever it goes to a function.
#[tactic(auto, using(crate::proofs::Turns::program_by_program))]
pub fn programs_of(
    el: &[u8],
    version: u32,
    n: u32,
    c: Cursor,
    table: &mut [[u8; 8]; 16],
) -> Result<Read<Places>, Refusal>
    requires { (n ≤ 15) × Stands el.now c }
    ensures told { result ≡ told el.now (programs version (n + 1) 0 0 no_places) c }
    ensures table { table.new ≡ table_after (λ g. table_of g.layers n) result table.old }
    ensures few { IfOk result (λ r. streams_in r.value.layers n 16 ≤ 16) }
{
    let mut cells = [[255; 8]; 16];
    let blank = no_stream();
    let mut places = Places {
        layers: [0; 16],
        streams: [blank; 16],
    };
    // The configuration of the stream just before.
    let mut before = blank.config;
    let mut cur = c;
    let mut next: usize = 0;
    for p in 0..=n as usize {
        let k = num_layer(el, next, cur)?;
        places.layers[p] = k.value;
        cells[p] = row_from(next, k.value as usize + 1);
        cur = k.next;
        for _ in 0..=k.value {
            let stream = layer_of(el, version, next, before, cur)?;
            places.streams[next] = stream.value;
            before = stream.value.config;
            cur = stream.next;
            next += 1;
        }
    }
    *table = cells;
    Ok(Read {
        value: places,
        next: cur,
    })
}
