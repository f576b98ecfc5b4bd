// The rows of a record, in stream order.
ghost use Rattle.std.specs.Prelude.{◌+◌, ◌≤◌, ◌<◌};
ghost use Rattle.kernel.specs.Lists.{Stored};
ghost use Rattle.summary_lines.specs.Lines.{layers_text, programs_text};

use crate::lines::lay_row;
use records::Record;
use row::{cell_at, row_of};

#[tactic(auto, using(crate::proofs::Turns::layer_by_layer))]
fn lay_layers(
    out: &mut [u8],
    at: usize,
    element: usize,
    r: Record,
    table: [[u8; 8]; 16],
    p: u32,
) -> usize
    requires { (at + 896 ≤ 1000000) × (p < 16) }
    ensures { (result ≤ at + 896)
        × Stored out.old at (layers_text element r table p 0 8) out.new result }
{
    let mut to = at;
    for l in 0..8u32 {
        let stream = cell_at(table, p as usize, l as usize);
        if let Some(x) = row_of(r, table, p, l) {
            to = lay_row(out, to, element, stream as usize, x);
        }
    }
    to
}

// A line for each stream that the table has; the byte behind them. Record and table stay two: the table is what a
// reading left, and what is promised here holds of any.
#[tactic(auto, using(crate::proofs::Turns::program_by_program))]
pub fn lay_rows(out: &mut [u8], at: usize, element: usize, r: Record, table: [[u8; 8]; 16]) -> usize
    requires { at + 14336 ≤ 1000000 }
    ensures { (result ≤ at + 14336)
        × Stored out.old at (programs_text element r table 0 16) out.new result }
{
    let mut to = at;
    for p in 0..16u32 {
        to = lay_layers(out, to, element, r, table, p);
    }
    to
}
