// The lines of the summary, laid into lent bytes. Each function answers the byte behind what it laid.
ghost use Rattle.std.specs.Prelude.{◌≡◌, ◌+◌, ◌≤◌, get_or};
ghost use Rattle.kernel.specs.Lists.{Stored};
ghost use Rattle.summary_lines.specs.Lines.{place_text, no_type, types, core_text, flag_text, signal_text, row_text};
ghost use Rattle.summary_lines.specs.Lines.{refused_at_text, refused_why_text, refused_text};

use kernel::{Refusal, lay};
use row::Row;
use text::{lay_column, lay_number, lay_words};

#[tactic(auto, using(crate::proofs::Laid::in_parts))]
fn lay_place(out: &mut [u8], at: usize, element: usize, stream: usize, r: Row) -> usize
    requires { at + 31 ≤ 1000000 }
    ensures { (result ≡ at + 31)
        × Stored out.old at (place_text element r.program r.layer stream) out.new result }
{
    let a = lay_number(out, at, 7, element);
    let b = lay_column(out, a, 7, r.program as usize);
    let c = lay_column(out, b, 5, r.layer as usize);
    lay_column(out, c, 6, stream)
}

fn type_text(core: u32) -> &'static [u8; 12]
    ensures { result.now ≡ get_or types core no_type }
{
    match core {
        1 => b"  1 AAC Main",
        2 => b"  2 AAC LC  ",
        3 => b"  3 AAC SSR ",
        4 => b"  4 AAC LTP ",
        _ => b"  ?         ",
    }
}

#[tactic(auto, using(crate::proofs::Laid::in_parts))]
fn lay_core(out: &mut [u8], at: usize, r: Row) -> usize
    requires { at + 33 ≤ 1000000 }
    ensures { (result ≡ at + 33)
        × Stored out.old at (core_text r.core r.rate r.output) out.new result }
{
    let a = lay(out, at, type_text(r.core));
    let b = lay_column(out, a, 8, r.rate as usize);
    lay_column(out, b, 9, r.output as usize)
}

fn flag_text(flag: i32) -> &'static [u8; 15]
    ensures { result.now ≡ flag_text flag }
{
    match flag {
        0 => b"  no           ",
        1.. => b"  yes          ",
        _ => b"  not signalled",
    }
}

#[tactic(auto, using(crate::proofs::Laid::with_flags))]
fn lay_signal(out: &mut [u8], at: usize, r: Row) -> usize
    requires { at + 48 ≤ 1000000 }
    ensures { (result ≡ at + 48)
        × Stored out.old at (signal_text r.sbr r.ps r.channels) out.new result }
{
    let a = lay(out, at, flag_text(r.sbr));
    let b = lay(out, a, flag_text(r.ps));
    let c = lay_column(out, b, 15, r.channels as usize);
    lay(out, c, b"\n")
}

// A row's line.
#[tactic(auto, using(crate::proofs::Laid::in_parts))]
pub fn lay_row(out: &mut [u8], at: usize, element: usize, stream: usize, r: Row) -> usize
    requires { at + 112 ≤ 1000000 }
    ensures { (result ≡ at + 112) × Stored out.old at (row_text element stream r) out.new result }
{
    let a = lay_place(out, at, element, stream, r);
    let b = lay_core(out, a, r);
    lay_signal(out, b, r)
}

#[tactic(auto, using(crate::proofs::Laid::in_parts))]
fn lay_refused_at(out: &mut [u8], at: usize, element: usize, x: Refusal) -> usize
    requires { at + 33 ≤ 1000000 }
    ensures { (result ≡ at + 33)
        × Stored out.old at (refused_at_text element x.number x.place) out.new result }
{
    let a = lay_number(out, at, 7, element);
    let b = lay(out, a, b"  refused ");
    let c = lay_number(out, b, 2, x.number);
    let d = lay(out, c, b"  at bit ");
    lay_number(out, d, 5, x.place)
}

#[tactic(auto, using(crate::proofs::Laid::in_parts))]
fn lay_refused_why(out: &mut [u8], at: usize, x: Refusal) -> usize
    requires { at + 90 ≤ 1000000 }
    ensures { (result ≤ at + 90)
        × Stored out.old at (refused_why_text x.number x.fields) out.new result }
{
    let a = lay(out, at, b"  fields read ");
    let b = lay_number(out, a, 5, x.fields);
    let c = lay(out, b, b"  ");
    let d = lay_words(out, c, x.number);
    lay(out, d, b"\n")
}

// The line of a refused element.
#[tactic(auto, using(crate::proofs::Laid::in_parts))]
pub fn lay_refused(out: &mut [u8], at: usize, element: usize, x: Refusal) -> usize
    requires { at + 123 ≤ 1000000 }
    ensures { (result ≤ at + 123) × Stored out.old at (refused_text element x) out.new result }
{
    let a = lay_refused_at(out, at, element, x);
    lay_refused_why(out, a, x)
}
