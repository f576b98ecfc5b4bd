// What is printed.
ghost use Rattle.std.specs.Prelude.{OnOk, ◌∷◌, decimal};
ghost use Rattle.std.specs.Io.KnownBytes.{Appends};

use kernel::Refusal;
use row::Row;
use std::io;
use std::io::Write;

// Prints these bytes.
pub fn say<W: Write>(to: &mut W, words: &[u8]) -> io::Result<()>
    ensures { OnOk result (Appends (W.contents to.old) (W.contents to.new) words.now) }
{
    to.write_all(words)
}

// Behind a blank.
pub fn say_number<W: Write>(to: &mut W, n: usize) -> io::Result<()>
    ensures { OnOk result (Appends (W.contents to.old) (W.contents to.new) (32 ∷ decimal n)) }
{
    write!(to, " {n}")
}

// A refusal, on a line.
pub fn say_refused<W: Write>(to: &mut W, x: Refusal) -> io::Result<()> {
    writeln!(
        to,
        "refused, {} at bit {}, fields {}",
        x.number, x.place, x.fields
    )
}

// A row, on a line.
pub fn say_row<W: Write>(to: &mut W, r: Row) -> io::Result<()> {
    writeln!(
        to,
        "row {} {} {} {} {} {} {} {}",
        r.program, r.layer, r.core, r.rate, r.output, r.sbr, r.ps, r.channels
    )
}

// Whether what was lent is as it was set, on a line.
pub fn say_kept<W: Write>(to: &mut W, what: &str, kept: bool) -> io::Result<()> {
    let how = if kept { "kept" } else { "changed" };
    writeln!(to, "{what} {how}")
}
