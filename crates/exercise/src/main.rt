// Takes a script of cases and prints every answer in full, as docs/SCRIPT.md says.
#![tactic(auto)]

use records::no_record;
use script::number;
use script_reading::Lent;
use std::io;
use std::io::{Read, Write};

// One case, by the letter of its kind; what is then held, or None where the script ends.
fn one<R: Read, W: Write>(
    input: &mut R,
    to: &mut W,
    lent: Lent,
    numbers: &mut [u32],
    bytes: &mut [u8],
    more: &mut [u8],
    out: &mut [u8],
) -> io::Result<Option<Lent>> {
    let r = lent.config;
    let goes_on = match number(input, 1)? {
        Some(0x48) => return script_reading::hold(input, numbers),
        Some(0x52) => return script_reading::read(input, to, lent, bytes, numbers),
        Some(0x57) => script_reading::rows(to, r)?,
        Some(0x53) => script_reading::hunt(input, to, bytes)?,
        Some(0x50) => script_writing::write(input, to, r, numbers, bytes, more, out)?,
        Some(0x46) => script_writing::frame(input, to, bytes, out)?,
        _ => false,
    };
    Ok(goes_on.then_some(lent))
}

// As many cases as a script may have.
fn all<R: Read, W: Write>(
    input: &mut R,
    to: &mut W,
    numbers: &mut [u32],
    bytes: &mut [u8],
    more: &mut [u8],
    out: &mut [u8],
) -> io::Result<()> {
    let mut lent = Lent {
        present: false,
        config: no_record(),
    };
    for _ in 0..1000000 {
        let Some(next) = one(input, to, lent, numbers, bytes, more, out)? else {
            return Ok(());
        };
        lent = next;
    }
    Ok(())
}

fn main(rt: HostRuntime) -> io::Result<()> {
    // Buffers of fixed sizes: there is no heap.
    let mut numbers = [0; 65536];
    let mut bytes = [0; 65537];
    let mut more = [0; 65537];
    let mut out = [0; 65536];
    all(
        &mut rt.stdin(),
        &mut rt.stdout(),
        &mut numbers,
        &mut bytes,
        &mut more,
        &mut out,
    )
}
