// Cases of a script that write: P and F. Each says whether the script goes on.
#![tactic(auto)]

use records::Record;
use script::{number, output, take, take_words};
use std::io;
use std::io::{Read, Write};

// Writes an element into bytes that are set to 7.
fn write_into<W: Write>(
    to: &mut W,
    r: Record,
    send: bool,
    lengths: &[u32],
    payload: &[u8],
    other: &[u8],
    out: &mut [u8],
) -> io::Result<()> {
    output::set_all(out);
    match writer::write(r, send, lengths, payload, other, out) {
        Ok(n) => output::say_done(to, out, n),
        Err(x) => output::say_stopped(to, out, x),
    }
}

// P: an element.
pub fn write<R: Read, W: Write>(
    input: &mut R,
    to: &mut W,
    r: Record,
    words: &mut [u32],
    bytes: &mut [u8],
    more: &mut [u8],
    out: &mut [u8],
) -> io::Result<bool> {
    let send = number(input, 1)?;
    let room = number(input, 2)?;
    let count = number(input, 2)?;
    let k = match count {
        Some(count) => take_words(input, words, count as usize)?,
        None => None,
    };
    let n = take(input, bytes, 3)?;
    let m = take(input, more, 3)?;
    let (Some(send), Some(room), Some(k), Some(n), Some(m)) = (send, room, k, n, m) else {
        return Ok(false);
    };
    let room = room as usize;
    if send > 1 || out.len() < room {
        return Ok(false);
    }
    write_into(
        to,
        r,
        send == 1,
        &words[..k],
        &bytes[..n],
        &more[..m],
        &mut out[..room],
    )?;
    Ok(true)
}

fn frame_into<W: Write>(to: &mut W, el: &[u8], out: &mut [u8]) -> io::Result<()> {
    output::set_all(out);
    match sync::frame(el, out) {
        Ok(n) => output::say_done(to, out, n),
        Err(x) => output::say_stopped(to, out, x),
    }
}

// F: the frame of an element.
pub fn frame<R: Read, W: Write>(
    input: &mut R,
    to: &mut W,
    bytes: &mut [u8],
    out: &mut [u8],
) -> io::Result<bool> {
    let room = number(input, 2)?;
    let n = take(input, bytes, 3)?;
    let (Some(room), Some(n)) = (room, n) else {
        return Ok(false);
    };
    let room = room as usize;
    if out.len() < room {
        return Ok(false);
    }
    frame_into(to, &bytes[..n], &mut out[..room])?;
    Ok(true)
}
