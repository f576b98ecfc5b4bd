// Cases of a script that read: H, R, W and S. Each says whether the script goes on.
#![tactic(auto)]

ghost use Rattle.std.specs.Prelude.{◌≡◌, IfOk, length};
ghost use Rattle.element.specs.Reply.{answer, map_after};
ghost use Rattle.script.specs.Sevens.{sevens};
ghost use Rattle.script_reading.specs.Lent.{held_of, lent_after};

use element::Accepted;
use kernel::Refusal;
use record_words::RECORD_WORDS;
use records::Record;
use script::{map, number, say_refused, say_row, take, take_words};
use std::io;
use std::io::{Read, Write};

// The record that a script holds, which W and P use whether or not it is present: an Option of it would lose those
// that H lends as absent.
#[derive(Clone, Copy)]
pub struct Lent {
    pub present: bool,
    pub config: Record,
}

impl Lent {
    // What is held.
    fn held(&self) -> Option<Record>
        ensures { result ≡ held_of self.now }
    {
        self.present.then_some(self.config)
    }
}

// H: a record that is lent as held; None where the script ends.
pub fn hold<R: Read>(input: &mut R, words: &mut [u32]) -> io::Result<Option<Lent>> {
    let present = number(input, 1)?;
    let taken = take_words(input, words, RECORD_WORDS)?;
    let (Some(present), Some(_)) = (present, taken) else {
        return Ok(None);
    };
    if present > 1 {
        return Ok(None);
    }
    Ok(Some(Lent {
        present: present == 1,
        config: record_words::record_in(words),
    }))
}

fn say_accepted<W: Write>(to: &mut W, x: Accepted) -> io::Result<()> {
    let whose = if x.sent { "sent" } else { "held" };
    writeln!(
        to,
        "accepted, items {}, fields {}, configuration {whose}",
        x.items, x.fields
    )
}

fn say_verdict<W: Write>(
    to: &mut W,
    verdict: Result<Accepted, Refusal>,
    map: &[u32],
) -> io::Result<()> {
    match verdict {
        Ok(x) => {
            say_accepted(to, x)?;
            map::say_items(to, map, x.items)?;
            map::say_kept(to, map, 4 * (x.items as usize))
        }
        Err(x) => {
            say_refused(to, x)?;
            map::say_kept(to, map, 0)
        }
    }
}

// Reads an element into a map that is set to 7; what is then held.
fn read_into<W: Write>(to: &mut W, el: &[u8], lent: Lent, map: &mut [u32]) -> io::Result<Lent>
    ensures lent { IfOk result (λ l. l ≡ lent_after lent el.now (length map.old)) }
    ensures map { map.new ≡ map_after (sevens (length map.old)) (answer el.now (held_of lent) (length map.old)) }
{
    map::set_all(map);
    let reply = reader::read(el, lent.held(), map);
    say_verdict(to, reply.verdict, map)?;
    match reply.held {
        Some(r) => Ok(Lent {
            present: true,
            config: r,
        }),
        None => Ok(lent),
    }
}

// R: an element, with room for so many numbers in the map; None where the script ends.
pub fn read<R: Read, W: Write>(
    input: &mut R,
    to: &mut W,
    lent: Lent,
    bytes: &mut [u8],
    map: &mut [u32],
) -> io::Result<Option<Lent>> {
    let room = number(input, 2)?;
    let n = take(input, bytes, 2)?;
    let (Some(room), Some(n)) = (room, n) else {
        return Ok(None);
    };
    let room = room as usize;
    if map.len() < room {
        return Ok(None);
    }
    let next = read_into(to, &bytes[..n], lent, &mut map[..room])?;
    Ok(Some(next))
}

// W: all rows of a record, program by program.
pub fn rows<W: Write>(to: &mut W, r: Record) -> io::Result<bool> {
    let table = records::table_of(r.layers, r.programs);
    for program in 0..16 {
        for layer in 0..8 {
            if let Some(line) = row::row_of(r, table, program, layer) {
                say_row(to, line)?;
            }
        }
    }
    Ok(true)
}

fn say_hunted<W: Write>(to: &mut W, capture: &[u8], start: usize) -> io::Result<()> {
    match sync::hunt(capture, start) {
        Ok(h) => writeln!(to, "found {} {}", h.place, h.size),
        Err(x) => say_refused(to, x),
    }
}

// S: a capture and a start.
pub fn hunt<R: Read, W: Write>(input: &mut R, to: &mut W, bytes: &mut [u8]) -> io::Result<bool> {
    let start = number(input, 4)?;
    let n = take(input, bytes, 3)?;
    let (Some(start), Some(n)) = (start, n) else {
        return Ok(false);
    };
    say_hunted(to, &bytes[..n], start as usize)?;
    Ok(true)
}
