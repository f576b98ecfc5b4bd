// One AudioMuxElement, read whole into a map.
#![tactic(auto)]

ghost use Rattle.std.specs.Prelude.{◌≡◌, true, ◌≤◌, length};
ghost use Rattle.kernel.specs.Reading.{Stands};
ghost use Rattle.kernel.specs.Element.{read};
ghost use Rattle.records.specs.Valid.{valid_of};
ghost use Rattle.element.specs.Mux.{audio_mux_element};
ghost use Rattle.element.specs.Reply.{answer};
ghost use Rattle.element.specs.Promises.{ReadPromise, ReadWithPromise};
ghost use Rattle.reader.specs.Parts.{fixed_bits, Fixable, slots_of, plan_of, sent_of};
ghost use Rattle.reader.specs.Prepared.{prepared_of, OfHeld, sends_of, needed_of};
ghost use Rattle.reader.specs.Promises.{Takes, TakesBy, PreparedPromise};

use config_reader::stream_mux_config;
use element::{Accepted, Reply};
use kernel::{Cursor, Refusal, Window, fetch, refused_at, unread};
use records::{Record, Stream, streams_in, valid};
use walk::{Plan, finish};

// The verdict, the configuration that an accepted element sent, and what is then held, prepared.
#[derive(Clone, Copy)]
pub struct PreparedReply {
    pub verdict: Result<Accepted, Refusal>,
    pub sent: Option<Record>,
    pub prepared: Option<Plan>,
}

// The bits of a stream's slots where they are fixed, by its frameLengthType and frameLength.
fn fixed_bits(kind: u32, fixed: u32) -> Option<u32>
    requires { fixed ≤ 511 }
    ensures { result ≡ fixed_bits kind fixed }
{
    if kind == 0 {
        None
    } else {
        Some(8 * (fixed + 20))
    }
}

// Those of some streams.
#[tactic(auto, using(crate::proofs::Plans::filling))]
fn slots_of(streams: &[Stream]) -> [Option<u32>; 16]
    requires { (length streams.now ≤ 16) × Fixable streams.now }
    ensures { result ≡ slots_of streams.now }
{
    let mut slots = [None; 16];
    for (i, s) in streams.iter().enumerate() {
        slots[i] = fixed_bits(s.kind, s.fixed);
    }
    slots
}

// What the walk behind a configuration needs of it.
fn plan_of(r: Record) -> Plan
    requires { valid_of r ≡ true }
    ensures { result ≡ plan_of r }
{
    let n = streams_in(r.layers, r.programs);
    let other = if r.other == 1 { Some(r.bits) } else { None };
    Plan {
        slots: slots_of(&r.streams[..n]),
        streams: n,
        subframes: r.subframes + 1,
        other: other,
    }
}

// What is held, prepared for readings: a record that is not valid counts as nothing held.
#[tactic(auto, unfolding(crate::specs::Prepared::prepared_of))]
pub fn prepare(held: Option<Record>) -> Option<Plan>
    ensures { result ≡ prepared_of held }
{
    match held {
        Some(r) => { if valid(r) { Some(plan_of(r)) } else { None } }
        None => None,
    }
}

// Behind useSameStreamMux 0. The caller gets the table of an accepted configuration. What is large is kept in place.
fn with_sent(
    el: &[u8],
    c: Cursor,
    map: &mut [u32],
    table: &mut [[u8; 8]; 16],
    sent: &mut Option<Record>,
    prepared: &mut Option<Plan>,
) -> Result<Accepted, Refusal>
    requires { (4368 ≤ length map.old) × (c.at ≡ 1) × Stands el.now c }
    ensures { Takes (sent_of el.now c) map.old table.old sent.old prepared.old
        result map.new table.new sent.new prepared.new }
{
    let mut filled = [[255; 8]; 16];
    let config = stream_mux_config(el, c, &mut filled)?;
    let plan = plan_of(config.value);
    let accepted = finish(el, &plan, true, config.next, map)?;
    *table = filled;
    *sent = Some(config.value);
    *prepared = Some(plan);
    Ok(accepted)
}

// An element of a length that can be, into a map with room for every item.
fn element_of(
    el: &[u8],
    map: &mut [u32],
    table: &mut [[u8; 8]; 16],
    sent: &mut Option<Record>,
    prepared: &mut Option<Plan>,
) -> Result<Accepted, Refusal>
    requires { (4368 ≤ length map.old) × (length el.now ≤ 8191) × OfHeld prepared.old }
    ensures { TakesBy (λ held. read el.now (audio_mux_element held)) map.old table.old sent.old prepared.old
        result map.new table.new sent.new prepared.new }
{
    let flag = fetch(el, Window::Open, Cursor { at: 0, fields: 0 }, 1)?;
    if flag.value == 0 {
        return with_sent(el, flag.next, map, table, sent, prepared);
    }
    let Some(plan) = prepared else {
        return Err(refused_at(4, 0, flag.next));
    };
    finish(el, plan, false, flag.next, map)
}

// One element, by what was prepared of the configuration held before it; its items are stored into the map lent, four
// numbers each, and the streams of an accepted configuration into the table lent. What it sent and what is then held,
// prepared, are left in their places.
pub fn read_in_place(
    el: &[u8],
    map: &mut [u32],
    table: &mut [[u8; 8]; 16],
    sent: &mut Option<Record>,
    prepared: &mut Option<Plan>,
) -> Result<Accepted, Refusal>
    requires { OfHeld prepared.old }
    ensures { TakesBy (λ held. answer el.now held (length map.old)) map.old table.old sent.old prepared.old
        result map.new table.new sent.new prepared.new }
{
    if map.len() < 4368 {
        return Err(unread(1));
    }
    if el.len() == 0 || el.len() > 8191 {
        return Err(unread(2));
    }
    element_of(el, map, table, sent, prepared)
}

// The same, with all of it in the reply.
pub fn read_prepared(
    el: &[u8],
    prepared: Option<Plan>,
    map: &mut [u32],
    table: &mut [[u8; 8]; 16],
) -> PreparedReply
    requires { OfHeld prepared }
    ensures { PreparedPromise el.now prepared map.old table.old
        result map.new table.new }
{
    let mut sent = None;
    let mut then = prepared;
    let verdict = read_in_place(el, map, table, &mut sent, &mut then);
    PreparedReply {
        verdict: verdict,
        sent: sent,
        prepared: then,
    }
}

// Whether an element sends a configuration; of no byte at all it does not matter.
fn sends(el: &[u8]) -> bool
    ensures { result ≡ sends_of el.now }
{
    if el.len() == 0 {
        return true;
    }
    el[0] / 128 % 2 == 0
}

// What the reading of this element needs of what is held: nothing, where it sends a configuration.
fn prepare_for(el: &[u8], held: Option<Record>) -> Option<Plan>
    ensures { result ≡ prepared_of (needed_of el.now held) }
{
    if sends(el) { None } else { prepare(held) }
}

// The same with the configuration itself, any record at all.
pub fn read_with(
    el: &[u8],
    held: Option<Record>,
    map: &mut [u32],
    table: &mut [[u8; 8]; 16],
) -> Reply
    ensures { ReadWithPromise el.now held map.old table.old
        result map.new table.new }
{
    let prepared = prepare_for(el, held);
    let reply = read_prepared(el, prepared, map, table);
    Reply {
        verdict: reply.verdict,
        held: reply.sent.or(held),
    }
}

// The same, for callers without rows to show.
pub fn read(el: &[u8], held: Option<Record>, map: &mut [u32]) -> Reply
    ensures { ReadPromise el.now held map.old result map.new }
{
    let mut table = [[255; 8]; 16];
    read_with(el, held, map, &mut table)
}
