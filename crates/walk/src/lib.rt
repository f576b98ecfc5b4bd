// The walk over an element behind its configuration: dry, or storing the map.
#![tactic(auto)]

mod slots;

ghost use Rattle.std.specs.Prelude.{◌≡◌, ◌+◌, ◌*◌, ◌≤◌, ◌<◌, IfOk, length, take};
ghost use Rattle.std.proofs.lemmas.List.Edits.{sets};
ghost use Rattle.kernel.specs.Reading.{Stands};
ghost use Rattle.kernel.specs.Element.{closed};
ghost use Rattle.element.specs.Mux.{pass_over, payload_mux, subframe, subframes, other_data, byte_alignment};
ghost use Rattle.walk.specs.Plan.{slots_by, other_by, planned, Planned};
ghost use Rattle.walk.specs.Parts.{walked, mapped, front_numbers, front_count};
ghost use Rattle.walk.specs.Promises.{Ready, FinishPromise};

use element::Accepted;
use kernel::{Cursor, Refusal, refused_at, skip};
use slots::lengths_of;

// What a walk needs of a configuration: of each stream the bits of its slots, where they are fixed; and the bits of
// other data, if there is any.
#[derive(Clone, Copy)]
pub struct Plan {
    pub slots: [Option<u32>; 16],
    pub streams: usize,
    pub subframes: u32,
    pub other: Option<u32>,
}

// How far a walk has come: so many items were made, and the cursor behind the last.
#[derive(Clone, Copy)]
pub struct Walked {
    pub items: u32,
    pub cursor: Cursor,
}

// An item stored behind the k that stand, kind, stream, first bit and width, all of them numbers, as the C interface
// gives a map. A map without a place keeps nothing: it is lent where a walk is dry.
#[tactic(auto, using(crate::proofs::Steps::sets_none))]
fn push(map: &mut [u32], k: u32, item: [u32; 4])
    requires { 0 < length map.old → 4 * (k + 1) ≤ length map.old }
    ensures { map.new ≡ sets map.old (4 * k) item }
{
    if map.len() > 0 {
        let at = 4 * k as usize;
        map[at] = item[0];
        map[at + 1] = item[1];
        map[at + 2] = item[2];
        map[at + 3] = item[3];
    }
}

// An item passed over: its bits must be there.
#[tactic(auto, using(crate::proofs::Steps::steps))]
fn pass_item(
    el: &[u8],
    kind: u32,
    stream: u32,
    width: u32,
    from: Walked,
    map: &mut [u32],
) -> Result<Walked, Refusal>
    requires { Ready el.now from map.old 1 }
    ensures walks { result ≡ walked el.now (pass_over closed kind stream width) from }
    ensures maps { map.new ≡ mapped el.now (pass_over closed kind stream width) from map.old }
    ensures few { IfOk result (λ w. w.items ≤ from.items + 1) }
{
    let cursor = skip(el, from.cursor, width as usize)?;
    push(
        map,
        from.items,
        [kind, stream, from.cursor.at as u32, width],
    );
    Ok(Walked {
        items: from.items + 1,
        cursor: cursor,
    })
}

// A payload for each stream, of these widths.
#[tactic(auto, using(crate::proofs::Turns::payload_by_payload))]
fn payloads_of(el: &[u8], widths: &[u32], from: Walked, map: &mut [u32]) -> Result<Walked, Refusal>
    requires { (length widths.now ≤ 16) × Ready el.now from map.old (length widths.now) }
    ensures walks { result ≡ walked el.now (payload_mux 0 widths.now) from }
    ensures maps { map.new ≡ mapped el.now (payload_mux 0 widths.now) from map.old }
    ensures few { IfOk result (λ w. w.items ≤ from.items + length widths.now) }
{
    let mut walked = from;
    for (i, width) in widths.iter().enumerate() {
        walked = pass_item(el, 4, i as u32, *width, walked, map)?;
    }
    Ok(walked)
}

// One subframe: all lengths, then all payloads.
#[tactic(auto, using(crate::proofs::Steps::part_steps), unfolding(element::specs::Mux::subframe))]
fn subframe_of(
    el: &[u8],
    slots: &[Option<u32>],
    from: Walked,
    map: &mut [u32],
) -> Result<Walked, Refusal>
    requires { (length slots.now ≤ 16) × Ready el.now from map.old 17 }
    ensures walks { result ≡ walked el.now (subframe (slots_by slots.now)) from }
    ensures maps { map.new ≡ mapped el.now (subframe (slots_by slots.now)) from map.old }
    ensures few { IfOk result (λ w. w.items ≤ from.items + 17) }
{
    let first = from.cursor.at;
    let lengths = lengths_of(el, slots, from.cursor)?;
    let width = lengths.next.at - first;
    push(map, from.items, [3, 0, first as u32, width as u32]);
    let behind = Walked {
        items: from.items + 1,
        cursor: lengths.next,
    };
    payloads_of(el, &lengths.value[..slots.len()], behind, map)
}

#[tactic(auto, using(crate::proofs::Turns::subframe_by_subframe))]
fn subframes_of(
    el: &[u8],
    slots: &[Option<u32>],
    count: u32,
    from: Walked,
    map: &mut [u32],
) -> Result<Walked, Refusal>
    requires { (length slots.now ≤ 16) × Ready el.now from map.old (17 * count) }
    ensures walks { result ≡ walked el.now (subframes count (slots_by slots.now)) from }
    ensures maps { map.new ≡ mapped el.now (subframes count (slots_by slots.now)) from map.old }
    ensures few { IfOk result (λ w. w.items ≤ from.items + 17 * count) }
{
    let mut walked = from;
    for i in 0..count {
        walked = subframe_of(el, slots, walked, map)?;
    }
    Ok(walked)
}

#[tactic(auto, using(crate::proofs::Steps::steps), unfolding(element::specs::Mux::other_data))]
fn other_of(el: &[u8], other: Option<u32>, from: Walked, map: &mut [u32]) -> Result<Walked, Refusal>
    requires { Ready el.now from map.old 1 }
    ensures walks { result ≡ walked el.now (other_by other) from }
    ensures maps { map.new ≡ mapped el.now (other_by other) from map.old }
    ensures few { IfOk result (λ w. w.items ≤ from.items + 1) }
{
    match other {
        Some(bits) => pass_item(el, 5, 0, bits, from, map),
        None => Ok(from),
    }
}

#[tactic(auto, using(crate::proofs::Steps::steps), unfolding(element::specs::Mux::byte_alignment))]
fn alignment_of(el: &[u8], from: Walked, map: &mut [u32]) -> Result<Walked, Refusal>
    requires { Ready el.now from map.old 1 }
    ensures walks { result ≡ walked el.now byte_alignment from }
    ensures maps { map.new ≡ mapped el.now byte_alignment from map.old }
    ensures few { IfOk result (λ w. w.items ≤ from.items + 1) }
{
    let width = (8 - from.cursor.at % 8) % 8;
    pass_item(el, 6, 0, width as u32, from, map)
}

// What follows the configuration.
#[tactic(auto, using(crate::proofs::Steps::steps), unfolding(element::specs::Mux::rest))]
fn rest_of(el: &[u8], plan: &Plan, from: Walked, map: &mut [u32]) -> Result<Walked, Refusal>
    requires { Planned plan.now × Ready el.now from map.old (17 * plan.now.subframes + 2) }
    ensures walks { result ≡ walked el.now (planned plan.now) from }
    ensures maps { map.new ≡ mapped el.now (planned plan.now) from map.old }
    ensures few { IfOk result (λ w. w.items ≤ from.items + (17 * plan.now.subframes + 2)) }
{
    let slots = &plan.slots[..plan.streams];
    let framed = subframes_of(el, slots, plan.subframes, from, map)?;
    let othered = other_of(el, plan.other, framed, map)?;
    alignment_of(el, othered, map)
}

fn front_count(sent: bool) -> u32
    ensures { result ≡ front_count sent }
{
    if sent { 2 } else { 1 }
}

// The items in front: the flag, and the configuration where one was sent, up to bit `at`.
#[tactic(auto, using(crate::proofs::Ending::fronts))]
fn push_front(map: &mut [u32], sent: bool, at: u32)
    requires { (8 ≤ length map.old) × (1 ≤ at) }
    ensures { map.new ≡ sets map.old 0 (front_numbers sent at) }
{
    push(map, 0, [1, 0, 0, 1]);
    if sent {
        push(map, 1, [2, 0, 1, at - 1]);
    }
}

// The walk behind the configuration, first over a map that keeps nothing, and once it is accepted again, into the map.
pub fn finish(
    el: &[u8],
    plan: &Plan,
    sent: bool,
    c: Cursor,
    map: &mut [u32],
) -> Result<Accepted, Refusal>
    requires { Planned plan.now × (4368 ≤ length map.old) × (1 ≤ c.at) × Stands el.now c }
    ensures { FinishPromise sent el.now plan.now c map.old result map.new }
{
    let from = Walked {
        items: front_count(sent),
        cursor: c,
    };
    let end = rest_of(el, plan, from, &mut [])?.cursor;
    if end.at != 8 * el.len() {
        return Err(refused_at(15, end.at, end));
    }
    push_front(map, sent, c.at as u32);
    let whole = rest_of(el, plan, from, map)?;
    Ok(Accepted {
        items: whole.items,
        fields: whole.cursor.fields as u32,
        sent: sent,
    })
}
