// The writer of elements.
#![tactic(auto)]

mod measures;

ghost use Rattle.std.specs.Prelude.{◌≡◌, true, ◌+◌, ◌-◌, ◌*◌, ◌/◌, ◌%◌, ◌≤◌, eqb, length, IfOk};
ghost use Rattle.kernel.specs.Bits.{bits_of, unpack};
ghost use Rattle.kernel.specs.Puts.{Room, Puts};
ghost use Rattle.records.specs.Table.{streams_in};
ghost use Rattle.records.specs.Valid.{valid_of};
ghost use Rattle.std.proofs.lemmas.List.Edits.{sets};
ghost use Rattle.writer.specs.Written.{bits_in, to_send, element_bits, size_of, length_bits, lengths_bits};
ghost use Rattle.writer.specs.Written.{sum_of, subframe_pieces};
ghost use Rattle.writer.specs.Write.{fits};
ghost use Rattle.writer.specs.Promises.{WritePromise};
ghost use Rattle.writer.specs.Sizes.{measured, front_bits, other_bits};

use config_writer::put_mux;
use kernel::{BitWriter, Refusal, unread};
use measures::{length_bytes, other_bytes, sum_of};
use records::{Record, Stream, streams_in, valid};

// MuxSlotLengthBytes.
#[tactic(auto, using(crate::proofs::Rows::byte_by_byte))]
fn put_length(w: &mut BitWriter, n: u32)
    requires { Room 264 w.old × (n ≤ 8191) }
    ensures { Puts w.old (length_bits n) 264 w.new }
{
    for _k in 0..n / 255 {
        w.put(8, 255);
    }
    w.put(8, n % 255);
}

// The lengths of one subframe, the first of ns; a fixed slot sends none.
#[tactic(auto, using(crate::proofs::Rows::length_by_length))]
fn put_lengths(w: &mut BitWriter, streams: &[Stream], ns: &[u32])
    requires { Room 4224 w.old × (length streams.now ≤ 16) × (length streams.now ≤ length ns.now)
        × (sum_of (length streams.now) ns.now ≤ 8191) }
    ensures { Puts w.old (lengths_bits streams.now ns.now) 4224 w.new }
{
    for (s, n) in streams.iter().zip(ns) {
        if s.kind == 0 {
            put_length(w, *n);
        }
    }
}

// All lengths, then all payloads, of n subframes.
#[tactic(auto, using(crate::proofs::Subframes::subframe_by_subframe))]
fn put_subframes(w: &mut BitWriter, streams: &[Stream], n: usize, ns: &[u32], payload: &[u8])
    requires { Room 335864 w.old × (length streams.now ≤ 16) × (n ≤ 64) × (length ns.now ≡ n * length streams.now)
        × (sum_of (n * length streams.now) ns.now ≡ length payload.now) × (length payload.now ≤ 8191) }
    ensures { Puts w.old (bits_in (subframe_pieces n streams.now ns.now payload.now)) 335864 w.new }
{
    let mut lengths = ns;
    let mut bytes = payload;
    for _j in 0..n {
        put_lengths(w, streams, lengths);
        let (row, later) = lengths.split_at(streams.len());
        let (now, behind) = bytes.split_at(sum_of(row));
        w.put_bytes(now);
        lengths = later;
        bytes = behind;
    }
}

// useSameStreamMux, and the configuration if sent.
#[tactic(auto, using(crate::proofs::Parts::parts), unfolding(crate::specs::Written::bits_in))]
fn put_front(w: &mut BitWriter, send: bool, r: Record)
    requires { Room 2974 w.old × (r.programs ≤ 15) × (streams_in r.layers r.programs 16 ≤ 16) }
    ensures { Puts w.old (front_bits send r) 2974 w.new }
{
    if send {
        w.put(1, 0);
        put_mux(w, r);
    } else {
        w.put(1, 1);
    }
}

#[tactic(auto, using(crate::proofs::Parts::parts), unfolding(crate::specs::Written::bits_in))]
fn put_other(w: &mut BitWriter, r: Record, other: &[u8])
    requires { Room 65528 w.old × (length other.now ≤ 8191) × (eqb r.other 1 ≡ true → r.bits ≤ 8 * length other.now) }
    ensures { Puts w.old (other_bits r.other r.bits other.now) 65528 w.new }
{
    if r.other == 1 {
        w.put_some(other, r.bits as usize);
    }
}

// Zeros up to a byte.
fn put_alignment(w: &mut BitWriter)
    requires { Room 7 w.old }
    ensures { Puts w.old (bits_of ((8 - w.old.at % 8) % 8) 0) 7 w.new }
{
    let n = (8 - w.at % 8) % 8;
    w.put(n, 0);
}

// Lays the element at the start of `out`.
fn put_element(out: &mut [u8], r: Record, send: bool, ns: &[u32], payload: &[u8], other: &[u8])
    requires { (valid_of r ≡ true) × (fits (to_send r send ns.now payload.now other.now) ≡ true)
        × (size_of (to_send r send ns.now payload.now other.now) ≤ 8191) }
    ensures { unpack out.new ≡ sets (unpack out.old) 0 (element_bits (to_send r send ns.now payload.now other.now)) }
{
    let count = streams_in(r.layers, r.programs);
    let n = r.subframes as usize + 1;
    let mut w = BitWriter::new(out, 0);
    put_front(&mut w, send, r);
    put_subframes(&mut w, &r.streams[..count], n, ns, payload);
    put_other(&mut w, r, other);
    put_alignment(&mut w);
}

// The bytes of the element, of which the lengths have so many. The front is counted by putting it, over bytes that
// nobody reads.
fn size_of(scratch: &mut [u8], r: Record, send: bool, lengths: usize, payload: usize) -> usize
    requires { (r.programs ≤ 15) × (streams_in r.layers r.programs 16 ≤ 16) × (lengths ≤ 17247242240)
        × (payload ≤ 4398046511104) }
    ensures { result ≡ (length (front_bits send r) + (8 * lengths + 8 * payload) + r.bits + 7) / 8 }
{
    let mut w = BitWriter::new(scratch, 0);
    put_front(&mut w, send, r);
    (w.at + (8 * lengths + 8 * payload) + r.bits as usize + 7) / 8
}

// Refusal 17, or the bytes of the lengths.
#[tactic(auto, using(crate::proofs::Element::measures))]
fn measured(r: Record, ns: &[u32], payload: &[u8], other: &[u8]) -> Result<usize, Refusal>
    requires { valid_of r ≡ true }
    ensures is { result ≡ measured (to_send r true ns.now payload.now other.now) }
    ensures small { IfOk result (λ b. (b ≤ 17247242240) × (length payload.now ≤ 4398046511104)) }
{
    let count = streams_in(r.layers, r.programs);
    let n = r.subframes as usize + 1;
    if ns.len() != n * count {
        return Err(unread(17));
    }
    let Some(bytes) = length_bytes(&r.streams[..count], n, ns) else {
        return Err(unread(17));
    };
    if payload.len() != sum_of(ns) || other.len() != other_bytes(r) {
        return Err(unread(17));
    }
    Ok(bytes)
}

// One element: a record, whether to send it, the slots' lengths in payload order, payload, and other data packed from
// the top bit; its bytes.
pub fn write(
    r: Record,
    send: bool,
    lengths: &[u32],
    payload: &[u8],
    other: &[u8],
    out: &mut [u8],
) -> Result<usize, Refusal>
    ensures { WritePromise (to_send r send lengths.now payload.now other.now)
        out.old result out.new }
{
    if !valid(r) {
        return Err(unread(16));
    }
    let bytes = measured(r, lengths, payload, other)?;
    let mut scratch = [0; 1];
    let size = size_of(&mut scratch, r, send, bytes, payload.len());
    if size > 8191 {
        return Err(unread(18));
    }
    if out.len() < size {
        return Err(unread(19));
    }
    put_element(out, r, send, lengths, payload, other);
    Ok(size)
}
