// How many bytes slots, lengths and other data have, and whether they fit.
ghost use Rattle.std.specs.Prelude.{◌≡◌, ◌*◌, ◌≤◌, IfSome, length, sum};
ghost use Rattle.writer.specs.Write.{slot_fits, other_bytes};
ghost use Rattle.writer.specs.Sizes.{bytes_of_length, row_if_fit, bytes_if_fit};

use records::{Record, Stream};

fn slot_fits(s: Stream, n: u32) -> bool
    ensures { result ≡ slot_fits s n }
{
    s.kind == 0 || n as usize == s.fixed as usize + 20
}

fn bytes_of_length(s: Stream, n: u32) -> usize
    ensures is { result ≡ bytes_of_length s n }
    ensures small { result ≤ 16843010 }
{
    if s.kind == 0 {
        return (n / 255) as usize + 1;
    }
    0
}

// The bytes of the lengths of one subframe, the first of ns; None where a fixed slot has not its size.
#[tactic(auto, using(crate::proofs::Rows::slot_by_slot))]
fn row_bytes(streams: &[Stream], ns: &[u32]) -> Option<usize>
    requires { (length streams.now ≤ 16) × (length streams.now ≤ length ns.now) }
    ensures is { result ≡ row_if_fit streams.now ns.now }
    ensures small { IfSome result (λ b. b ≤ 269488160) }
{
    let mut bytes: usize = 0;
    for (s, n) in streams.iter().zip(ns) {
        if !slot_fits(*s, *n) {
            return None;
        }
        bytes += bytes_of_length(*s, *n);
    }
    Some(bytes)
}

// Of n subframes.
#[tactic(auto, using(crate::proofs::Subframes::row_by_row))]
pub fn length_bytes(streams: &[Stream], n: usize, ns: &[u32]) -> Option<usize>
    requires { (length streams.now ≤ 16) × (n ≤ 64) × (length ns.now ≡ n * length streams.now) }
    ensures is { result ≡ bytes_if_fit n streams.now ns.now }
    ensures small { IfSome result (λ b. b ≤ 17247242240) }
{
    let mut bytes: usize = 0;
    let mut rest = ns;
    for _j in 0..n {
        bytes += row_bytes(streams, rest)?;
        let (_, later) = rest.split_at(streams.len());
        rest = later;
    }
    Some(bytes)
}

// The bytes of slots of these lengths.
pub fn sum_of(ns: &[u32]) -> usize
    requires { length ns.now ≤ 1024 }
    ensures is { result ≡ sum ns.now }
    ensures small { result ≤ 4398046511104 }
{
    ns.iter().map(|n| *n as usize).sum()
}

// The bytes that hold the other data of a record.
pub fn other_bytes(r: Record) -> usize
    ensures { result ≡ other_bytes r }
{
    if r.other == 1 {
        return (r.bits as usize + 7) / 8;
    }
    0
}
