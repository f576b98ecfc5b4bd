// LOAS frames: found in a capture, and written.
#![tactic(auto)]

ghost use Rattle.std.specs.Prelude.{◌≡◌, ◌+◌, ◌≤◌, ◌<◌, MatchOption, length, get_or, take, drop};
ghost use Rattle.sync.specs.Sync.{marked, size_at, frame_at, hunt_of, element_at};
ghost use Rattle.sync.specs.Promises.{FramePromise};

use kernel::{Refusal, lay, unread};

// The place of a frame and the bytes of its element.
#[derive(Clone, Copy)]
pub struct Hunted {
    pub place: usize,
    pub size: usize,
}

// 0 past the end.
fn byte_at(s: &[u8], i: usize) -> usize
    ensures is { result ≡ get_or s.now i 0 }
    ensures small { result ≤ 255 }
{
    usize::from(s.get(i).copied().unwrap_or(0))
}

fn marked(s: &[u8], p: usize) -> bool
    requires { p + 2 ≤ 1000000 }
    ensures { result ≡ marked s.now p }
{
    byte_at(s, p) == 0x56 && p + 2 <= s.len() && byte_at(s, p + 1) / 32 == 7
}

fn size_at(s: &[u8], p: usize) -> usize
    requires { p + 2 ≤ 1000000 }
    ensures is { result ≡ size_at s.now p }
    ensures small { result ≤ 8191 }
{
    256 * (byte_at(s, p + 1) % 32) + byte_at(s, p + 2)
}

fn frame_at(s: &[u8], p: usize) -> bool
    requires { p + 8196 ≤ 1000000 }
    ensures { result ≡ frame_at s.now p }
{
    if !marked(s, p) {
        return false;
    }
    let n = size_at(s, p);
    let end = p + 3 + n;
    1 <= n && end <= s.len() && (end == s.len() || marked(s, end))
}

// The first place at or after the start where a frame stands.
#[tactic(auto, using(crate::proofs::Places::hunting))]
pub fn hunt(capture: &[u8], start: usize) -> Result<Hunted, Refusal>
    ensures { result ≡ hunt_of capture.now start }
{
    if capture.len() > 65536 {
        return Err(unread(20));
    }
    for p in start..capture.len() {
        if frame_at(capture, p) {
            return Ok(Hunted {
                place: p,
                size: size_at(capture, p),
            });
        }
    }
    Err(unread(20))
}

// The bytes of a frame behind its first three, where the capture holds them.
#[tactic(auto, using(crate::proofs::Places::behind_mark))]
fn element_in(capture: &[u8], place: usize, size: usize) -> Option<&[u8]>
    ensures { MatchOption result (length capture.now < place + 3 + size)
        (λ r. (place + 3 + size ≤ length capture.now) × (r.now ≡ take size (drop (place + 3) capture.now))) }
{
    capture.get(place..)?.get(3..)?.get(..size)
}

// The element of a frame, as a part of the caller's own bytes; no byte where the capture does not hold it.
pub fn element_at(capture: &[u8], place: usize, size: usize) -> &[u8]
    ensures { result.now ≡ element_at capture.now place size }
{
    element_in(capture, place, size).unwrap_or(&[])
}

// Lays the frame of an element at the start of `out`.
pub fn frame(el: &[u8], out: &mut [u8]) -> Result<usize, Refusal>
    ensures { FramePromise el.now out.old result out.new }
{
    let n = el.len();
    if n == 0 || n > 8191 {
        return Err(unread(2));
    }
    if out.len() < 3 + n {
        return Err(unread(19));
    }
    let [high, low] = (0xE000 + n as u16).to_be_bytes();
    let at = lay(out, 0, &[0x56, high, low]);
    Ok(lay(out, at, el))
}
