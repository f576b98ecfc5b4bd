// The listing of a capture, in blocks: a record of 24 bytes for each item of an accepted element, and one for a refused
// element.
#![tactic(auto)]

ghost use Rattle.std.specs.Prelude.{◌≡◌, ◌+◌, ◌*◌, ◌≤◌, length, refl};
ghost use Rattle.std.proofs.Common.{rules};
ghost use Rattle.kernel.specs.Lists.{Stored};
ghost use Rattle.capture.specs.Frames.{OfPoint, mark_of};
ghost use Rattle.capture.specs.Blocks.{Within};
ghost use Rattle.listing_blocks.specs.Listing.{digit_at, line_of, letter_of, refused_line, records};
ghost use Rattle.listing_blocks.specs.Laid.{line_by, map_lines, verdict_lines, BlockPromise};

use capture::{Block, Mark, Reporter, Step};
use element::Accepted;
use items::{Item, item_at};
use kernel::{Refusal, lay};

// The digit of n at a place 1, 10, 100, .. By hand for the same reason as in text.
fn digit(n: usize, place: usize) -> u8
    requires { 1 ≤ place }
    ensures { result ≡ digit_at n place }
{
    b'0' + (n / place % 10) as u8
}

#[tactic(auto, unfolding(crate::specs::Listing::line_of))]
fn line_of(number: usize, letter: u8, stream: usize, first: usize, width: usize) -> [u8; 24]
    ensures { result ≡ line_of number letter stream first width }
{
    [
        digit(number, 100000),
        digit(number, 10000),
        digit(number, 1000),
        digit(number, 100),
        digit(number, 10),
        digit(number, 1),
        b' ',
        letter,
        b' ',
        digit(stream, 10),
        digit(stream, 1),
        b' ',
        digit(first, 10000),
        digit(first, 1000),
        digit(first, 100),
        digit(first, 10),
        digit(first, 1),
        b' ',
        digit(width, 10000),
        digit(width, 1000),
        digit(width, 100),
        digit(width, 10),
        digit(width, 1),
        b'\n',
    ]
}

// Of kinds 1 to 6.
const LETTERS: &[u8; 7] = b"?UCLPOA";

fn letter_of(kind: u32) -> u8
    ensures { result ≡ letter_of kind }
{
    LETTERS.get(kind as usize).copied().unwrap_or(b'?')
}

// The record of an item.
fn item_line(number: usize, it: Item) -> [u8; 24]
    ensures { result ≡ line_by number it }
{
    line_of(
        number,
        letter_of(it.kind),
        it.stream as usize,
        it.first as usize,
        it.width as usize,
    )
}

// The records of a map's first items, from byte `at` on; the byte behind them.
#[tactic(auto, using(crate::proofs::Lines::lines))]
fn lay_items(out: &mut [u8], at: usize, number: usize, map: &[u32], items: usize) -> usize
    requires { at + 24 * items ≤ 1000000 }
    ensures { (result ≡ at + 24 * items)
        × Stored out.old at (map_lines number map.now 0 items) out.new result }
{
    let mut to = at;
    for i in 0..items {
        to = lay(out, to, &item_line(number, item_at(map, i)));
    }
    to
}

#[tactic(auto, using(crate::proofs::Lines::lines))]
fn lay_refused(out: &mut [u8], at: usize, number: usize, x: Refusal) -> usize
    requires { at + 24 ≤ 1000000 }
    ensures { (result ≡ at + 24)
        × Stored out.old at (refused_line number x.number x.place x.fields) out.new result }
{
    lay(out, at, &line_of(number, b'X', x.number, x.place, x.fields))
}

// The records of an element, by its verdict and its map.
fn lay_verdict(
    out: &mut [u8],
    at: usize,
    number: usize,
    v: Result<Accepted, Refusal>,
    map: &[u32],
) -> usize
    requires { (at + 26208 ≤ 1000000) × Within v }
    ensures { (result ≤ at + 26208)
        × Stored out.old at (verdict_lines number v map.now) out.new result }
{
    match v {
        Ok(a) => lay_items(out, at, number, map, a.items as usize),
        Err(x) => lay_refused(out, at, number, x),
    }
}

// The listing of a capture, come to a mark.
#[derive(Clone, Copy)]
pub struct Listing {
    pub mark: Mark,
}

impl Reporter for Listing {
    type State = ();

    ghost report = { records };

    ghost is_of = { λ r c x. r.mark ≡ mark_of c };

    ghost mark = { λ r. r.mark };

    ghost MOST = { 26208 };

    const MOST: usize = 26208;

    fn mark(&self) -> Mark {
        self.mark
    }

    fn lay(
        &self,
        out: &mut [u8],
        at: usize,
        step: &Step,
        map: &[u32],
        table: &[[u8; 8]; 16],
    ) -> usize {
        lay_verdict(out, at, self.mark.number, step.verdict, map)
    }

    fn pass(&mut self, step: &Step) {
        self.mark = step.next;
    }

    ghost mark_is = { λ r c x h. h };

    ghost most_is = { refl };

    ghost most_few = { Prim.search rules };
}

// The records of as many frames as a block is sure to have room for, from a place of a capture on.
pub fn lay_block(capture: &[u8], from: Mark, out: &mut [u8]) -> Block<Listing>
    requires { OfPoint from }
    ensures block { BlockPromise capture.now from out.old result out.new }
    ensures few { result.bytes ≤ length out.old }
{
    capture::lay_block(capture, Listing { mark: from }, out)
}
