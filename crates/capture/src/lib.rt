// The frames of a capture one after the other, each read with what was held by then.
#![tactic(auto)]

ghost use Rattle.std.specs.Prelude.{◌≡◌, ℕ, ◌+◌, ◌≤◌, None, length};
ghost use Rattle.capture.specs.Blocks.{block_room, Report, Within};
ghost use Rattle.capture.specs.Frames.{Point, start, mark_of, OfPoint, holding_of, holding_behind};
ghost use Rattle.capture.specs.Promises.{AdvancePromise, MarkPromise, LayPromise, BehindPromise};
ghost use Rattle.capture.specs.Promises.{IsOfSome, BlockPromise};

use element::Accepted;
use kernel::Refusal;
use reader::read_in_place;
use records::Record;
use sync::{element_at, hunt};
use walk::Plan;

// What is kept of where a capture is come to: the byte from which the next frame is hunted, the number of its element,
// and what is held, prepared.
#[derive(Clone, Copy)]
pub struct Mark {
    pub at: usize,
    pub number: usize,
    pub prepared: Option<Plan>,
}

// A mark and what is held there itself, for programs that show it or write it anew.
#[derive(Clone, Copy)]
pub struct Holding {
    pub mark: Mark,
    pub held: Option<Record>,
}

// A step over a frame: its place, the bytes of its element, the verdict on it, the configuration that an accepted
// element sent, and where the capture is then come to.
#[derive(Clone, Copy)]
pub struct Step {
    pub place: usize,
    pub size: usize,
    pub verdict: Result<Accepted, Refusal>,
    pub sent: Option<Record>,
    pub next: Mark,
}

// Where every capture begins.
#[tactic(auto, using(crate::proofs::Steps::nothing))]
pub fn start() -> Mark
    ensures { result ≡ mark_of start }
{
    Mark {
        at: 0,
        number: 0,
        prepared: None,
    }
}

// The same, with what is held there.
pub fn start_holding() -> Holding
    ensures { result ≡ holding_of start }
{
    Holding {
        mark: start(),
        held: None,
    }
}

// Hunts for the next frame, if one is left, and reads its element into the map and the table lent, as `read_in_place`
// does. Of no capture has an element a number that the remainder changes.
pub fn advance(
    capture: &[u8],
    from: Mark,
    map: &mut [u32],
    table: &mut [[u8; 8]; 16],
) -> Option<Step>
    requires { OfPoint from }
    ensures { AdvancePromise capture.now from map.old table.old result
        map.new table.new }
{
    let found = hunt(capture, from.at).ok()?;
    let el = element_at(capture, found.place, found.size);
    let mut sent = None;
    let mut prepared = from.prepared;
    let verdict = read_in_place(el, map, table, &mut sent, &mut prepared);
    Some(Step {
        place: found.place,
        size: found.size,
        verdict: verdict,
        sent: sent,
        next: Mark {
            at: found.place + 3 + found.size,
            number: from.number % 65536 + 1,
            prepared: prepared,
        },
    })
}

impl Holding {
    // Goes on to where the capture is come to by a step. In place, since what is held is large, and is seldom sent.
    pub fn pass(&mut self, step: &Step)
        ensures { self.new ≡ holding_behind self.old step.now }
    {
        self.mark = step.next;
        if step.sent.is_some() {
            self.held = step.sent;
        }
    }
}

// Of bytes lent for a block, how many are used.
pub fn block_room(length: usize) -> usize
    ensures { result ≡ block_room length }
{
    length.min(65536)
}

// Who reports the frames of a capture: where it is come to, with the state that frames change, and how the text of a
// frame is laid.
pub trait Reporter: Copy {
    ghost use Rattle.capture.specs.declared.Mark.{Mark};

    type State;

    ghost report: { Report Self.State };

    ghost is_of: { Self → Point → Self.State → Type 0 };

    ghost mark: { Self → Mark };

    ghost MOST: { ℕ };

    // The most bytes that the text of a frame has.
    const MOST: usize;

    // The mark of where the capture is come to.
    fn mark(&self) -> Mark
        ensures { result ≡ mark self.now };

    // The text of the frame that a step is over, by the map and the table that it left; the byte behind it.
    fn lay(
        &self,
        out: &mut [u8],
        at: usize,
        step: &Step,
        map: &[u32],
        table: &[[u8; 8]; 16],
    ) -> usize
        requires { (at + MOST ≤ 1000000) × Within step.now.verdict }
        ensures { (result ≤ at + MOST)
            × LayPromise report is_of self.now step.now map.now table.now
            out.old at out.new result };

    // Goes on behind that frame.
    fn pass(&mut self, step: &Step)
        ensures { BehindPromise report is_of self.old step.now self.new };

    ghost mark_is: { MarkPromise is_of mark };

    ghost most_is: { report.most ≡ MOST };

    ghost most_few: { MOST ≤ 65536 };
}

// Where a report is come to, the bytes of text laid, and whether no frame is left.
#[derive(Clone, Copy)]
pub struct Block<R> {
    pub reached: R,
    pub bytes: usize,
    pub ended: bool,
}

// The texts of one frame after the other, as long as 65,536 bytes of `out` have room for the longest. Map and table are
// scratch.
fn lay_frames<R: Reporter>(
    capture: &[u8],
    from: R,
    map: &mut [u32],
    table: &mut [[u8; 8]; 16],
    out: &mut [u8],
) -> Block<R>
    requires { (length map.old ≡ 4368) × IsOfSome R.is_of from }
    ensures block { BlockPromise R.report R.is_of capture.now from out.old result out.new }
    ensures few { result.bytes ≤ length out.old }
{
    let room = block_room(out.len());
    let mut reached = from;
    let mut used: usize = 0;
    // Turns go on while there is room, and no index is counted.
    while used + R::MOST <= room {
        let Some(step) = advance(capture, reached.mark(), map, table) else {
            return Block {
                reached: reached,
                bytes: used,
                ended: true,
            };
        };
        used = reached.lay(out, used, &step, map, table);
        reached.pass(&step);
    }
    Block {
        reached: reached,
        bytes: used,
        ended: false,
    }
}

// The texts of as many frames as a block is sure to have room for, from a place of a capture on.
pub fn lay_block<R: Reporter>(capture: &[u8], from: R, out: &mut [u8]) -> Block<R>
    requires { IsOfSome R.is_of from }
    ensures block { BlockPromise R.report R.is_of capture.now from out.old result out.new }
    ensures few { result.bytes ≤ length out.old }
{
    let mut map = [0; 4368];
    let mut table = [[255; 8]; 16];
    lay_frames(capture, from, &mut map, &mut table, out)
}
