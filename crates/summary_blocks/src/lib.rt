// The summary of a capture, in blocks: a line for each stream of a configuration that becomes held, and one for each
// refused element.
#![tactic(auto)]

ghost use Rattle.std.specs.Prelude.{◌≡◌, cond, [], ◌+◌, ◌≤◌, length, refl};
ghost use Rattle.std.proofs.Common.{ap, rules};
ghost use Rattle.kernel.specs.Lists.{Stored};
ghost use Rattle.capture.specs.Frames.{holding_of, point_of, Whole};
ghost use Rattle.summary_blocks.specs.Summary.{first_wanting, refusal_text, lines, head_text, end_text};
ghost use Rattle.summary_blocks.specs.Laid.{accepted_by, step_text, verdict_said, BlockPromise};

use capture::{Block, Holding, Mark, Reporter, Step};
use element::Accepted;
use kernel::{Refusal, lay};
use records::Record;
use summary_lines::{lay_refused, lay_rows};

// The rows of a record that was sent, where it is not what is held.
#[tactic(auto, using(records::proofs::Derived::record_is))]
fn lay_changed(
    out: &mut [u8],
    at: usize,
    element: usize,
    held: Option<Record>,
    r: Record,
    table: [[u8; 8]; 16],
) -> usize
    requires { at + 14336 ≤ 1000000 }
    ensures { (result ≤ at + 14336)
        × Stored out.old at (accepted_by element held (Some r) table) out.new result }
{
    if held == Some(r) {
        at
    } else {
        lay_rows(out, at, element, r, table)
    }
}

// Records are copied and compared only where one was sent.
fn lay_accepted(
    out: &mut [u8],
    at: usize,
    element: usize,
    held: &Option<Record>,
    sent: &Option<Record>,
    table: &[[u8; 8]; 16],
) -> usize
    requires { at + 14336 ≤ 1000000 }
    ensures { (result ≤ at + 14336)
        × Stored out.old at (accepted_by element held.now sent.now table.now) out.new result }
{
    match sent {
        Some(r) => lay_changed(out, at, element, *held, *r, *table),
        None => at,
    }
}

// Words, where they are to be said.
fn lay_if(out: &mut [u8], at: usize, said: bool, words: &[u8]) -> usize
    requires { at + length words.now ≤ 1000000 }
    ensures { (result ≤ at + length words.now)
        × Stored out.old at (cond said words.now []) out.new result }
{
    if said { lay(out, at, words) } else { at }
}

fn lay_refusal(out: &mut [u8], at: usize, element: usize, wanting: bool, x: Refusal) -> usize
    requires { at + 187 ≤ 1000000 }
    ensures { (result ≤ at + 187)
        × Stored out.old at (refusal_text element wanting x) out.new result }
{
    let a = lay_if(
        out,
        at,
        wanting,
        b"no configuration yet: elements cannot be read until one is sent\n",
    );
    lay_refused(out, a, element, x)
}

fn first_wanting(said: bool, x: Refusal) -> bool
    ensures { result ≡ first_wanting said x }
{
    !said && x.number == 4
}

fn said_after(said: bool, verdict: Result<Accepted, Refusal>) -> bool
    ensures { result ≡ verdict_said said verdict }
{
    match verdict {
        Ok(_) => said,
        Err(x) => said || first_wanting(said, x),
    }
}

// Where the summary is come to, and whether the want of a configuration was said.
#[derive(Clone, Copy)]
pub struct Summary {
    pub holding: Holding,
    pub said: bool,
}

// The lines of an element, by its step and the table that its reading left.
fn lay_verdict(
    out: &mut [u8],
    at: usize,
    from: &Summary,
    step: &Step,
    table: &[[u8; 8]; 16],
) -> usize
    requires { at + 14336 ≤ 1000000 }
    ensures { (result ≤ at + 14336)
        × Stored out.old at (step_text from.now step.now table.now) out.new result }
{
    let number = from.holding.mark.number;
    match step.verdict {
        Ok(_) => lay_accepted(out, at, number, &from.holding.held, &step.sent, table),
        Err(x) => lay_refusal(out, at, number, first_wanting(from.said, x), x),
    }
}

impl Reporter for Summary {
    type State = bool;

    ghost report = { lines };

    ghost is_of = { λ r c x. (r.holding ≡ holding_of c) × (r.said ≡ x) };

    ghost mark = { λ r. r.holding.mark };

    ghost MOST = { 14336 };

    const MOST: usize = 14336;

    fn mark(&self) -> Mark {
        self.holding.mark
    }

    fn lay(
        &self,
        out: &mut [u8],
        at: usize,
        step: &Step,
        map: &[u32],
        table: &[[u8; 8]; 16],
    ) -> usize {
        lay_verdict(out, at, self, step, table)
    }

    fn pass(&mut self, step: &Step) {
        self.holding.pass(step);
        self.said = said_after(self.said, step.verdict);
    }

    ghost mark_is = { λ r c x h. ap (λ k. k.mark) h.0 };

    ghost most_is = { refl };

    ghost most_few = { Prim.search rules };
}

// The lines of as many frames as a block is sure to have room for, from a place of a capture on.
pub fn lay_block(capture: &[u8], from: Summary, out: &mut [u8]) -> Block<Summary>
    requires { Whole from.holding }
    ensures block { BlockPromise capture.now (point_of from.holding) from.said
        out.old result out.new }
    ensures few { result.bytes ≤ length out.old }
{
    capture::lay_block(capture, from, out)
}

// The first line.
#[tactic(auto, using(summary_lines::proofs::Laid::in_parts))]
pub fn lay_head(out: &mut [u8]) -> usize
    ensures { (result ≡ 112) × Stored out.old 0 head_text out.new result }
{
    let figures = lay(
        out,
        0,
        b"element  program  layer  stream  core type    core Hz  output Hz",
    );
    lay(
        out,
        figures,
        b"  SBR            PS             output channels\n",
    )
}

// The last lines, by the number of frames and whether the capture was cut off.
#[tactic(auto, using(summary_lines::proofs::Laid::in_parts))]
pub fn lay_end(out: &mut [u8], frames: usize, over: bool) -> usize
    ensures { (result ≤ 109) × Stored out.old 0 (end_text frames over) out.new result }
{
    let a = lay_if(
        out,
        0,
        frames == 0,
        b"no frame in this capture (refusal 20)\n",
    );
    lay_if(
        out,
        a,
        over,
        b"the capture is longer than 65536 bytes: only the first 65536 were read\n",
    )
}
