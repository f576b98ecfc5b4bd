// A record's words, laid into words lent.
ghost use Rattle.std.specs.Prelude.{◌≡◌, ◌+◌, ◌*◌, ◌≤◌, length};
ghost use Rattle.kernel.specs.Lists.{Stored};
ghost use Rattle.record_words.specs.Words.{layers_at, stream_size, record_size, freq_choice, freq_number, form_words};
ghost use Rattle.record_words.specs.Words.{stream_words, streams_words, head_words, words_of};
ghost use Rattle.record_words.specs.Promises.{LayPromise};

use crate::{RECORD_WORDS, STREAM_WORDS};
use records::{Form, Freq, Record, Stream};

fn freq_choice(f: Freq) -> u32
    ensures { result ≡ freq_choice f }
{
    match f {
        Freq::Index(_) => 0,
        Freq::Hz(_) => 1,
    }
}

fn freq_number(f: Freq) -> u32
    ensures { result ≡ freq_number f }
{
    match f {
        Freq::Index(i) => i,
        Freq::Hz(h) => h,
    }
}

fn form_words(f: Form) -> [u32; 4]
    ensures { result ≡ form_words f }
{
    match f {
        Form::None => [0, 0, 0, 0],
        Form::Type5(x) => [1, freq_choice(x), freq_number(x), 0],
        Form::Type29(x) => [2, freq_choice(x), freq_number(x), 0],
        Form::Flag0 => [3, 0, 0, 0],
        Form::Flag1(x) => [4, freq_choice(x), freq_number(x), 0],
        Form::FlagPs(x, b) => [5, freq_choice(x), freq_number(x), b],
    }
}

fn stream_words(s: Stream) -> [u32; STREAM_WORDS]
    ensures { result ≡ stream_words s }
{
    let c = s.config;
    let form = form_words(c.form);
    [
        c.core,
        freq_choice(c.freq),
        freq_number(c.freq),
        c.channels,
        c.flag,
        c.depends,
        c.extension,
        form[0],
        form[1],
        form[2],
        form[3],
        s.kind,
        s.fullness,
        s.fixed,
    ]
}

// Words from place `at` on; the place behind them. Not kernel's `lay`, which drops what has no room: here there is
// room.
#[tactic(auto, using(crate::proofs::Words::copied))]
fn lay(out: &mut [u32], at: usize, src: &[u32]) -> usize
    requires { at + length src.now ≤ length out.old }
    ensures { (result ≡ at + length src.now)
        × Stored out.old at src.now out.new result }
{
    let to = at + src.len();
    out[at..to].copy_from_slice(src);
    to
}

fn lay_stream(out: &mut [u32], at: usize, s: Stream) -> usize
    requires { at + stream_size ≤ length out.old }
    ensures { (result ≡ at + stream_size) × Stored out.old at (stream_words s) out.new result }
{
    lay(out, at, &stream_words(s))
}

fn lay_streams(out: &mut [u32], at: usize, streams: [Stream; 16]) -> usize
    requires { at + 16 * stream_size ≤ length out.old }
    ensures { (result ≡ at + 16 * stream_size)
        × Stored out.old at (streams_words streams) out.new result }
{
    let mut to = at;
    for s in streams {
        to = lay_stream(out, to, s);
    }
    to
}

fn lay_head(out: &mut [u32], r: Record) -> usize
    requires { layers_at ≤ length out.old }
    ensures { (result ≡ layers_at) × Stored out.old 0 (head_words r) out.new result }
{
    let words = [
        r.version,
        r.subversion,
        r.tara,
        r.framing,
        r.subframes,
        r.programs,
        r.other,
        r.bits,
        r.checked,
        r.crc,
    ];
    lay(out, 0, &words)
}

fn lay_all(out: &mut [u32], r: Record) -> usize
    requires { record_size ≤ length out.old }
    ensures { (result ≡ record_size) × Stored out.old 0 (words_of r) out.new result }
{
    let head = lay_head(out, r);
    let first = lay(out, head, &r.layers);
    lay_streams(out, first, r.streams)
}

// Lays the words at the start, where there is room for them.
#[tactic(auto, unfolding(crate::specs::Words::laid_in))]
pub fn lay_record(out: &mut [u32], r: Record) -> bool
    ensures { LayPromise r out.old result out.new }
{
    if out.len() < RECORD_WORDS {
        return false;
    }
    lay_all(out, r);
    true
}
