// The record that words are.
ghost use Rattle.std.specs.Prelude.{◌≡◌, ◌≤◌, length};
ghost use Rattle.record_words.specs.Words.{stream_size, record_size, words_of, freq_from, form_from, stream_from};
ghost use Rattle.record_words.specs.Words.{layers_from, streams_from, record_from, same_words, record_in};

use crate::{LAYERS_AT, RECORD_WORDS, STREAM_WORDS, STREAMS_AT, lay_record};
use records::{Config, Form, Freq, Record, Stream, no_record, no_stream};

// The words of a stream, and of what a record has once, by the names that include/schilfauge.h gives them.
const STREAM_CORE: usize = 0;

const STREAM_CHOICE: usize = 1;

const STREAM_FREQUENCY: usize = 2;

const STREAM_CHANNELS: usize = 3;

const STREAM_FLAG: usize = 4;

const STREAM_DEPENDS: usize = 5;

const STREAM_EXTENSION: usize = 6;

const STREAM_FORM: usize = 7;

const STREAM_FORM_CHOICE: usize = 8;

const STREAM_FORM_FREQUENCY: usize = 9;

const STREAM_PS: usize = 10;

const STREAM_KIND: usize = 11;

const STREAM_FULLNESS: usize = 12;

const STREAM_FIXED: usize = 13;

const RECORD_VERSION: usize = 0;

const RECORD_SUBVERSION: usize = 1;

const RECORD_TARA: usize = 2;

const RECORD_FRAMING: usize = 3;

const RECORD_SUBFRAMES: usize = 4;

const RECORD_PROGRAMS: usize = 5;

const RECORD_OTHER: usize = 6;

const RECORD_BITS: usize = 7;

const RECORD_CHECKED: usize = 8;

const RECORD_CRC: usize = 9;

fn freq_from(choice: u32, n: u32) -> Freq
    ensures { result ≡ freq_from choice n }
{
    match choice {
        0 => Freq::Index(n),
        _ => Freq::Hz(n),
    }
}

fn form_from(tag: u32, x: Freq, ps: u32) -> Form
    ensures { result ≡ form_from tag x ps }
{
    match tag {
        0 => Form::None,
        1 => Form::Type5(x),
        2 => Form::Type29(x),
        3 => Form::Flag0,
        4 => Form::Flag1(x),
        _ => Form::FlagPs(x, ps),
    }
}

// The stream whose words stand first.
fn stream_from(w: &[u32]) -> Stream
    requires { stream_size ≤ length w.now }
    ensures { result ≡ stream_from w.now }
{
    let x = freq_from(w[STREAM_CHOICE], w[STREAM_FREQUENCY]);
    let y = freq_from(w[STREAM_FORM_CHOICE], w[STREAM_FORM_FREQUENCY]);
    let f = form_from(w[STREAM_FORM], y, w[STREAM_PS]);
    let c = Config {
        core: w[STREAM_CORE],
        freq: x,
        channels: w[STREAM_CHANNELS],
        flag: w[STREAM_FLAG],
        depends: w[STREAM_DEPENDS],
        extension: w[STREAM_EXTENSION],
        form: f,
    };
    Stream {
        config: c,
        kind: w[STREAM_KIND],
        fullness: w[STREAM_FULLNESS],
        fixed: w[STREAM_FIXED],
    }
}

#[tactic(auto, using(crate::proofs::Words::layers_part))]
fn layers_from(w: &[u32]) -> [u32; 16]
    requires { record_size ≤ length w.now }
    ensures { result ≡ layers_from w.now }
{
    let mut layers = [0; 16];
    layers.copy_from_slice(&w[LAYERS_AT..STREAMS_AT]);
    layers
}

fn streams_from(w: &[u32]) -> [Stream; 16]
    requires { record_size ≤ length w.now }
    ensures { result ≡ streams_from w.now }
{
    let mut streams = [no_stream(); 16];
    for i in 0..16 {
        streams[i] = stream_from(&w[STREAMS_AT + STREAM_WORDS * i..]);
    }
    streams
}

fn record_from(w: &[u32]) -> Record
    requires { record_size ≤ length w.now }
    ensures { result ≡ record_from w.now }
{
    Record {
        version: w[RECORD_VERSION],
        subversion: w[RECORD_SUBVERSION],
        tara: w[RECORD_TARA],
        framing: w[RECORD_FRAMING],
        subframes: w[RECORD_SUBFRAMES],
        programs: w[RECORD_PROGRAMS],
        other: w[RECORD_OTHER],
        bits: w[RECORD_BITS],
        checked: w[RECORD_CHECKED],
        crc: w[RECORD_CRC],
        layers: layers_from(w),
        streams: streams_from(w),
    }
}

// Whether the words of a record are these.
fn has_words(r: Record, w: &[u32]) -> bool
    requires { record_size ≤ length w.now }
    ensures { result ≡ same_words (words_of r) w.now }
{
    let mut words = [0u32; RECORD_WORDS];
    lay_record(&mut words, r);
    words[..] == w[..RECORD_WORDS]
}

// The record that the first RECORD_WORDS words are, or the blank one.
#[tactic(auto, unfolding(crate::specs::Words::record_in))]
pub fn record_in(w: &[u32]) -> Record
    ensures { result ≡ record_in w.now }
{
    if w.len() < RECORD_WORDS {
        return no_record();
    }
    let r = record_from(w);
    if has_words(r, w) {
        return r;
    }
    no_record()
}
