// What 16 refuses, from the leaves up.
ghost use Rattle.std.specs.Prelude.{◌≡◌};
ghost use Rattle.std.specs.List.{list_all, enumerate_from};
ghost use Rattle.records.specs.Valid.{valid_freq, valid_form, valid_config, valid_fixed, valid_stream};
ghost use Rattle.records.specs.Valid.{blank_stream};
ghost use Rattle.records.specs.Valid.{stream_ok, streams_ok, layer_ok, layers_ok, head_ok, ending_ok, valid_of};

use crate::{Config, Form, Freq, Record, Stream, streams_in};

fn valid_freq(f: Freq) -> bool
    ensures { result ≡ valid_freq f }
{
    match f {
        Freq::Index(i) => i <= 12,
        Freq::Hz(h) => 1 <= h && h <= 16777215,
    }
}

fn valid_form(version: u32, f: Form) -> bool
    ensures { result ≡ valid_form version f }
{
    match f {
        Form::None => true,
        Form::Type5(x) | Form::Type29(x) => valid_freq(x),
        Form::Flag0 => version == 1,
        Form::Flag1(x) => version == 1 && valid_freq(x),
        Form::FlagPs(x, b) => version == 1 && valid_freq(x) && b <= 1,
    }
}

fn valid_config(version: u32, c: Config) -> bool
    ensures { result ≡ valid_config version c }
{
    1 <= c.core
        && c.core <= 4
        && 1 <= c.channels
        && c.channels <= 7
        && c.flag <= 1
        && c.depends == 0
        && c.extension == 0
        && valid_freq(c.freq)
        && valid_form(version, c.form)
}

fn valid_fixed(kind: u32, fullness: u32, fixed: u32) -> bool
    ensures { result ≡ valid_fixed kind fullness fixed }
{
    match kind {
        0 => fullness <= 255 && fixed == 0,
        1 => fullness == 0 && fixed <= 511,
        _ => false,
    }
}

fn valid_stream(version: u32, s: Stream) -> bool
    ensures { result ≡ valid_stream version s }
{
    valid_config(version, s.config) && valid_fixed(s.kind, s.fullness, s.fixed)
}

// By a pattern: it takes fewer steps than the derived equality, and a record has up to 15 such streams.
fn blank_stream(s: Stream) -> bool
    ensures { result ≡ blank_stream s }
{
    matches!(
        s,
        Stream {
            config: Config {
                core: 0,
                freq: Freq::Index(0),
                channels: 0,
                flag: 0,
                depends: 0,
                extension: 0,
                form: Form::None,
            },
            kind: 0,
            fullness: 0,
            fixed: 0,
        }
    )
}

fn stream_ok(version: u32, k: usize, i: usize, s: Stream) -> bool
    ensures { result ≡ stream_ok version k i s }
{
    if i < k {
        return valid_stream(version, s);
    }
    blank_stream(s)
}

fn streams_ok(version: u32, k: usize, streams: [Stream; 16]) -> bool
    ensures { result ≡ list_all (λ x. stream_ok version k x.0 x.1) (enumerate_from 0 streams) }
{
    streams
        .iter()
        .enumerate()
        .all(|(i, s)| stream_ok(version, k, i, *s))
}

fn layer_ok(n: usize, p: usize, x: u32) -> bool
    ensures { result ≡ layer_ok n p x }
{
    if p <= n {
        return x <= 7;
    }
    x == 0
}

fn layers_ok(layers: [u32; 16], programs: u32) -> bool
    ensures { result ≡ list_all (λ x. layer_ok programs x.0 x.1) (enumerate_from 0 layers) }
{
    let n = programs as usize;
    layers.iter().enumerate().all(|(p, x)| layer_ok(n, p, *x))
}

fn head_ok(r: Record) -> bool
    ensures { result ≡ head_ok r }
{
    r.version <= 1
        && r.subversion == 0
        && (r.version == 1 || r.tara == 0)
        && r.framing == 1
        && r.subframes <= 63
        && r.programs <= 15
}

fn ending_ok(r: Record) -> bool
    ensures { result ≡ ending_ok r }
{
    r.other <= 1
        && (r.other == 1 || r.bits == 0)
        && r.checked <= 1
        && (r.checked == 1 || r.crc == 0)
        && r.crc <= 255
}

// Whether a record may be written and held.
pub fn valid(r: Record) -> bool
    ensures { result ≡ valid_of r }
{
    let k = streams_in(r.layers, r.programs);
    head_ok(r)
        && ending_ok(r)
        && layers_ok(r.layers, r.programs)
        && k <= 16
        && streams_ok(r.version, k, r.streams)
}
