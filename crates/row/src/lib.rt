// The row of a stream.
#![tactic(auto)]

ghost use Rattle.std.specs.Prelude.{◌≡◌, [], ◌<◌, get_or};
ghost use Rattle.row.specs.Row.{hz_at, hz_of, sbr_of, ps_of, output_of, channels_at, output_channels, row_of, row_in};

use records::{Form, Freq, Record, Stream};

// SBR and PS are 1, 0, or minus one where the configuration sent no flag: numbers, since `row_of`
// promises those of `row_in`.
#[derive(Clone, Copy)]
pub struct Row {
    pub program: u32,
    pub layer: u32,
    pub core: u32, // audioObjectType
    pub rate: u32, // Hz of the core
    pub output: u32, // Hz of the output
    pub sbr: i32,
    pub ps: i32,
    pub channels: u32, // of the output: two where PS is 1 over channel configuration 1
}

const RATES: [u32; 13] = [
    96000, 88200, 64000, 48000, 44100, 32000, 24000, 22050, 16000, 12000, 11025, 8000, 7350,
];

fn hz_at(i: u32) -> u32
    ensures { result ≡ hz_at i }
{
    match RATES.get(i as usize) {
        Some(hz) => *hz,
        None => 0,
    }
}

fn hz_of(f: Freq) -> u32
    ensures { result ≡ hz_of f }
{
    match f {
        Freq::Index(i) => hz_at(i),
        Freq::Hz(h) => h,
    }
}

fn sbr_of(f: Form) -> i32
    ensures { result ≡ sbr_of f }
{
    match f {
        Form::None => -1,
        Form::Flag0 => 0,
        Form::Type5(_) | Form::Type29(_) | Form::Flag1(_) | Form::FlagPs(_, _) => 1,
    }
}

fn ps_of(f: Form) -> i32
    ensures { result ≡ ps_of f }
{
    match f {
        Form::None | Form::Type5(_) | Form::Flag0 | Form::Flag1(_) => -1,
        Form::FlagPs(_, 0) => 0,
        Form::Type29(_) | Form::FlagPs(_, _) => 1,
    }
}

fn output_of(f: Form, core: u32) -> u32
    ensures { result ≡ output_of f core }
{
    match f {
        Form::None | Form::Flag0 => core,
        Form::Type5(x) | Form::Type29(x) | Form::Flag1(x) | Form::FlagPs(x, _) => hz_of(x),
    }
}

fn channels_at(c: u32) -> u32
    ensures { result ≡ channels_at c }
{
    match c {
        1..=6 => c,
        7 => 8,
        _ => 0,
    }
}

fn output_channels(ps: i32, c: u32) -> u32
    ensures { result ≡ output_channels ps c }
{
    if ps == 1 && c == 1 {
        return 2;
    }
    channels_at(c)
}

fn stream_row(program: u32, layer: u32, s: Stream) -> Row
    ensures { result ≡ row_of program layer s }
{
    let c = s.config;
    let rate = hz_of(c.freq);
    let sbr = sbr_of(c.form);
    let ps = ps_of(c.form);
    Row {
        program,
        layer,
        core: c.core,
        rate,
        output: output_of(c.form, rate),
        sbr,
        ps,
        channels: output_channels(ps, c.channels),
    }
}

// The number of a stream by the table, or what stands where there is none.
pub fn cell_at(table: [[u8; 8]; 16], p: usize, l: usize) -> u8
    requires { (p < 16) × (l < 8) }
    ensures { result ≡ get_or (get_or table p []) l 0 }
{
    table[p][l]
}

// The row of a program's layer, by the table of stream numbers, where there is such a layer.
pub fn row_of(r: Record, table: [[u8; 8]; 16], program: u32, layer: u32) -> Option<Row>
    ensures { result ≡ row_in r table program layer }
{
    let cells = table.get(program as usize)?;
    let cell = cells.get(layer as usize)?;
    let s = r.streams.get(*cell as usize)?;
    Some(stream_row(program, layer, *s))
}
