// The writers of StreamMuxConfig, one for each production of config's specs/: each puts its bits.
#![tactic(auto)]

mod audio;

ghost use Rattle.std.specs.Prelude.{cond, [], ◌+◌, ◌-◌, ◌*◌, ◌≤◌, ◌<◌, eqb, get_or, length};
ghost use Rattle.kernel.specs.Bits.{bits_of, ◌⧺◌};
ghost use Rattle.kernel.specs.Puts.{Room, Puts};
ghost use Rattle.records.specs.Blank.{no_stream};
ghost use Rattle.records.specs.Same.{same_config};
ghost use Rattle.records.specs.Table.{streams_in};
ghost use Rattle.numbers.specs.Values.{value_bits, group_bits};
ghost use Rattle.config.specs.Mux.{config_bits, frame_length_bits, layer_bits, config_at, layers_bits, programs_bits};
ghost use Rattle.config.specs.Mux.{mux_head_bits, mux_ending_bits, mux_bits};

use audio::{asc_length, put_asc};
use kernel::BitWriter;
use numbers::{put_groups, put_value};
use records::{Config, Record, Stream, same_config};

// In version 1 behind its length, ascLen, with no fill.
#[tactic(auto, using(kernel::proofs::Puts::puts), unfolding(config::specs::Mux::config_bits))]
fn put_config(w: &mut BitWriter, version: u32, c: Config)
    requires { Room 164 w.old }
    ensures { Puts w.old (config_bits version c) 164 w.new }
{
    if version == 1 {
        put_value(w, asc_length(c) as u32);
    }
    put_asc(w, c);
}

#[tactic(auto, using(kernel::proofs::Puts::puts), unfolding(config::specs::Mux::frame_length_bits))]
fn put_frame_length(w: &mut BitWriter, s: Stream)
    requires { Room 12 w.old }
    ensures { Puts w.old (frame_length_bits s) 12 w.new }
{
    w.put(3, s.kind);
    if s.kind == 0 {
        w.put(8, s.fullness);
    } else {
        w.put(9, s.fixed);
    }
}

// useSameConfig where the stream just before is configured so, or 0 and the configuration; of stream 0 the
// configuration alone.
#[tactic(auto, using(kernel::proofs::Puts::puts))]
fn put_sent_or_same(w: &mut BitWriter, version: u32, next: usize, streams: &[Stream])
    requires { Room 165 w.old × (next < length streams.now) }
    ensures { Puts w.old (cond (eqb next 0) (config_bits version (config_at streams.now next))
        (cond (same_config (config_at streams.now (next - 1)) (config_at streams.now next)) (bits_of 1 1)
        (bits_of 1 0 ⧺ config_bits version (config_at streams.now next)))) 165 w.new }
{
    let c = streams[next].config;
    if next == 0 {
        put_config(w, version, c);
    } else if same_config(streams[next - 1].config, c) {
        w.put(1, 1);
    } else {
        w.put(1, 0);
        put_config(w, version, c);
    }
}

#[tactic(auto, using(kernel::proofs::Puts::puts), unfolding(config::specs::Mux::layer_bits))]
fn put_layer(w: &mut BitWriter, version: u32, next: usize, streams: &[Stream])
    requires { Room 177 w.old × (next < length streams.now) }
    ensures { Puts w.old (layer_bits version next (config_at streams.now (next - 1))
        (get_or streams.now next no_stream)) 177 w.new }
{
    put_sent_or_same(w, version, next, streams);
    put_frame_length(w, streams[next]);
}

// n layers, of which the first is stream `first`.
#[tactic(auto, using(crate::proofs::Turns::layer_by_layer))]
fn put_layers(w: &mut BitWriter, version: u32, n: usize, first: usize, streams: &[Stream])
    requires { Room (177 * n) w.old × (first + n ≤ length streams.now) × (length streams.now ≤ 16) }
    ensures { Puts w.old (layers_bits version n first streams.now) (177 * n) w.new }
{
    for next in first..first + n {
        put_layer(w, version, next, streams);
    }
}

// The programs up to numProgram.
#[tactic(auto, using(crate::proofs::Turns::program_by_program))]
fn put_programs(w: &mut BitWriter, r: Record)
    requires { Room 2880 w.old × (r.programs ≤ 15) × (streams_in r.layers r.programs 16 ≤ 16) }
    ensures { Puts w.old (programs_bits r.version (r.programs + 1) 0 0 r.layers r.streams) 2880 w.new }
{
    let mut next: usize = 0;
    for k in &r.layers[..r.programs as usize + 1] {
        let n = *k as usize + 1;
        w.put(3, *k);
        put_layers(w, r.version, n, next, &r.streams);
        next += n;
    }
}

// Up to numProgram.
#[tactic(auto, using(kernel::proofs::Puts::puts), unfolding(config::specs::Mux::mux_head_bits))]
fn put_head(w: &mut BitWriter, r: Record)
    requires { Room 47 w.old }
    ensures { Puts w.old (mux_head_bits r) 47 w.new }
{
    w.put(1, r.version);
    if r.version == 1 {
        w.put(1, r.subversion);
        put_value(w, r.tara);
    }
    w.put(1, r.framing);
    w.put(6, r.subframes);
    w.put(4, r.programs);
}

#[tactic(auto, using(kernel::proofs::Puts::puts))]
fn put_other_length(w: &mut BitWriter, version: u32, bits: u32)
    requires { Room 36 w.old }
    ensures { Puts w.old (cond (eqb version 1) (value_bits bits) (group_bits bits)) 36 w.new }
{
    if version == 1 {
        put_value(w, bits);
    } else {
        put_groups(w, bits);
    }
}

// From otherDataPresent on.
#[tactic(auto, using(kernel::proofs::Puts::puts), unfolding(config::specs::Mux::mux_ending_bits))]
fn put_mux_ending(w: &mut BitWriter, r: Record)
    requires { Room 46 w.old }
    ensures { Puts w.old (mux_ending_bits r) 46 w.new }
{
    w.put(1, r.other);
    if r.other == 1 {
        put_other_length(w, r.version, r.bits);
    }
    w.put(1, r.checked);
    if r.checked == 1 {
        w.put(8, r.crc);
    }
}

// A whole StreamMuxConfig.
#[tactic(auto, using(kernel::proofs::Puts::puts), unfolding(config::specs::Mux::mux_bits))]
pub fn put_mux(w: &mut BitWriter, r: Record)
    requires { Room 2973 w.old × (r.programs ≤ 15) × (streams_in r.layers r.programs 16 ≤ 16) }
    ensures { Puts w.old (mux_bits r) 2973 w.new }
{
    put_head(w, r);
    put_programs(w, r);
    put_mux_ending(w, r);
}
