// The readers of AudioSpecificConfig, one for each production of specs/.
// Its fields, which a window may bound, are taken through the bit reader.
#![tactic(auto)]

mod object_types;
mod rates;
mod signalling;

ghost use Rattle.std.specs.Prelude.{◌≡◌};
ghost use Rattle.kernel.specs.Reading.{Stands};
ghost use Rattle.kernel.specs.Answer.{told};
ghost use Rattle.asc.specs.Asc.{channel_configuration, unset, in_front, ga_specific_config, config_of, alone};
ghost use Rattle.asc.specs.Asc.{under_front, audio_specific_config};

use bits::take_at;
use kernel::{Cursor, Read, Refusal, Window, refused_at};
use object_types::{is_core, object_type};
use rates::frequency_of;
use records::{Config, Form, Freq};
use signalling::asc_tail;
pub use signalling::left_of;

// The values of GASpecificConfig.
#[derive(Clone, Copy)]
pub struct Flags {
    pub flag: u32,
    pub depends: u32,
    pub extension: u32,
}

#[tactic(auto, using(kernel::proofs::Steps::fields), unfolding(crate::specs::Asc::channel_configuration))]
fn channel_configuration(el: &[u8], win: Window, c: Cursor) -> Result<Read<u32>, Refusal>
    requires { Stands el.now c }
    ensures { result ≡ told el.now (channel_configuration win) c }
{
    let four = take_at(el, win, c, 4)?;
    match four.value {
        1..=7 => Ok(four),
        _ => Err(refused_at(11, c.at, four.next)),
    }
}

// A flag that must be 0.
#[tactic(auto, using(kernel::proofs::Steps::fields), unfolding(crate::specs::Asc::unset))]
fn unset_of(el: &[u8], win: Window, c: Cursor) -> Result<Read<u32>, Refusal>
    requires { Stands el.now c }
    ensures { result ≡ told el.now (unset win) c }
{
    let one = take_at(el, win, c, 1)?;
    if one.value != 0 {
        return Err(refused_at(12, c.at, one.next));
    }
    Ok(one)
}

#[tactic(auto, using(kernel::proofs::Steps::steps), unfolding(crate::specs::Asc::ga_specific_config))]
fn flags_of(el: &[u8], win: Window, c: Cursor) -> Result<Read<Flags>, Refusal>
    requires { Stands el.now c }
    ensures { result ≡ told el.now (ga_specific_config win) c }
{
    let flag = take_at(el, win, c, 1)?;
    let depends = unset_of(el, win, flag.next)?;
    let extension = unset_of(el, win, depends.next)?;
    Ok(Read {
        value: Flags {
            flag: flag.value,
            depends: depends.value,
            extension: extension.value,
        },
        next: extension.next,
    })
}

fn config_of(core: u32, freq: Freq, channels: u32, flags: Flags, form: Form) -> Config
    ensures { result ≡ config_of core freq channels flags form }
{
    Config {
        core: core,
        freq: freq,
        channels: channels,
        flag: flags.flag,
        depends: flags.depends,
        extension: flags.extension,
        form: form,
    }
}

// A core type alone.
#[tactic(auto, using(kernel::proofs::Steps::steps), unfolding(crate::specs::Asc::alone))]
fn alone_of(
    el: &[u8],
    win: Window,
    c: Cursor,
    t: u32,
    f: Freq,
    channels: u32,
) -> Result<Read<Config>, Refusal>
    requires { Stands el.now c }
    ensures { result ≡ told el.now (alone t f channels win) c }
{
    let flags = flags_of(el, win, c)?;
    let form = asc_tail(el, win, flags.next)?;
    Ok(Read {
        value: config_of(t, f, channels, flags.value, form.value),
        next: form.next,
    })
}

fn in_front(t: u32, x: Freq) -> Form
    ensures { result ≡ in_front t x }
{
    if t == 5 {
        Form::Type5(x)
    } else {
        Form::Type29(x)
    }
}

// A core under type 5 or 29.
#[tactic(auto, using(kernel::proofs::Steps::steps), unfolding(crate::specs::Asc::under_front, crate::specs::Answer::carried_if))]
fn under_front(
    el: &[u8],
    win: Window,
    c: Cursor,
    t: u32,
    f: Freq,
    channels: u32,
) -> Result<Read<Config>, Refusal>
    requires { Stands el.now c }
    ensures { result ≡ told el.now (under_front t f channels win) c }
{
    let x = frequency_of(el, win, c)?;
    let core = object_type(el, win, x.next, true)?;
    let flags = flags_of(el, win, core.next)?;
    let form = in_front(t, x.value);
    Ok(Read {
        value: config_of(core.value, f, channels, flags.value, form),
        next: flags.next,
    })
}

// AudioSpecificConfig with its GASpecificConfig, in a window.
#[tactic(auto, using(kernel::proofs::Steps::steps), unfolding(crate::specs::Asc::audio_specific_config, crate::specs::Answer::carried_if))]
pub fn audio_specific_config(el: &[u8], win: Window, c: Cursor) -> Result<Read<Config>, Refusal>
    requires { Stands el.now c }
    ensures { result ≡ told el.now (audio_specific_config win) c }
{
    let t = object_type(el, win, c, false)?;
    let f = frequency_of(el, win, t.next)?;
    let channels = channel_configuration(el, win, f.next)?;
    if is_core(t.value) {
        return alone_of(el, win, channels.next, t.value, f.value, channels.value);
    }
    under_front(el, win, channels.next, t.value, f.value, channels.value)
}
