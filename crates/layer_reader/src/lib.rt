// The readers of one layer of StreamMuxConfig, which is one stream: its configuration, sent or that of the stream
// before, and its frame length.
#![tactic(auto)]

ghost use Rattle.std.specs.Prelude.{◌≡◌, eqb};
ghost use Rattle.kernel.specs.Reading.{choose, Stands};
ghost use Rattle.kernel.specs.Answer.{told};
ghost use Rattle.config.specs.Mux.{windowed, configuration, frame_length, sent_or_same, layer};

use asc::{audio_specific_config, left_of};
use kernel::{Cursor, Read, Refusal, Window, fetch, refused_at, skip};
use numbers::latm_get_value;
use records::{Config, Stream};

#[tactic(auto, using(kernel::proofs::Steps::fields), unfolding(config::specs::Mux::windowed))]
fn windowed_of(el: &[u8], c: Cursor) -> Result<Read<Config>, Refusal>
    requires { Stands el.now c }
    ensures { result ≡ told el.now windowed c }
{
    let length = latm_get_value(el, c)?;
    let win = Window::UpTo(length.next.at + length.value as usize);
    let config = audio_specific_config(el, win, length.next)?;
    let next = skip(el, config.next, left_of(win, config.next.at))?;
    Ok(Read {
        value: config.value,
        next: next,
    })
}

#[tactic(auto, using(kernel::proofs::Steps::steps), unfolding(config::specs::Mux::configuration))]
fn configuration_of(el: &[u8], version: u32, c: Cursor) -> Result<Read<Config>, Refusal>
    requires { Stands el.now c }
    ensures { result ≡ told el.now (configuration version) c }
{
    if version == 1 {
        windowed_of(el, c)
    } else {
        audio_specific_config(el, Window::Open, c)
    }
}

#[tactic(auto, using(kernel::proofs::Steps::fields), unfolding(config::specs::Mux::frame_length))]
fn frame_length(el: &[u8], c: Cursor, config: Config) -> Result<Read<Stream>, Refusal>
    requires { Stands el.now c }
    ensures { result ≡ told el.now (frame_length config) c }
{
    let kind = fetch(el, Window::Open, c, 3)?;
    match kind.value {
        0 => {
            let fullness = fetch(el, Window::Open, kind.next, 8)?;
            Ok(Read {
                value: Stream {
                    config: config,
                    kind: 0,
                    fullness: fullness.value,
                    fixed: 0,
                },
                next: fullness.next,
            })
        }
        1 => {
            let fixed = fetch(el, Window::Open, kind.next, 9)?;
            Ok(Read {
                value: Stream {
                    config: config,
                    kind: 1,
                    fullness: 0,
                    fixed: fixed.value,
                },
                next: fixed.next,
            })
        }
        _ => Err(refused_at(13, c.at, kind.next)),
    }
}

#[tactic(auto, using(kernel::proofs::Steps::steps), unfolding(config::specs::Mux::sent_or_same))]
fn sent_or_same(el: &[u8], version: u32, before: Config, c: Cursor) -> Result<Read<Config>, Refusal>
    requires { Stands el.now c }
    ensures { result ≡ told el.now (sent_or_same version before) c }
{
    let same = fetch(el, Window::Open, c, 1)?;
    if same.value == 1 {
        return Ok(Read {
            value: before,
            next: same.next,
        });
    }
    configuration_of(el, version, same.next)
}

// Stream 0 sends its configuration without a useSameConfig.
#[tactic(auto, using(kernel::proofs::Steps::steps))]
fn layer_config(
    el: &[u8],
    version: u32,
    next: usize,
    before: Config,
    c: Cursor,
) -> Result<Read<Config>, Refusal>
    requires { Stands el.now c }
    ensures { result ≡ told el.now
        (choose (eqb next 0) (configuration version) (sent_or_same version before)) c }
{
    if next == 0 {
        configuration_of(el, version, c)
    } else {
        sent_or_same(el, version, before, c)
    }
}

// The layer that is stream `next`, after one configured so.
#[tactic(auto, using(kernel::proofs::Steps::steps), unfolding(config::specs::Mux::layer))]
pub fn layer_of(
    el: &[u8],
    version: u32,
    next: usize,
    before: Config,
    c: Cursor,
) -> Result<Read<Stream>, Refusal>
    requires { Stands el.now c }
    ensures { result ≡ told el.now (layer version next before) c }
{
    let config = layer_config(el, version, next, before, c)?;
    frame_length(el, config.next, config.value)
}
