// What stands behind 0x2B7: SBR and PS, signalled by flags.
ghost use Rattle.std.specs.Prelude.{◌≡◌};
ghost use Rattle.kernel.specs.Reading.{Stands};
ghost use Rattle.kernel.specs.Answer.{told};
ghost use Rattle.asc.specs.Asc.{left, ps_extension, ps_tail, sbr_extension, extension_type, sync_extension, tail};

use crate::object_types::any_type;
use crate::rates::frequency_of;
use bits::take_at;
use kernel::{Cursor, Read, Refusal, Window, refused_at};
use records::{Form, Freq};

// The bits of ascLen that are left.
pub fn left_of(win: Window, at: usize) -> usize
    ensures { result ≡ left win at }
{
    match win {
        Window::Open => 0,
        Window::UpTo(e) => e.saturating_sub(at),
    }
}

// A form that was signalled before the cursor.
fn signalled(form: Form, next: Cursor) -> Result<Read<Form>, Refusal>
    ensures { result ≡ Ok (record { value = form; next = next }) }
{
    Ok(Read {
        value: form,
        next: next,
    })
}

// psPresentFlag after 0x548.
#[tactic(auto, using(kernel::proofs::Steps::steps), unfolding(crate::specs::Asc::ps_extension))]
fn ps_extension(el: &[u8], win: Window, c: Cursor, x: Freq) -> Result<Read<Form>, Refusal>
    requires { Stands el.now c }
    ensures { result ≡ told el.now (ps_extension x win) c }
{
    let sync = take_at(el, win, c, 11)?;
    if sync.value != 0x548 {
        return signalled(Form::Flag1(x), sync.next);
    }
    let flag = take_at(el, win, sync.next, 1)?;
    signalled(Form::FlagPs(x, flag.value), flag.next)
}

#[tactic(auto, using(kernel::proofs::Steps::steps), unfolding(crate::specs::Asc::ps_tail))]
fn ps_tail(el: &[u8], win: Window, c: Cursor, x: Freq) -> Result<Read<Form>, Refusal>
    requires { Stands el.now c }
    ensures { result ≡ told el.now (ps_tail x win) c }
{
    if 12 <= left_of(win, c.at) {
        return ps_extension(el, win, c, x);
    }
    signalled(Form::Flag1(x), c)
}

#[tactic(auto, using(kernel::proofs::Steps::steps), unfolding(crate::specs::Asc::sbr_extension))]
fn sbr_extension(el: &[u8], win: Window, c: Cursor) -> Result<Read<Form>, Refusal>
    requires { Stands el.now c }
    ensures { result ≡ told el.now (sbr_extension win) c }
{
    let flag = take_at(el, win, c, 1)?;
    if flag.value != 1 {
        return signalled(Form::Flag0, flag.next);
    }
    let x = frequency_of(el, win, flag.next)?;
    ps_tail(el, win, x.next, x.value)
}

// The type after 0x2B7: 5 goes on, 22 is refused, and any other says nothing.
#[tactic(auto, using(kernel::proofs::Steps::fields), unfolding(crate::specs::Asc::extension_type, crate::specs::Asc::any_type))]
fn extension_type(el: &[u8], win: Window, c: Cursor) -> Result<Read<Form>, Refusal>
    requires { Stands el.now c }
    ensures { result ≡ told el.now (extension_type win) c }
{
    let number = any_type(el, win, c)?;
    match number.value {
        5 => sbr_extension(el, win, number.next),
        22 => Err(refused_at(8, c.at, number.next)),
        _ => signalled(Form::None, number.next),
    }
}

#[tactic(auto, using(kernel::proofs::Steps::steps), unfolding(crate::specs::Asc::sync_extension))]
fn sync_extension(el: &[u8], win: Window, c: Cursor) -> Result<Read<Form>, Refusal>
    requires { Stands el.now c }
    ensures { result ≡ told el.now (sync_extension win) c }
{
    let sync = take_at(el, win, c, 11)?;
    if sync.value != 0x2B7 {
        return signalled(Form::None, sync.next);
    }
    extension_type(el, win, sync.next)
}

// The tail of an AudioSpecificConfig, 0x2B7 and what it signals, where at least 16 bits of ascLen are left.
#[tactic(auto, using(kernel::proofs::Steps::steps), unfolding(crate::specs::Asc::tail))]
pub fn asc_tail(el: &[u8], win: Window, c: Cursor) -> Result<Read<Form>, Refusal>
    requires { Stands el.now c }
    ensures { result ≡ told el.now (tail win) c }
{
    if left_of(win, c.at) < 16 {
        return signalled(Form::None, c);
    }
    sync_extension(el, win, c)
}
