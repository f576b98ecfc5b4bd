// AudioSpecificConfig and GASpecificConfig.
ghost use Rattle.std.specs.Prelude.{◌≡◌, ◌≤◌, length};
ghost use Rattle.kernel.specs.Bits.{bits_of, ◌⧺◌};
ghost use Rattle.kernel.specs.Puts.{Room, Puts};
ghost use Rattle.asc.specs.Asc.{freq_bits, front_bits, under_bits, tail_bits, asc_bits};

use kernel::BitWriter;
use records::{Config, Form, Freq};

#[tactic(auto, using(kernel::proofs::Puts::puts), unfolding(asc::specs::Asc::freq_bits))]
fn put_freq(w: &mut BitWriter, f: Freq)
    requires { Room 28 w.old }
    ensures { Puts w.old (freq_bits f) 28 w.new }
{
    match f {
        Freq::Index(i) => w.put(4, i),
        Freq::Hz(h) => {
            w.put(4, 15);
            w.put(24, h);
        }
    }
}

// The type that stands in front.
#[tactic(auto, unfolding(asc::specs::Asc::front_bits))]
fn front_of(core: u32, form: Form) -> u32
    ensures { bits_of 5 result ≡ front_bits core form }
{
    match form {
        Form::Type5(_) => 5,
        Form::Type29(_) => 29,
        Form::None | Form::Flag0 | Form::Flag1(_) | Form::FlagPs(_, _) => core,
    }
}

// Behind type 5 or 29: the frequency of SBR, and the core.
#[tactic(auto, using(kernel::proofs::Puts::puts), unfolding(asc::specs::Asc::under_bits))]
fn put_under(w: &mut BitWriter, core: u32, form: Form)
    requires { Room 33 w.old }
    ensures { Puts w.old (under_bits core form) 33 w.new }
{
    match form {
        Form::Type5(x) | Form::Type29(x) => {
            put_freq(w, x);
            w.put(5, core);
        }
        Form::None | Form::Flag0 | Form::Flag1(_) | Form::FlagPs(_, _) => {}
    }
}

// 0x2B7, type 5 and sbrPresentFlag.
#[tactic(auto, using(kernel::proofs::Puts::puts))]
fn put_sbr(w: &mut BitWriter, flag: u32)
    requires { Room 17 w.old }
    ensures { Puts w.old (bits_of 11 695 ⧺ bits_of 5 5 ⧺ bits_of 1 flag) 17 w.new }
{
    w.put(11, 695);
    w.put(5, 5);
    w.put(1, flag);
}

#[tactic(auto, using(kernel::proofs::Puts::puts), unfolding(asc::specs::Asc::tail_bits))]
fn put_tail(w: &mut BitWriter, form: Form)
    requires { Room 57 w.old }
    ensures { Puts w.old (tail_bits form) 57 w.new }
{
    match form {
        Form::None | Form::Type5(_) | Form::Type29(_) => {}
        Form::Flag0 => put_sbr(w, 0),
        Form::Flag1(x) => {
            put_sbr(w, 1);
            put_freq(w, x);
        }
        Form::FlagPs(x, f) => {
            put_sbr(w, 1);
            put_freq(w, x);
            w.put(11, 1352);
            w.put(1, f);
        }
    }
}

// AudioSpecificConfig with its GASpecificConfig.
#[tactic(auto, using(kernel::proofs::Puts::puts), unfolding(asc::specs::Asc::asc_bits))]
pub fn put_asc(w: &mut BitWriter, c: Config)
    requires { Room 130 w.old }
    ensures { Puts w.old (asc_bits c) 130 w.new }
{
    w.put(5, front_of(c.core, c.form));
    put_freq(w, c.freq);
    w.put(4, c.channels);
    put_under(w, c.core, c.form);
    w.put(1, c.flag);
    w.put(1, c.depends);
    w.put(1, c.extension);
    put_tail(w, c.form);
}

// How many bits a configuration has: where the same function comes to. What does not fit the scratch byte is not
// stored.
pub fn asc_length(c: Config) -> usize
    ensures { (result ≡ length (asc_bits c)) × (result ≤ 130) }
{
    let mut scratch = [0u8; 1];
    let mut w = BitWriter::new(&mut scratch, 0);
    put_asc(&mut w, c);
    w.at
}
