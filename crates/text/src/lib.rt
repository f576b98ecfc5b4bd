// Text laid into lent bytes: numbers in a column, and the refusals in words.
#![tactic(auto)]

ghost use Rattle.std.specs.Prelude.{◌≡◌, ◌+◌, ◌≤◌, length};
ghost use Rattle.kernel.specs.Lists.{Stored};
ghost use Rattle.text.specs.Text.{digit, digit_or_blank, figures, number, column};
ghost use Rattle.text.specs.Words.{words_of};

use kernel::{lay, store};

// The last digit.
fn digit(n: usize) -> u8
    ensures { result ≡ digit n }
{
    b'0' + (n % 10) as u8
}

fn digit_or_blank(n: usize) -> u8
    ensures { result ≡ digit_or_blank n }
{
    if n == 0 { b' ' } else { digit(n) }
}

// The places in front of a number's last digit. By hand, since what std formats is known of a writer's bytes alone, and
// here each byte of what is lent is promised.
#[tactic(auto, using(crate::proofs::Figures::laying_figures))]
fn lay_figures(out: &mut [u8], at: usize, width: usize, n: usize)
    requires { at + width ≤ 1000000 }
    ensures { Stored out.old at (figures width n) out.new (at + width) }
{
    let mut rest = n;
    for left in (0..width).rev() {
        store(out, at + left, digit_or_blank(rest));
        rest /= 10;
    }
}

// A number at the right of so many places; the byte behind it.
pub fn lay_number(out: &mut [u8], at: usize, width: usize, n: usize) -> usize
    requires { (1 ≤ width) × (at + width ≤ 1000000) }
    ensures { (result ≡ at + width) × Stored out.old at (number width n) out.new result }
{
    lay_figures(out, at, width - 1, n / 10);
    store(out, at + (width - 1), digit(n));
    at + width
}

// The same with two blanks in front, so that columns never touch.
#[tactic(auto, using(kernel::proofs::Lists::stored_then))]
pub fn lay_column(out: &mut [u8], at: usize, width: usize, n: usize) -> usize
    requires { (1 ≤ width) × (at + 2 + width ≤ 1000000) }
    ensures { (result ≡ at + 2 + width) × Stored out.old at (column width n) out.new result }
{
    let a = lay(out, at, b"  ");
    lay_number(out, a, width, n)
}

// The refusals in plain words, by number.
const WORDS: [&[u8]; 21] = [
    b"no such refusal",
    b"the map has room for fewer than 4368 numbers",
    b"the element has no byte, or more than 8191",
    b"the element ends before this field, fill, payload or other data does",
    b"the held configuration is to apply, and none is held",
    b"audioMuxVersionA is 1",
    b"the streams are not framed together",
    b"more than 16 streams",
    b"audio object type not carried",
    b"frequency index 13 or 14, or a frequency of 0 Hz",
    b"a field of the configuration passes ascLen",
    b"channelConfiguration not carried",
    b"dependsOnCoreCoder or extensionFlag is 1",
    b"frameLengthType not carried",
    b"the length of other data has more than four groups",
    b"whole bytes are left after the alignment",
    b"a value of the record cannot be written",
    b"the lengths, the payload or the other data do not fit the record",
    b"the element would have more than 8191 bytes",
    b"the output is shorter than the element",
    b"no frame at or after the start, or more than 65536 bytes",
];

// Of any other number those of 0.
fn words_of(number: usize) -> &'static [u8]
    ensures is { result.now ≡ words_of number }
    ensures few { length result.now ≤ 68 }
{
    WORDS.get(number).copied().unwrap_or(WORDS[0])
}

// A refusal in plain words; the byte behind them.
pub fn lay_words(out: &mut [u8], at: usize, number: usize) -> usize
    requires { at + 68 ≤ 1000000 }
    ensures { (result ≤ at + 68) × Stored out.old at (words_of number) out.new result }
{
    lay(out, at, words_of(number))
}
