// A script of cases (docs/SCRIPT.md): its numbers and bytes, taken from standard input piece by piece, and
// the words of its answers.
#![tactic(auto)]

mod answers;
mod input;
// A map that is lent: set, and said.
pub mod map;
// Bytes that are lent to be written to: set, and said.
pub mod output;

pub use answers::{say, say_number, say_refused, say_row};
pub use input::{number, take, take_words};
