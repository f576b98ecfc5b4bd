// The lines of the summary, laid into lent bytes: rows, and refused elements.
#![tactic(auto)]

mod lines;
mod rows;

pub use lines::lay_refused;
pub use rows::lay_rows;
