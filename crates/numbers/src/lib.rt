// Numbers of several bytes: a variable value, and groups of a continue bit and a byte; read, and put in the fewest
// bytes that hold them.
#![tactic(auto)]

mod reading;
mod writing;

pub use reading::{groups_of, latm_get_value};
pub use writing::{put_groups, put_value};
