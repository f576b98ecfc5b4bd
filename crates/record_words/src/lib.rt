// A record as words at fixed places: what it has once, the layers of 16 programs, and last 16 streams.
#![tactic(auto)]

mod lay;
mod take;

pub use lay::lay_record;
pub use take::record_in;

const LAYERS_AT: usize = 10;

const STREAMS_AT: usize = LAYERS_AT + 16;

const STREAM_WORDS: usize = 14;

// The words of a record.
pub const RECORD_WORDS: usize = STREAMS_AT + 16 * STREAM_WORDS;
