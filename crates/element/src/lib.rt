// One AudioMuxElement: what a reading replies.
#![tactic(auto)]

use kernel::Refusal;
use records::Record;

// An accepted element: how many items and fields it has, and whether it sent a configuration.
#[derive(Clone, Copy)]
pub struct Accepted {
    pub items: u32,
    pub fields: u32,
    pub sent: bool,
}

// The verdict on an element, and the configuration that is then held, if any.
#[derive(Clone, Copy)]
pub struct Reply {
    pub verdict: Result<Accepted, Refusal>,
    pub held: Option<Record>,
}
