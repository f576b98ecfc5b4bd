// StreamMuxConfig in parts, as its definition in specs/ gives them.
#![tactic(auto)]

use records::Stream;

// The values of StreamMuxConfig up to numProgram.
#[derive(Clone, Copy)]
pub struct Head {
    pub version: u32,
    pub subversion: u32,
    pub tara: u32,
    pub framing: u32,
    pub subframes: u32,
    pub programs: u32,
}

// From otherDataPresent on.
#[derive(Clone, Copy)]
pub struct Ending {
    pub other: u32,
    pub bits: u32,
    pub checked: u32,
    pub crc: u32,
}

// numLayer of each program, and the streams in reading order.
#[derive(Clone, Copy)]
pub struct Places {
    pub layers: [u32; 16],
    pub streams: [Stream; 16],
}
