// The record of a StreamMuxConfig: all its values but useSameConfig, ascLen and fill. What is not sent holds 0.
#![tactic(auto)]

mod rules;
mod same;
mod table;

ghost use Rattle.std.specs.Prelude.{◌≡◌};
ghost use Rattle.records.specs.Blank.{no_stream, no_record};

pub use rules::valid;
pub use same::{same_config, same_record};
pub use table::{row_from, streams_in, table_of};

// A frequency: an index 0 to 12, or 24 bits of Hz.
#[derive(Clone, Copy, PartialEq, Eq)]
pub enum Freq {
    Index(u32),
    Hz(u32),
}

// How SBR and PS are signalled: not at all; by type 5 or 29 in front; after 0x2B7 with flag 0, with flag 1, or with
// flag 1 and a PS flag.
#[derive(Clone, Copy, PartialEq, Eq)]
pub enum Form {
    None,
    Type5(Freq),
    Type29(Freq),
    Flag0,
    Flag1(Freq),
    FlagPs(Freq, u32),
}

// An AudioSpecificConfig with its GASpecificConfig.
#[derive(Clone, Copy, PartialEq, Eq)]
pub struct Config {
    pub core: u32, // audioObjectType 1 to 4, alone or under type 5 or 29
    pub freq: Freq, // samplingFrequency
    pub channels: u32, // channelConfiguration
    pub flag: u32, // frameLengthFlag
    pub depends: u32, // dependsOnCoreCoder
    pub extension: u32, // extensionFlag
    pub form: Form,
}

// One layer: its configuration and its frame length.
#[derive(Clone, Copy, PartialEq, Eq)]
pub struct Stream {
    pub config: Config,
    pub kind: u32, // frameLengthType
    pub fullness: u32, // latmBufferFullness, of type 0
    pub fixed: u32, // frameLength, of type 1
}

// A whole StreamMuxConfig. What the syntax sends as a number stays one, since a record may be lent with any number
// there (`lay_record` and `record_in` give all of them back), and `valid` judges it. Arrays have 16 places, since there is
// no heap.
#[derive(Clone, Copy, PartialEq, Eq)]
pub struct Record {
    pub version: u32, // audioMuxVersion
    pub subversion: u32, // audioMuxVersionA
    pub tara: u32, // taraBufferFullness
    pub framing: u32, // allStreamsSameTimeFraming
    pub subframes: u32, // numSubFrames
    pub programs: u32, // numProgram
    pub layers: [u32; 16],
    pub streams: [Stream; 16],
    pub other: u32, // otherDataPresent
    pub bits: u32, // otherDataLenBits
    pub checked: u32, // crcCheckPresent
    pub crc: u32, // crcCheckSum
}

const NO_CONFIG: Config = Config {
    core: 0,
    freq: Freq::Index(0),
    channels: 0,
    flag: 0,
    depends: 0,
    extension: 0,
    form: Form::None,
};

// A stream of zeros, as it stands where none is.
pub fn no_stream() -> Stream
    ensures { result ≡ no_stream }
{
    Stream {
        config: NO_CONFIG,
        kind: 0,
        fullness: 0,
        fixed: 0,
    }
}

// The record of zeros.
pub fn no_record() -> Record
    ensures { result ≡ no_record }
{
    Record {
        version: 0,
        subversion: 0,
        tara: 0,
        framing: 0,
        subframes: 0,
        programs: 0,
        layers: [0; 16],
        streams: [no_stream(); 16],
        other: 0,
        bits: 0,
        checked: 0,
        crc: 0,
    }
}
