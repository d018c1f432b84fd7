//! The kinds of packets of a file, and what their headers say.

use ch11_packet::{COMPUTER_GENERATED_DATA, ETHERNET_DATA};

/// The data type version of each packet: of RCC 106-17.
pub(crate) const DATA_TYPE_VERSION: u8 = 8;

/// The flags of each packet: a data checksum of 32 bits.
pub(crate) const PACKET_FLAGS: u8 = 3;

/// The word that the body of a setup record begins with: its text is that of RCC 106-17, in ASCII.
pub(crate) const SETUP_WORD: u32 = 0x0000_000c;

/// The data types of computer-generated data, formats 1 and 3, and of time data, format 1.
const SETUP_RECORD: u8 = 0x01;

const RECORDING_INDEX: u8 = 0x03;

const TIME_DATA: u8 = 0x11;

/// What a packet of a file is.
#[derive(Clone, Copy, Debug, PartialEq, Eq)]
pub enum BlockKind {
    /// The setup record.
    Setup,
    /// A time packet.
    Time,
    /// Frames.
    Frames,
    /// A program, or the end of a channel.
    Record,
    /// A node of the index, or a root.
    Index,
}

impl BlockKind {
    ghost use Rattle.std.specs.Prelude.{◌≡◌};
    ghost use Rattle.ch11_file.specs.FileBlocks.{data_type};

    /// The data type of its header.
    pub(crate) fn data_type(self) -> u8
        ensures { result ≡ data_type self }
    {
        match self {
            BlockKind::Setup => SETUP_RECORD,
            BlockKind::Time => TIME_DATA,
            BlockKind::Frames => ETHERNET_DATA,
            BlockKind::Record => COMPUTER_GENERATED_DATA,
            BlockKind::Index => RECORDING_INDEX,
        }
    }
}

/// What a packet's header says, but for its lengths and its sequence number.
#[derive(Clone, Copy, Debug, PartialEq, Eq)]
pub struct BlockHead {
    pub kind: BlockKind,
    pub channel: u16,
    /// The relative time counter, below 2^48.
    pub counter: u64,
}

impl BlockHead {
    ghost use Rattle.std.specs.Prelude.{◌≡◌};
    ghost use Rattle.ch11_file.specs.declared.kind.BlockKind.TheVariants.{Index};

    /// That of a packet of the index, whose counter is the greatest that went out.
    pub(crate) fn of_index(greatest: u64) -> BlockHead
        ensures { result ≡ record { kind = Index; channel = 0; counter = greatest } }
    {
        BlockHead {
            kind: BlockKind::Index,
            channel: 0,
            counter: greatest,
        }
    }
}
