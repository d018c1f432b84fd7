//! Why a stream ended early.

ghost use Rattle.std.specs.Prelude.{◌≡◌};
ghost use Rattle.rec_stream.specs.StreamEnds.{stream_end_of};
ghost use Rattle.rec_stream.specs.declared.end.StreamEnd.TheVariants.{Memory, Reading};

use ch11_file::FileFault;
use ch11_merge::PieceFault;
use rec_reader::ReadEnd;
use std::alloc::{AllocError, AllocFailed};
use thiserror::Error;

/// Why a recording goes out no further. Its text is what the program prints.
#[derive(Clone, Copy, Debug, PartialEq, Eq, Error)]
pub enum StreamRefusal {
    /// The packet at this place names a channel that wasn't named ahead, or is the second end of a channel ahead of
    /// the first packet with a counter.
    #[error("refused 1 Other {at}")]
    Other { at: u64 },
    /// No time packet has a tick.
    #[error("refused 4 Origin 0")]
    Origin,
    /// A time packet is outside of the years 1 to 3999.
    #[error("refused 5 Year 0")]
    Year,
    /// All channel IDs from 1 on are named: none is left for the time.
    #[error("refused 7 Full 0")]
    Full,
}

/// Why a stream ended early.
#[derive(Clone, Copy, Debug, PartialEq, Eq)]
pub enum StreamEnd {
    /// The recording goes out no further.
    Refused(StreamRefusal),
    /// The recording isn't read further.
    Reading(ReadEnd),
    /// The output failed, or the packet of the setup record would have more than 134,217,728 bytes.
    Output,
    /// Out of memory.
    Memory,
}

impl From<ReadEnd> for StreamEnd {
    ghost from_gives = { λ end stream. stream ≡ Reading end };

    fn from(end: ReadEnd) -> StreamEnd {
        StreamEnd::Reading(end)
    }
}

impl From<AllocError> for StreamEnd {
    ghost from_gives = { λ _ end. end ≡ Memory };

    fn from(_error: AllocError) -> StreamEnd {
        StreamEnd::Memory
    }
}

impl<T: Drop> From<AllocFailed<T>> for StreamEnd {
    ghost from_gives = { λ _ end. end ≡ Memory };

    fn from(_error: AllocFailed<T>) -> StreamEnd {
        StreamEnd::Memory
    }
}

/// No packet is too long for a piece that the reader gives.
impl From<PieceFault> for StreamEnd {
    ghost from_gives = { λ _ end. end ≡ Memory };

    fn from(_fault: PieceFault) -> StreamEnd {
        StreamEnd::Memory
    }
}

impl From<FileFault> for StreamEnd {
    ghost from_gives = { λ fault end. end ≡ stream_end_of fault };

    fn from(fault: FileFault) -> StreamEnd {
        match fault {
            FileFault::Memory => StreamEnd::Memory,
            FileFault::Output | FileFault::Long => StreamEnd::Output,
        }
    }
}
