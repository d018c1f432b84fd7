//! Why a core refuses an event.

ghost use Rattle.std.specs.Prelude.{◌≡◌};
ghost use Rattle.rec_core.specs.declared.fault.CoreFault.TheVariants.{Memory};

use std::alloc::AllocError;
use thiserror::Error;

/// Why a core refuses an event. A refused event changes nothing but an output that failed in it.
/// Where several faults stand, the first is answered in the order of the event:
///
/// - a take: `NoChannel`, `Closed`, `CountFull`, `Memory`;
/// - a time mark: `NoChannel`, `Closed`, `Memory`;
/// - an install: `NoChannel`, `VersionsFull`, `Memory`;
/// - a send: `NoChannel`, `NothingToSend`, `RingFull`;
/// - a write: `NoChannel`, `NothingToWrite`, `Output`;
/// - a close: `NoChannel`, `Closed`, `Memory`.
#[derive(Clone, Copy, Debug, Drop, PartialEq, Eq, Error)]
pub enum CoreFault {
    /// No channel has this ID.
    #[error("refused 1 NoChannel")]
    NoChannel,
    /// The channel was closed.
    #[error("refused 2 Closed")]
    Closed,
    /// The channel's ring has no room for a piece more.
    #[error("refused 3 RingFull")]
    RingFull,
    /// Each piece that is certain was sent.
    #[error("refused 4 NothingToSend")]
    NothingToSend,
    /// The channel's ring is empty.
    #[error("refused 5 NothingToWrite")]
    NothingToWrite,
    /// The channel's history has [`MAX_VERSIONS`](rec_channel::MAX_VERSIONS) versions.
    #[error("refused 6 VersionsFull")]
    VersionsFull,
    /// As many frames were taken from the channel as it may have.
    #[error("refused 7 CountFull")]
    CountFull,
    /// The output failed, in this write or before. The piece stays in its ring. At the first such
    /// fault the output has taken the beginning of the piece's packet, and not all of it; later
    /// writes add nothing.
    #[error("refused 8 Output")]
    Output,
    /// Out of memory.
    #[error("memory")]
    Memory,
}

impl From<AllocError> for CoreFault {
    ghost from_gives = { λ _ fault. fault ≡ Memory };

    fn from(_error: AllocError) -> CoreFault {
        CoreFault::Memory
    }
}
