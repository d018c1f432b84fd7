//! Why an export ends early.

ghost use Rattle.std.specs.Prelude.{◌≡◌};
ghost use Rattle.rec_export.specs.Ends.{end_of};
ghost use Rattle.rec_export.specs.declared.fault.ExportEnd.TheVariants.{Reading};
ghost use Rattle.rec_export.specs.declared.fault.ExportFault.TheVariants.{Memory, Output};

use pcapng_blocks::BlockFault;
use rec_reader::ReadEnd;
use std::alloc::{AllocError, AllocFailed};
use thiserror::Error;

/// Why a packet wasn't exported.
#[derive(Clone, Copy, Debug, Drop, PartialEq, Eq, Error)]
pub enum ExportFault {
    /// A write of the output failed, or took no byte.
    #[error("Output")]
    Output,
    /// There was no memory for a channel or a comment.
    #[error("memory")]
    Memory,
}

impl From<BlockFault> for ExportFault {
    ghost from_gives = { λ _ fault. fault ≡ Output };

    fn from(_fault: BlockFault) -> ExportFault {
        ExportFault::Output
    }
}

impl From<AllocError> for ExportFault {
    ghost from_gives = { λ _ fault. fault ≡ Memory };

    fn from(_error: AllocError) -> ExportFault {
        ExportFault::Memory
    }
}

impl<T: Drop> From<AllocFailed<T>> for ExportFault {
    ghost from_gives = { λ _ fault. fault ≡ Memory };

    fn from(_error: AllocFailed<T>) -> ExportFault {
        ExportFault::Memory
    }
}

/// Why a recording wasn't exported to its end.
#[derive(Clone, Copy, Debug, Drop, PartialEq, Eq, Error)]
pub enum ExportEnd {
    /// The recording isn't read to its end.
    #[error("{0}")]
    Reading(ReadEnd),
    /// A write of the output failed, or took no byte.
    #[error("Output")]
    Output,
    /// There was no memory for a channel or a comment.
    #[error("memory")]
    Memory,
}

impl From<ReadEnd> for ExportEnd {
    ghost from_gives = { λ end given. given ≡ Reading end };

    fn from(end: ReadEnd) -> ExportEnd {
        ExportEnd::Reading(end)
    }
}

impl From<ExportFault> for ExportEnd {
    ghost from_gives = { λ fault end. end ≡ end_of fault };

    fn from(fault: ExportFault) -> ExportEnd {
        match fault {
            ExportFault::Output => ExportEnd::Output,
            ExportFault::Memory => ExportEnd::Memory,
        }
    }
}
