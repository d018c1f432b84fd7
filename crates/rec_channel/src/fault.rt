//! Why a frame was not drawn, or a program not installed.

ghost use Rattle.std.specs.Prelude.{◌≡◌};
ghost use Rattle.rec_channel.specs.declared.fault.DrawFault.TheVariants.{Memory};

use crate::front::Front;
use bpf_verify::Verified;
use std::alloc::{AllocError, Global};
use std::sync::Arc;
use thiserror::Error;

/// Why no frame was drawn. The slot is as it was.
#[derive(Clone, Copy, Debug, Drop, PartialEq, Eq, Error)]
pub enum DrawFault {
    /// As many frames were drawn as the channel may have.
    #[error("1 CountFull")]
    CountFull,
    /// The slot has less than the caller has seen of it.
    #[error("2 Stale")]
    Stale {
        /// What the slot has.
        seen: Front,
    },
    /// The program has too many shares for two more.
    #[error("3 Memory")]
    Memory,
}

impl From<AllocError> for DrawFault {
    ghost from_gives = { λ _ fault. fault ≡ Memory };

    fn from(_error: AllocError) -> DrawFault {
        DrawFault::Memory
    }
}

/// Why a program was not installed, with the program that was passed. The slot is as it was.
#[derive(Debug, Drop, Error)]
pub enum InstallFault {
    /// The channel's history has [`MAX_VERSIONS`](crate::MAX_VERSIONS) versions.
    #[error("1 VersionsFull")]
    VersionsFull {
        /// The program that was passed.
        program: Arc<Verified, Global>,
    },
    /// The slot has less than the caller has seen of it.
    #[error("2 Stale")]
    Stale {
        /// The program that was passed.
        program: Arc<Verified, Global>,
        /// What the slot has.
        seen: Front,
    },
}
