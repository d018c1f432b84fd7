//! Why a piece did not go out.

use thiserror::Error;

/// Why a piece did not go out, or a recording was not finished. `whole` pieces went out whole, and
/// then the first `bytes` bytes of the next one's packet, fewer than all.
#[derive(Clone, Copy, Debug, Drop, PartialEq, Eq, Error)]
pub enum WriteFault {
    /// A write or a flush of the output failed in this call, or a write took no byte.
    #[error("Output")]
    Output {
        /// The pieces that went out whole.
        whole: u64,
        /// The bytes of the next one.
        bytes: u64,
    },
    /// The output failed in an earlier call; nothing was written since.
    #[error("Failed")]
    Failed {
        /// The pieces that went out whole.
        whole: u64,
        /// The bytes of the next one.
        bytes: u64,
    },
}
