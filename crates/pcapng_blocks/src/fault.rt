//! Why a block isn't written.

use thiserror::Error;

/// Why a block wasn't written to its end.
#[derive(Clone, Copy, Debug, Drop, PartialEq, Eq, Error)]
pub enum BlockFault {
    /// A write of the output failed, or took no byte.
    #[error("Output")]
    Output,
}
