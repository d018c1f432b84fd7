//! Why a recording of a run can't be in a file of several.

use thiserror::Error;

/// Why a recording of a run can't be in a file of several. Its text is what the program prints, ahead of the place of
/// the recording.
#[derive(Clone, Copy, Debug, PartialEq, Eq, Error)]
pub enum RunRefusal {
    /// The audit finds its packets out of order, frames without a program, or ends that aren't right, at this place.
    #[error("refused 8 Part {at}")]
    Part { at: u64 },
    /// A version or a number of frames of the record at this place doesn't fit its field.
    #[error("refused 9 Sum {at}")]
    Sum { at: u64 },
}
