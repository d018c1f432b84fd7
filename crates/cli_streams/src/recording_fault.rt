//! Why a recording did not end.

use thiserror::Error;

/// Why a recording did not end. Its text is what is printed.
#[derive(Clone, Copy, Debug, PartialEq, Eq, Drop, Error)]
pub enum RecordingFault {
    /// The output failed: so many pieces went out whole, and so many bytes of the next one.
    #[error("run 2 Output {whole} {bytes}")]
    Output { whole: u64, bytes: u64 },
    /// What was received is not what was sent.
    #[error("run 3 Link")]
    Link,
    /// What was drawn or answered is not what a filter's history has.
    #[error("run 4 History")]
    History,
}
