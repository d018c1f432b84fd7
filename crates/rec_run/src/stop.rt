//! The stop word of a recording.

use std::sync::atomic::{AtomicU64, Ordering};

/// Whether the stop word is set: then what is not yet written stays unwritten.
pub(crate) fn is_stopped(stop: &AtomicU64) -> bool {
    stop.load(Ordering::SeqCst) != 0
}

/// Sets the stop word.
pub(crate) fn set_stop(stop: &AtomicU64) {
    stop.store(1, Ordering::SeqCst);
}
