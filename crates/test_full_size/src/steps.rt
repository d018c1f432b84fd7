//! How a channel's source and the control go on by turns.

use std::alloc::Global;
use std::sync::Arc;
use std::sync::atomic::{AtomicU64, Ordering};
use std::thread;
use std::time::Duration;

/// How often a wait looks again, each time after a while.
const LOOKS: u32 = 600_000;

/// How long a while is, in microseconds.
const WHILE: u64 = 100;

/// What the source and the control tell each other.
#[derive(Drop)]
pub(crate) struct Steps {
    /// The number of the frame that the source was asked for last.
    asked: AtomicU64,
    /// The version that the control was told of last.
    told: AtomicU64,
}

pub(crate) type Shared = Arc<Steps, Global>;

impl Steps {
    /// Steps before the first.
    pub(crate) fn shared(alloc: Global) -> Option<Shared> {
        let steps = Steps {
            asked: AtomicU64::new(0),
            told: AtomicU64::new(0),
        };
        Arc::new(alloc, steps).ok()
    }

    /// The source was asked for the frame of this number: `false` if the version of the same number
    /// doesn't come.
    pub(crate) fn ask(&self, rt: &HostRuntime, number: u64) -> bool {
        self.asked.store(number, Ordering::SeqCst);
        comes(rt, &self.told, number)
    }

    /// The control was told of this version.
    pub(crate) fn tell(&self, version: u64) {
        self.told.store(version, Ordering::SeqCst);
    }

    /// Waits until the source is asked for the frame of this number: `false` if it isn't.
    pub(crate) fn is_asked(&self, rt: &HostRuntime, number: u64) -> bool {
        comes(rt, &self.asked, number)
    }
}

/// Whether a word comes to this number.
fn comes(rt: &HostRuntime, word: &AtomicU64, number: u64) -> bool {
    for _ in 0..LOOKS {
        if word.load(Ordering::SeqCst) >= number {
            return true;
        }
        thread::sleep(rt, Duration::from_micros(WHILE));
    }
    false
}
