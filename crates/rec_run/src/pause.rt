//! How a thread waits for another one.

use std::sync::Wait;
use std::thread::{self, Parker};
use std::time::Duration;

/// How often a pause yields before it sleeps.
const YIELDS: u32 = 100;

/// How often it then sleeps for a short time, which is a second in all.
const SHORT_SLEEPS: u32 = 1_000;

/// How long a pause sleeps at a time, in milliseconds: at first, and where nothing has come for a second.
const SHORT_SLEEP: u64 = 1;

const LONG_SLEEP: u64 = 10;

/// A pause of a thread that waits: it yields at first, then sleeps a millisecond at a time, and after a second ten.
#[derive(Drop)]
pub(crate) struct Pause {
    turns: u32,
    parker: Parker,
}

impl Pause {
    pub(crate) fn new() -> Pause {
        Pause {
            turns: 0,
            parker: Parker::new(),
        }
    }

    /// Waits a little.
    pub(crate) fn wait<R: Wait>(&mut self, rt: &R) {
        if self.turns < YIELDS {
            self.turns += 1;
            thread::yield_now();
        } else if self.turns < YIELDS + SHORT_SLEEPS {
            self.turns += 1;
            self.parker
                .park_timeout(rt, Duration::from_millis(SHORT_SLEEP));
        } else {
            self.parker
                .park_timeout(rt, Duration::from_millis(LONG_SLEEP));
        }
    }

    /// What was waited for has come: the next pause yields at first.
    pub(crate) fn restart(&mut self) {
        self.turns = 0;
    }
}
