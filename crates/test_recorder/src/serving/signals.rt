//! What the threads of a test tell one another, and a watch that ends a test which hangs.

use std::alloc::Global;
use std::process::Abort;
use std::sync::Arc;
use std::sync::atomic::{AtomicU64, Ordering};
use std::test::Fail;
use std::thread;
use std::thread::{JoinHandle, Threads};
use std::time::{Clock, Duration};

/// How often a wait looks again before it gives up: for ten seconds and more.
const LOOKS: u32 = 10_000;

/// How often a watch looks again: for forty seconds and more.
const WATCHED: u32 = 40_000;

/// How long a wait sleeps between two looks, in milliseconds.
const LOOK: u64 = 1;

/// Counts that threads add to and wait for.
#[derive(Drop)]
pub(super) struct Signals {
    counts: Vec<AtomicU64>,
}

pub(super) type Shared = Arc<Signals, Global>;

impl Signals {
    /// This many counts, each of them 0.
    pub(super) fn shared(alloc: Global, many: usize) -> Result<Shared, Fail> {
        let mut counts = Vec::new(alloc);
        for _ in 0..many {
            counts.push(AtomicU64::new(0))?;
        }
        Ok(Arc::new(alloc, Signals { counts })?)
    }

    /// Adds one to a count.
    pub(super) fn count(&self, at: usize) {
        if let Some(count) = self.counts.get(at) {
            count.fetch_add(1, Ordering::SeqCst);
        }
    }

    /// What a count has come to.
    pub(super) fn get(&self, at: usize) -> u64 {
        self.counts
            .get(at)
            .map_or(0, |count| count.load(Ordering::SeqCst))
    }

    /// Waits until a count has come so far; `false` if it doesn't within some seconds.
    pub(super) fn wait<R: Clock>(&self, rt: &R, at: usize, least: u64) -> bool {
        for _ in 0..LOOKS {
            if self.get(at) >= least {
                return true;
            }
            thread::sleep(rt, Duration::from_millis(LOOK));
        }
        false
    }
}

/// A watch over a test, which ends the process unless the test is over within some seconds.
#[derive(Drop)]
pub(super) struct Watch {
    over: Shared,
    thread: JoinHandle<()>,
}

impl Watch {
    /// Begins to watch.
    pub(super) fn begin<R: Threads + Abort + Clock + Copy + Send + 'static>(
        rt: R,
        alloc: Global,
    ) -> Result<Watch, Fail> {
        let over = Signals::shared(alloc, 1)?;
        let share = Arc::try_clone(&over)?;
        let Ok(thread) = thread::spawn(&rt, move || end_unless_over(&rt, &share)) else {
            return Err("a thread that watches".into());
        };
        Ok(Watch { over, thread })
    }

    /// The test is over.
    pub(super) fn end<R: Threads>(self, rt: &R) {
        let Watch { over, thread } = self;
        over.count(0);
        thread.join(rt);
    }
}

/// Ends the process unless the test is over within some seconds.
fn end_unless_over<R: Abort + Clock>(rt: &R, over: &Shared) {
    for _ in 0..WATCHED {
        if over.get(0) != 0 {
            return;
        }
        thread::sleep(rt, Duration::from_millis(LOOK));
    }
    panic!(rt; "a recording that returns")
}
