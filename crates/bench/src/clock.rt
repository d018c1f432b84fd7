//! The one clock, and the one shape of a line of output.

use anyhow::Result;
use std::time::Instant;

/// What was timed, and how much of it there was.
#[derive(Drop)]
pub(crate) struct Work<'a> {
    pub(crate) name: &'a str,
    /// The bytes of one: of a frame, a header, a body or a text, and 0 where it has none.
    pub(crate) bytes: usize,
    /// How many were timed.
    pub(crate) count: u64,
    /// What the loop came to: it is the same in each run on the same words.
    pub(crate) sum: u64,
}

/// A clock that was started.
#[derive(Drop)]
pub(crate) struct Clock {
    begin: Instant,
}

impl Clock {
    pub(crate) fn start(rt: &HostRuntime) -> Result<Clock> {
        Ok(Clock {
            begin: Instant::now(rt)?,
        })
    }

    /// The nanoseconds since the start, 1 at least.
    pub(crate) fn nanos(&self, rt: &HostRuntime) -> Result<u128> {
        Ok(self.begin.elapsed(rt)?.as_nanos().max(1))
    }
}

/// Prints `<name> <bytes> <ns> <sum>`, where `ns` is the time of one, with three decimals.
pub(crate) fn print(rt: &HostRuntime, work: Work<'_>, nanos: u128) -> Result<()> {
    let Work {
        name,
        bytes,
        count,
        sum,
    } = work;
    let picos = nanos.saturating_mul(1000) / u128::from(count.max(1));
    println!(rt; "{name} {bytes} {}.{:03} {sum}", picos / 1000, picos % 1000)?;
    Ok(())
}
