//! A caller of `ch11_moved`, as its page has it.

use ch11_clock::{Clock, Origin};
use ch11_moved::{earliest, file_start, moved_counter};

/// The counter of a file of two recordings that began at these origins, for a counter of the second.
pub fn moved_of_second(one: Origin, two: Origin, clock: &Clock, counter: u32) -> Option<u64> {
    let start = file_start(earliest(one, &[two]))?;
    moved_counter(start, clock, u64::from(counter))
}
