//! A caller of `ch11_clock`, as its page has it.

use ch11_clock::{Clock, Origin, TIME_BODY_LEN, read_origin, time_body};
use std::alloc::{AllocError, Global};

/// The counter and the body of the first time packet of a recording: of a text of its origin, and its
/// least counter. `None` where the text is no origin, or no time packet has a date.
pub fn first_time_packet(
    alloc: Global,
    origin: &str,
    least: u32,
) -> Result<Option<(u64, [u8; TIME_BODY_LEN])>, AllocError> {
    let Some(nanos) = read_origin(origin.as_bytes()) else {
        return Ok(None);
    };
    let clock = Clock::new(alloc, &[Origin { counter: 0, nanos }])?;
    let Some(point) = clock.time_points(u64::from(least)).next() else {
        return Ok(None);
    };
    Ok(time_body(point.moment, false).map(|body| (point.tick, body)))
}
