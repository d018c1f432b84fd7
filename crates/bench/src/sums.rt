//! The sum of a data checksum.

use crate::clock::{Clock, Work, print};
use crate::words::number;
use anyhow::Result;
use ch11_packet::body_sum;

/// The bytes of a frame, and of bodies at the least limit, at the usual one and at the greatest.
const LENGTHS: [usize; 4] = [1_500, 16_400, 65_512, 524_260];

/// The sums of a hundred bodies, of which each differs from the one before.
pub(crate) fn self_check(rt: &HostRuntime) -> Result<u64> {
    sum_up(rt, 1_500, 100)
}

/// `sums GIGABYTES`: the sums of about that many gigabytes of bodies at each length.
pub(crate) fn measure(rt: &HostRuntime, words: &[String]) -> Result<()> {
    let bytes = number(words, 0)?.saturating_mul(1_000_000_000);
    for len in LENGTHS {
        let count = bytes / (len as u64).max(1);
        let clock = Clock::start(rt)?;
        let sum = sum_up(rt, len, count)?;
        let nanos = clock.nanos(rt)?;
        let work = Work {
            name: "sums.body",
            bytes: len,
            count,
            sum,
        };
        print(rt, work, nanos)?;
    }
    Ok(())
}

/// The sum of so many sums of a body of `len` bytes, in which one byte changes each time.
fn sum_up(rt: &HostRuntime, len: usize, count: u64) -> Result<u64> {
    let mut body = vec![in rt.alloc(); 0x5a; len]?;
    let mut total = 0u64;
    for turn in 0..count {
        if let Some(byte) = body.get_mut(turn as usize % len.max(1)) {
            *byte = (turn % 256) as u8;
        }
        total = total.wrapping_add(u64::from(body_sum(body.as_slice())));
    }
    Ok(total)
}
