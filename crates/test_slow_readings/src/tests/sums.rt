//! Sums of data checksums, of drawn bytes.

use crate::draws::Draws;
use crate::packets::data_sum;
use ch11_packet::body_sum;
use std::process::Abort;
use std::test::Fail;
use test_samples::assert_same;

/// The seed that bytes are drawn from.
const SEED: u64 = 20261125;
/// How many bytes there are at most.
const MOST: usize = 4_100;
/// From so many on, lengths are tried in steps.
const EACH: usize = 100;

const STEP: usize = 61;

/// Bytes of every length up to a hundred and of some beyond, mostly of great value, so that sums pass
/// 2^32.
#[test]
fn sums_agree_on_drawn_bytes(rt: HostRuntime) -> Result<(), Fail> {
    let mut draws = Draws::from_seed(SEED);
    let mut bytes = Vec::new(rt.alloc());
    for len in 0..MOST {
        let summed: &[u8] = bytes.as_slice();
        if len <= EACH || len % STEP == 0 {
            assert_same!(rt;
                u64::from(body_sum(summed)),
                data_sum(summed),
                "{len} bytes"
            );
        }
        bytes.push(255 - draws.below(64))?;
    }
    Ok(())
}
