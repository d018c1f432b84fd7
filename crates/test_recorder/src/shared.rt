//! What several tests share: settings of channels, and frames that are read again.
use ch11_packet::Limit;
use rec_lane::LaneSpec;
use rec_reader::{frames_of, read_recording};
use std::alloc::Global;
use std::test::Fail;

/// Settings of a channel with network identifier 0 and speed 3, whose packets are of this limit.
pub(crate) fn settings(channel: u16, limit: u32) -> Result<LaneSpec, Fail> {
    let limit = Limit::new(limit).ok_or("a limit")?;
    Ok(LaneSpec::new(channel, 0, 3, limit).ok_or("settings in range")?)
}

/// The counters of the frames that are read of a channel, in a recording that may be cut.
pub(crate) fn counters_of(alloc: Global, bytes: &[u8], channel: u16) -> Result<Vec<u64>, Fail> {
    let packets = read_recording(alloc, bytes).unwrap_or_else(|fault| fault.into_before());
    let mut counters = Vec::new(alloc);
    for frame in &frames_of(alloc, &packets, channel)? {
        counters.push(frame.counter)?;
    }
    Ok(counters)
}
