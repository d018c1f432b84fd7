//! What is extracted of the recording, beside what was fed.

use crate::channel::{Channel, Channels};
use rec_reader::{Extracted, Recording, extract_packet};
use std::alloc::Global;

/// Extracts each channel. How many frames there are: `None` unless they are those that the channels
/// were fed and accepted.
pub(crate) fn extract_all(
    alloc: Global,
    channels: Channels,
    recording: &Recording<'_>,
) -> Option<u64> {
    let mut found = 0u64;
    for index in channels.first..channels.end {
        found = found.saturating_add(extract(alloc, Channel::at(index), recording)?);
    }
    Some(found)
}

/// Extracts a channel packet by packet.
fn extract(alloc: Global, channel: Channel, recording: &Recording<'_>) -> Option<u64> {
    let mut feed = Vec::new(alloc);
    let Extracted { frames, passed } = extract_into(&mut feed, channel, recording)?;
    let fed = channel.accepted_feed(alloc).ok()?;
    if feed == fed && frames == channel.kept() && passed == 0 {
        Some(frames)
    } else {
        None
    }
}

/// Extracts a channel into a feed.
fn extract_into(
    feed: &mut Vec<u8>,
    channel: Channel,
    recording: &Recording<'_>,
) -> Option<Extracted> {
    let mut extracted = Extracted {
        frames: 0,
        passed: 0,
    };
    for packet in recording.packets() {
        extract_packet(packet, channel.id, feed, &mut extracted).ok()?;
    }
    Some(extracted)
}
