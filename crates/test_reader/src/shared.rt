//! What several tests share: the reading of bytes that may be cut.
use eth_frame::FeedWriteFault;
use rec_reader::{Extracted, Recording, extract_packet, read_recording};
use std::alloc::Global;
use std::io::Write;

/// The packets of these bytes, which may be cut.
pub(crate) fn packets_of(alloc: Global, bytes: &[u8]) -> Recording<'_> {
    read_recording(alloc, bytes).unwrap_or_else(|fault| fault.into_before())
}

/// Writes the frames of a channel into a feed, packet by packet.
pub(crate) fn extract<W: Write>(
    recording: &Recording<'_>,
    channel: u16,
    feed: &mut W,
) -> Result<Extracted, FeedWriteFault> {
    let mut extracted = Extracted {
        frames: 0,
        passed: 0,
    };
    for packet in recording.packets() {
        extract_packet(packet, channel, feed, &mut extracted)?;
    }
    Ok(extracted)
}
