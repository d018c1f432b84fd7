//! A channel's frames, written out of a recording into a feed.

ghost use Rattle.std.specs.Prelude.{◌∷◌, [], OnOk};
ghost use Rattle.std.specs.Io.KnownBytes.{Appends};
ghost use Rattle.ch11_packet.specs.Views.{read_frame_data};
ghost use Rattle.rec_reader.specs.ChannelFrames.{packet_frames, channel_frames, feed_part, feed_of};
ghost use Rattle.rec_reader.specs.Extracting.{Counts};
ghost use Rattle.rec_reader.specs.Views.{packet_data};

use crate::packet::Packet;
use ch11_packet::ReadFrame;
use eth_frame::{FeedWriteFault, write_feed};
use std::io::Write;

/// How many of a channel's frames were written into a feed, and how many were passed over.
#[derive(Clone, Copy, Debug, PartialEq, Eq)]
pub struct Extracted {
    /// The frames in the feed.
    pub frames: u64,
    /// The frames without their check sequence: those whose content isn't 0, or that have fewer
    /// than 18 bytes.
    pub passed: u64,
}

/// Writes a packet's frames that have their check sequence into a feed, if it is of the channel, and
/// counts them and those that it passes over. It takes no memory, and doesn't flush the feed. After
/// [`FeedWriteFault::Device`] it isn't known how much of them was written.
pub fn extract_packet<W: Write>(
    packet: &Packet<'_>,
    channel: u16,
    feed: &mut W,
    extracted: &mut Extracted,
) -> Result<(), FeedWriteFault>
    ensures feed { OnOk result (Appends (W.contents feed.old) (W.contents feed.new)
        (feed_of (channel_frames channel (packet_data packet.now ∷ [])))) }
    ensures counts { OnOk result (Counts extracted.old extracted.new
        (channel_frames channel (packet_data packet.now ∷ []))) }
{
    if packet.header.channel == channel {
        extract_frames(packet, feed, extracted)
    } else {
        Ok(())
    }
}

/// Writes a packet's frames into a feed.
fn extract_frames<W: Write>(
    packet: &Packet<'_>,
    feed: &mut W,
    extracted: &mut Extracted,
) -> Result<(), FeedWriteFault>
    ensures feed { OnOk result (Appends (W.contents feed.old) (W.contents feed.new)
        (feed_of (packet_frames (packet_data packet.now)))) }
    ensures counts { OnOk result (Counts extracted.old extracted.new
        (packet_frames (packet_data packet.now))) }
{
    let Some(frames) = packet.frames() else {
        return Ok(());
    };
    'frames: for read in frames.walk() {
        extract_frame(&read, feed, extracted)?;
    }
    Ok(())
}

/// Writes a frame into a feed, or passes over it.
fn extract_frame<W: Write>(
    read: &ReadFrame<'_>,
    feed: &mut W,
    extracted: &mut Extracted,
) -> Result<(), FeedWriteFault>
    ensures feed { OnOk result (Appends (W.contents feed.old) (W.contents feed.new)
        (feed_part (read_frame_data read.now))) }
    ensures counts { OnOk result (Counts extracted.old extracted.new
        (read_frame_data read.now ∷ [])) }
{
    let Extracted { frames, passed } = *extracted;
    match read.frame() {
        Some(frame) => {
            extracted.frames = frames.saturating_add(1);
            write_feed(&frame, feed)
        }
        None => {
            extracted.passed = passed.saturating_add(1);
            Ok(())
        }
    }
}
