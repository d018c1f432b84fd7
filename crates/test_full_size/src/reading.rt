//! What is read of a recording, beside what was fed.

use crate::channel::{Channel, Channels};
use crate::extracting::extract_all;
use crate::indexing::index_all;
use crate::streaming::stream;
use crate::telling::tell;
use ch11_packet::ReadFrame;
use rec_reader::{AuditLine, Recording, audit, frames_of, read_recording};
use std::alloc::Global;

/// Reads the recording in every way, with a line for each: whether each has its number.
pub(crate) fn read_in_every_way(rt: HostRuntime, channels: Channels, bytes: &[u8]) -> bool {
    match read_recording(rt.alloc(), bytes) {
        Ok(recording) => tell_of(rt, channels, bytes, &recording),
        Err(_) => false,
    }
}

/// A line for each way to read the recording, beside that as a whole.
fn tell_of(rt: HostRuntime, channels: Channels, bytes: &[u8], recording: &Recording<'_>) -> bool {
    let alloc = rt.alloc();
    tell(
        rt,
        "read whole ",
        find_all(alloc, channels, recording),
        " frames\n",
    ) && tell(
        rt,
        "read as a stream ",
        stream(alloc, bytes, recording),
        " packets\n",
    ) && tell(
        rt,
        "indexed ",
        index_all(alloc, channels, recording),
        " packets of frames\n",
    ) && tell(
        rt,
        "audited ",
        audit_all(alloc, channels, recording),
        " programs\n",
    ) && tell(
        rt,
        "extracted ",
        extract_all(alloc, channels, recording),
        " frames\n",
    )
}

/// Reads a recording whole, and finds the frames of each channel.
pub(crate) fn find_in(alloc: Global, channels: Channels, bytes: &[u8]) -> Option<u64> {
    match read_recording(alloc, bytes) {
        Ok(recording) => find_all(alloc, channels, &recording),
        Err(_) => None,
    }
}

/// Finds the frames of each channel. How many there are: `None` unless they are those that the
/// channels were fed and accepted.
fn find_all(alloc: Global, channels: Channels, recording: &Recording<'_>) -> Option<u64> {
    let mut found = 0u64;
    for index in channels.first..channels.end {
        found = found.saturating_add(find(alloc, Channel::at(index), recording)?);
    }
    Some(found)
}

/// Finds the frames of a channel.
fn find(alloc: Global, channel: Channel, recording: &Recording<'_>) -> Option<u64> {
    let frames = frames_of(alloc, recording, channel.id).ok()?;
    if are_fed(channel, frames.as_slice()) {
        Some(frames.len() as u64)
    } else {
        None
    }
}

/// Whether the frames are those that the channel was fed and accepted, in order and once each.
fn are_fed(channel: Channel, frames: &[ReadFrame<'_>]) -> bool {
    let mut number = 0u32;
    for frame in frames {
        number = channel.accepted_from(number);
        if !is_frame(channel, number, frame) {
            return false;
        }
        number = number.saturating_add(1);
    }
    frames.len() as u64 == channel.kept()
}

/// Whether a frame is the channel's one of this number.
fn is_frame(channel: Channel, number: u32, frame: &ReadFrame<'_>) -> bool {
    frame.counter == u64::from(number)
        && frame.crc_error == (number % 2 == 1)
        && frame.frame_error == (number % 4 >= 2)
        && (frame.net, frame.speed, frame.content) == (0, 3, 0)
        && channel.has_frame(number, frame.bytes)
}

/// Audits the recording. How many programs it has: `None` unless its lines say what the channels were
/// fed.
fn audit_all(alloc: Global, channels: Channels, recording: &Recording<'_>) -> Option<u64> {
    let audit = audit(alloc, recording).ok()?;
    if audit.other == 0 {
        count_programs(channels, audit.channels.as_slice())
    } else {
        None
    }
}

/// How many programs the lines have, if they are those of the channels.
fn count_programs(channels: Channels, lines: &[AuditLine]) -> Option<u64> {
    let mut index = channels.first;
    let mut programs = 0u64;
    for line in lines {
        if !is_audited(Channel::at(index), line) {
            return None;
        }
        programs = programs.saturating_add(line.programs);
        index = index.saturating_add(1);
    }
    if index == channels.end {
        Some(programs)
    } else {
        None
    }
}

/// Whether the line of a channel has the programs that it met, and the frames that it was fed.
fn is_audited(channel: Channel, line: &AuditLine) -> bool {
    let met = if channel.frames() == 0 {
        0
    } else {
        channel.versions()
    };
    line.channel == channel.id
        && line.programs == u64::from(met)
        && line.frames == channel.kept()
        && line.offered == u64::from(channel.frames())
}
