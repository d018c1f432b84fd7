//! The index of the recording, beside its packets.

use crate::channel::{Channel, Channels};
use ch11_packet::What;
use rec_reader::{Entry, Index, Packet, Recording};
use std::alloc::Global;

/// Indexes the recording. How many packets of frames it has: `None` unless each channel's entries are
/// those of its packets of frames.
pub(crate) fn index_all(
    alloc: Global,
    channels: Channels,
    recording: &Recording<'_>,
) -> Option<u64> {
    let entries = Index::of(alloc, recording).ok()?;
    let mut found = 0u64;
    for index in channels.first..channels.end {
        let channel = Channel::at(index);
        let count = count_entries(channel, recording, entries.packets_of(channel.id))?;
        found = found.saturating_add(count);
    }
    Some(found)
}

/// How many entries there are, if they are those of the channel's packets of frames, in order and once
/// each.
fn count_entries(channel: Channel, recording: &Recording<'_>, entries: &[Entry]) -> Option<u64> {
    let mut left = entries.iter();
    let mut number = 0u64;
    for packet in recording.packets() {
        let wanted = entry_of(channel, number, packet);
        if wanted.is_some() && left.next().copied() != wanted {
            return None;
        }
        number = number.saturating_add(1);
    }
    if left.next().is_none() {
        Some(entries.len() as u64)
    } else {
        None
    }
}

/// The entry of the packet of this number, if it has frames of the channel.
fn entry_of(channel: Channel, number: u64, packet: &Packet<'_>) -> Option<Entry> {
    match packet.what {
        What::Frames(frames) if packet.header.channel == channel.id => Some(Entry {
            packet: number,
            at: packet.at,
            frames,
        }),
        _ => None,
    }
}
