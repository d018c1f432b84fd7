//! An index of a recording: where the frames of each channel are.

ghost use Rattle.std.specs.Prelude.{ℕ, ◌≡◌, ◌==◌, ◌∷◌, ◌++◌, [], if◌then◌else◌, IfOk, OnOk};
ghost use Rattle.std.specs.Ordering.{nat_cmp};
ghost use Rattle.std.specs.BTreeMap.{get};
ghost use Rattle.rec_reader.specs.Indexes.{entry_of, entries_of, entries_in, listed};
ghost use Rattle.rec_reader.specs.Views.{packet_data, packets_data};

use crate::packet::Packet;
use crate::recording::Recording;
use ch11_packet::What;
use std::alloc::{AllocError, Global};
use std::collections::BTreeMap;

/// A packet of frames in an index.
#[derive(Clone, Copy, Debug, PartialEq, Eq)]
pub struct Entry {
    /// The packet's number among all packets of the recording, counted from 0.
    pub packet: u64,
    /// The place of its first byte in the recording, counted from 0.
    pub at: u64,
    /// The number of its frames.
    pub frames: u16,
}

/// The entries of a channel.
#[derive(Debug, Drop)]
pub(crate) struct Entries {
    pub entries: Vec<Entry>,
}

/// The packets of frames of each channel of a recording. It borrows nothing, and has 24 bytes for
/// each such packet, beside what each channel takes that has one.
#[derive(Debug, Drop)]
pub struct Index {
    channels: BTreeMap<u16, Entries>,
}

impl Index {
    /// The index of a recording, by one pass over its packets. For each packet the channel is
    /// looked for among those that were met, so `n` packets of `c` channels take `n log c` steps.
    pub fn of(alloc: Global, recording: &Recording<'_>) -> Result<Index, AllocError>
        ensures entries { IfOk result (λ index. (channel : ℕ)
            → entries_in index channel ≡ entries_of channel recording.now) }
    {
        Index::of_packets(alloc, recording.packets())
    }

    /// The index of these packets.
    fn of_packets(alloc: Global, packets: &[Packet<'_>]) -> Result<Index, AllocError>
        ensures { IfOk result (λ index. (channel : ℕ)
            → entries_in index channel ≡ entries_of channel (packets_data packets.now)) }
    {
        let mut index = Index {
            channels: BTreeMap::new(alloc),
        };
        let mut number = 0;
        'packets: for packet in packets {
            index.add(alloc, number, packet)?;
            number += 1;
        }
        Ok(index)
    }

    /// Adds the packet with this number.
    fn add(&mut self, alloc: Global, number: u64, packet: &Packet<'_>) -> Result<(), AllocError>
        ensures { OnOk result ((channel : ℕ) → entries_in self.new channel
            ≡ entries_in self.old channel ++ entry_of channel (number, packet_data packet.now)) }
    {
        let What::Frames(frames) = packet.what else {
            return Ok(());
        };
        let entry = Entry {
            packet: number,
            at: packet.at,
            frames,
        };
        add_entry(alloc, &mut self.channels, packet.header.channel, entry)
    }

    /// The packets of frames of a channel, in the order of the recording.
    pub fn packets_of(&self, channel: u16) -> &[Entry]
        ensures { result.now ≡ entries_in self.now channel }
    {
        match self.channels.get(&channel) {
            Some(listed) => listed.entries.as_slice(),
            None => &[],
        }
    }
}

/// Adds an entry to those of a channel.
fn add_entry(
    alloc: Global,
    channels: &mut BTreeMap<u16, Entries>,
    channel: u16,
    entry: Entry,
) -> Result<(), AllocError>
    ensures { OnOk result ((other : ℕ) → listed (get nat_cmp channels.new other)
        ≡ listed (get nat_cmp channels.old other)
        ++ (if channel == other then entry ∷ [] else [])) }
{
    match channels.get_mut(&channel) {
        Some(listed) => listed.entries.push(entry)?,
        None => {
            let mut entries = Vec::new(alloc);
            entries.push(entry)?;
            channels.insert(channel, Entries { entries })?;
        }
    }
    Ok(())
}
