//! What the packets of a recording are in a whole file, by channels.

ghost use Rattle.std.specs.Prelude.{ℕ, ◌≡◌, ◌==◌, ◌<◌, ◌^◌, ◌∷◌, ◌++◌, [], map, Some, if◌then◌else◌, IfSome, OnOk};
ghost use Rattle.std.specs.Ordering.{nat_cmp};
ghost use Rattle.std.specs.BTreeMap.{get};
ghost use Rattle.rec_reader.specs.ChannelFrames.{packet_frames};
ghost use Rattle.rec_reader.specs.Views.{packet_data};
ghost use Rattle.rec_pieces.specs.declared.entry.PieceKind.TheVariants.{Uncounted};
ghost use Rattle.rec_pieces.specs.Entries.{packet_names};
ghost use Rattle.rec_pieces.specs.Listings.{first_at, frame_counter, least_of, lesser, entries_held, packet_counters};

use crate::entry::{PieceEntry, PieceKind};
use ch11_packet::What;
use rec_reader::Packet;
use std::alloc::{AllocError, Global};
use std::collections::BTreeMap;

/// How many channel IDs there are.
const CHANNEL_IDS: u32 = 65_536;

/// The packets of a channel.
#[derive(Debug, Drop)]
pub(crate) struct Entries {
    pub entries: Vec<PieceEntry>,
}

/// The packets of a recording, by the channels that they name. It has 16 bytes for each packet, beside
/// what each channel takes.
#[derive(Debug, Drop)]
pub struct PieceListing {
    channels: BTreeMap<u16, Entries>,
    least: Option<u64>,
    other: Option<u64>,
}

impl PieceListing {
    ghost use Rattle.std.specs.Prelude.{◌≡◌, ◌∷◌, ◌++◌, [], List, OnOk, IfOk};
    ghost use Rattle.rec_reader.specs.Packets.{PacketData};
    ghost use Rattle.rec_reader.specs.Views.{packet_data};
    ghost use Rattle.rec_pieces.specs.PieceListings.{ListsPackets, listed_entries, listed_channels};

    /// The listing of no packets.
    pub fn new(alloc: Global) -> PieceListing
        ensures { ListsPackets [] result }
    {
        PieceListing {
            channels: BTreeMap::new(alloc),
            least: None,
            other: None,
        }
    }

    /// Adds the next packet of a recording.
    pub fn add(&mut self, alloc: Global, packet: &Packet<'_>) -> Result<(), AllocError>
        ensures { OnOk result ((packets : List PacketData) → ListsPackets packets self.old
            → ListsPackets (packets ++ packet_data packet.now ∷ []) self.new) }
    {
        let Some((channel, kind)) = names(packet) else {
            self.other = first(self.other, packet.at);
            return Ok(());
        };
        self.least = lesser(self.least, least_counter(packet, channel, kind));
        let entry = PieceEntry {
            at: packet.at,
            kind,
        };
        add_entry(alloc, &mut self.channels, channel, entry)
    }

    /// Adds an end that stands at a place, as that of a channel that was offered no frame, whatever its bytes say.
    pub fn add_uncounted(&mut self, alloc: Global, at: u64, channel: u16) -> Result<(), AllocError>
        ensures { OnOk result ((packets : List PacketData) (packet : PacketData) → packet.at ≡ at
            → packet_names packet ≡ Some (channel, Uncounted) → ListsPackets packets self.old
            → ListsPackets (packets ++ packet ∷ []) self.new) }
    {
        let entry = PieceEntry {
            at,
            kind: PieceKind::Uncounted,
        };
        add_entry(alloc, &mut self.channels, channel, entry)
    }

    /// The least counter of frames, of programs, and of ends of channels that were offered a frame.
    pub fn least(&self) -> Option<u64>
        ensures { result ≡ self.now.least }
    {
        self.least
    }

    /// The place of the first packet that is neither frames of a channel from 1 on, a program nor an end.
    pub fn other(&self) -> Option<u64>
        ensures { result ≡ self.now.other }
    {
        self.other
    }

    /// The channels that packets name, the least first. Each channel ID is looked up.
    pub fn channels(&self, alloc: Global) -> Result<Vec<u16>, AllocError>
        ensures { IfOk result (λ channels. channels.items ≡ listed_channels self.now) }
    {
        let mut channels = Vec::new(alloc);
        'channels: for id in 0..CHANNEL_IDS {
            let channel = id as u16;
            if !self.packets_of(channel).is_empty() {
                channels.push(channel)?;
            }
        }
        Ok(channels)
    }

    /// The packets of a channel, in the order of the recording.
    pub fn packets_of(&self, channel: u16) -> &[PieceEntry]
        ensures { result.now ≡ listed_entries self.now channel }
    {
        match self.channels.get(&channel) {
            Some(listed) => listed.entries.as_slice(),
            None => &[],
        }
    }
}

/// The channel that a packet names, and what it is in a whole file: `None` if it is of any other kind.
pub fn names(packet: &Packet<'_>) -> Option<(u16, PieceKind)>
    ensures { result ≡ packet_names (packet_data packet.now) }
{
    match packet.what {
        What::Frames(_) if packet.header.channel != 0 => {
            Some((packet.header.channel, PieceKind::Frames))
        }
        What::Program { channel, .. } => Some((channel, PieceKind::Record)),
        What::End {
            channel,
            offered,
            ..
        } => {
            let kind = if offered == 0 {
                PieceKind::Uncounted
            } else {
                PieceKind::Record
            };
            Some((channel, kind))
        }
        What::Frames(_) | What::Other => None,
    }
}

/// The least counter of what a packet holds, which names a channel.
pub fn least_counter(packet: &Packet<'_>, channel: u16, kind: PieceKind) -> Option<u64>
    requires { packet_names (packet_data packet.now) ≡ Some (channel, kind) }
    ensures is { result ≡ least_of (packet_counters (packet_data packet.now)) }
    ensures fits { IfSome result (λ counter. counter < 2 ^ 48) }
{
    match kind {
        PieceKind::Frames => least_of_frames(packet),
        PieceKind::Record => Some(packet.header.counter),
        PieceKind::Uncounted => None,
    }
}

/// The least counter of a packet's frames.
fn least_of_frames(packet: &Packet<'_>) -> Option<u64>
    ensures is { result ≡ least_of (map frame_counter (packet_frames (packet_data packet.now))) }
    ensures fits { IfSome result (λ counter. counter < 2 ^ 48) }
{
    let Some(frames) = packet.frames() else {
        return None;
    };
    let mut least = None;
    'frames: for frame in frames.walk() {
        least = lesser(least, Some(frame.counter));
    }
    least
}

/// The lesser of two counters, where there are any.
fn lesser(one: Option<u64>, other: Option<u64>) -> Option<u64>
    ensures { result ≡ lesser one other }
{
    match (one, other) {
        (Some(one), Some(other)) => Some(one.min(other)),
        (Some(one), None) => Some(one),
        (None, other) => other,
    }
}

/// The first of two places.
fn first(earlier: Option<u64>, at: u64) -> Option<u64>
    ensures { result ≡ first_at earlier at }
{
    match earlier {
        Some(earlier) => Some(earlier),
        None => Some(at),
    }
}

/// Adds an entry to those of a channel.
fn add_entry(
    alloc: Global,
    channels: &mut BTreeMap<u16, Entries>,
    channel: u16,
    entry: PieceEntry,
) -> Result<(), AllocError>
    ensures { OnOk result ((other : ℕ) → entries_held (get nat_cmp channels.new other)
        ≡ entries_held (get nat_cmp channels.old other)
        ++ (if channel == other then entry ∷ [] else [])) }
{
    match channels.get_mut(&channel) {
        Some(listed) => listed.entries.push(entry)?,
        None => {
            let mut entries = Vec::new(alloc);
            entries.push(entry)?;
            channels.insert(channel, Entries { entries })?;
        }
    }
    Ok(())
}
