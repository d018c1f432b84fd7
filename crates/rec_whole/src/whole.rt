//! A whole file of a recording, into an output.

ghost use Rattle.std.specs.Prelude.{ℕ, ◌≡◌, ◌<◌, ◌≤◌, ◌^◌, List, Some, MatchResult, length};
ghost use Rattle.std.specs.Option.{unwrap_or};
ghost use Rattle.rec_reader.specs.Packets.{PacketData};
ghost use Rattle.rec_pieces.specs.Entries.{AreThere, PacketPlaces};
ghost use Rattle.rec_pieces.specs.PieceListings.{ListsPackets};
ghost use Rattle.ch11_index.specs.declared.index.TheConstants.{MOST_NAMED};
ghost use Rattle.ch11_file.specs.FileEnds.{HoldsFile};
ghost use Rattle.rec_whole.specs.WholeRecordings.{EndsEarly, SaysNames, WholeFails, WritesRecording, facts_with};

use crate::channels::{setup_channels, time_channel};
use crate::names::FileNames;
use crate::refusal::{WholeEnd, WholeRefusal};
use ch11_clock::Clock;
use ch11_file::{FileCounts, FileSetup, write_file};
use ch11_setup::SetupChannel;
use rec_pieces::{PacketsAt, PieceListing, channel_sources};
use std::alloc::Global;
use std::io::Write;

/// How many counters a header or a frame can have.
const COUNTERS: u64 = 0x1_0000_0000_0000;

/// Writes the whole file of a recording's packets that were listed, with an index of at most `most` entries a packet.
///
/// # Errors
///
/// [`WholeEnd`]. Of a recording that is refused nothing, or the packets ahead of the fault, went out.
pub fn write_whole_file<P: PacketsAt, W: Write>(
    alloc: Global,
    packets: &P,
    listing: &PieceListing,
    names: &FileNames<'_>,
    clock: &Clock,
    most: u16,
    out: &mut W,
) -> Result<FileCounts, WholeEnd>
    requires some { 0 < most }
    requires few { most ≤ MOST_NAMED }
    ensures { (places : PacketPlaces) (held : List PacketData) → P.there packets.now ≡ Some places
        → AreThere places held → ListsPackets held listing.now
        → MatchResult result
        (WritesRecording held names.now clock.now most (W.contents out.old) (W.contents out.new))
        (WholeFails held names.now clock.now most (W.contents out.old) (W.contents out.new)) }
{
    if let Some(at) = listing.other() {
        return Err(WholeEnd::Refused(WholeRefusal::Other { at }));
    }
    let Some(time_channel) = time_channel(listing) else {
        return Err(WholeEnd::Refused(WholeRefusal::Full));
    };
    let ids = listing.channels(alloc)?;
    let channels = setup_channels(alloc, &ids, names.channels)?;
    let setup = file_setup(names, time_channel, channels.as_slice(), true);
    write_with_setup(alloc, packets, listing, &setup, clock, most, out)
}

/// What the setup record says of a recording with these channels, with an index or without.
pub fn file_setup<'a>(
    names: &FileNames<'a>,
    time_channel: u16,
    channels: &'a [SetupChannel<'a>],
    is_indexed: bool,
) -> FileSetup<'a>
    ensures names { SaysNames names.now result }
    ensures time_channel { result.time_channel ≡ time_channel }
    ensures channels { result.channels.now ≡ channels.now }
    ensures indexed { result.is_indexed ≡ is_indexed }
{
    FileSetup {
        host: names.host,
        program: names.program,
        is_external: names.is_external,
        is_indexed,
        time_channel,
        channels,
        attributes: names.attributes,
    }
}

/// The least counter of a recording: 0 where its packets have none.
fn least_counter(listing: &PieceListing) -> u64
    ensures { result ≡ unwrap_or listing.now.least 0 }
{
    listing.least().unwrap_or(0)
}

/// Writes the whole file with this setup record.
fn write_with_setup<P: PacketsAt, W: Write>(
    alloc: Global,
    packets: &P,
    listing: &PieceListing,
    setup: &FileSetup<'_>,
    clock: &Clock,
    most: u16,
    out: &mut W,
) -> Result<FileCounts, WholeEnd>
    requires some { 0 < most }
    requires few { most ≤ MOST_NAMED }
    requires number { length setup.now.channels.now < 2 ^ 16 }
    ensures { (places : PacketPlaces) (held : List PacketData) → P.there packets.now ≡ Some places
        → AreThere places held → ListsPackets held listing.now
        → MatchResult result
        (HoldsFile (facts_with held clock.now most setup.now) (W.contents out.old)
        (W.contents out.new))
        (EndsEarly (facts_with held clock.now most setup.now) (W.contents out.old)
        (W.contents out.new)) }
{
    let least = least_counter(listing);
    // No packet that is read has such a counter.
    if least >= COUNTERS {
        return Err(WholeEnd::Recording);
    }
    let mut sources = channel_sources(alloc, packets, listing)?;
    match write_file(alloc, &mut sources, setup, clock, least, most, out) {
        Ok(counts) => Ok(counts),
        Err(end) => Err(WholeEnd::from(end)),
    }
}
