//! A recording's whole file, by what SETUP says.

ghost use Rattle.std.specs.Prelude.{ℕ, ◌≡◌, List, None, Some, MatchResult, map};
ghost use Rattle.ch11_setup.specs.Setups.{given_attribute};
ghost use Rattle.rec_reader.specs.Packets.{PacketData};
ghost use Rattle.rec_reader.specs.Reading.{Reads};
ghost use Rattle.rec_pieces.specs.PieceListings.{ListsPackets};
ghost use Rattle.rec_words.specs.SetupFile.{RecordingData};
ghost use Rattle.rec_words.specs.SetupViews.{attribute_data, general_data};
ghost use Rattle.cli_chapter11.specs.WholeFiles.{AreNamesOf, FailsBySetup, WritesBySetup, channel_said};

use crate::channels::{attributes_of, channels_of};
use crate::passes::{Passes, Seen};
use crate::summed::{ByteSum, Summed};
use ch11_clock::Clock;
use ch11_index::MOST_NAMED;
use ch11_setup::{Attribute, SetupChannel};
use rec_pieces::{FilePackets, PieceListing, PlacedRead, packets_are_read_at_their_places};
use rec_whole::{FileNames, WholeEnd, write_whole_file};
use rec_words::{GeneralSettings, RecordingSettings};
use std::alloc::Global;
use std::io::Write;

/// A recording, by what SETUP says.
#[derive(Drop)]
pub(crate) struct WholeFile<'f, F> {
    /// The recording's file.
    pub file: &'f F,
    /// Its packets.
    pub listing: &'f PieceListing,
    /// What SETUP says of the whole file.
    pub general: &'f GeneralSettings,
    /// What it says of the recording.
    pub recording: &'f RecordingSettings,
}

impl<'f, F: PlacedRead> Passes for WholeFile<'f, F> {
    ghost use Rattle.std.specs.Prelude.{ℕ, ◌≡◌, List, None, Some};
    ghost use Rattle.rec_reader.specs.Packets.{PacketData};
    ghost use Rattle.rec_reader.specs.Reading.{Reads};
    ghost use Rattle.rec_pieces.specs.PieceListings.{ListsPackets};
    ghost use Rattle.cli_chapter11.specs.WholeFiles.{FailsBySetup, WritesBySetup};

    ghost next = { λ whole. whole };

    ghost sees = { λ _. None };

    ghost writes = { λ whole before held counts. (bytes : List ℕ) (packets : List PacketData)
        → F.held whole.file.now ≡ Some bytes → Reads bytes packets None
        → ListsPackets packets whole.listing.now
        → WritesBySetup whole.general.now whole.recording.now packets before held counts };

    ghost fails = { λ whole before held end. (bytes : List ℕ) (packets : List PacketData)
        → F.held whole.file.now ≡ Some bytes → Reads bytes packets None
        → ListsPackets packets whole.listing.now
        → FailsBySetup whole.general.now whole.recording.now packets before held end };

    fn pass<W: Write + Drop>(&mut self, alloc: Global, output: W) -> Result<(Seen, W), WholeEnd> {
        write_once(alloc, self, output)
    }
}

/// Writes a whole file into an output by what SETUP says, and gives what it saw, and the output.
fn write_once<F: PlacedRead, W: Write + Drop>(
    alloc: Global,
    whole: &WholeFile<'_, F>,
    output: W,
) -> Result<(Seen, W), WholeEnd>
    ensures { MatchResult result
        (λ wrote. (bytes : List ℕ) (packets : List PacketData)
        → F.held whole.now.file.now ≡ Some bytes → Reads bytes packets None
        → ListsPackets packets whole.now.listing.now
        → WritesBySetup whole.now.general.now whole.now.recording.now packets
        (W.contents output) (W.contents wrote.1) wrote.0.counts)
        (λ end. (last : W) × ((bytes : List ℕ) (packets : List PacketData)
        → F.held whole.now.file.now ≡ Some bytes → Reads bytes packets None
        → ListsPackets packets whole.now.listing.now
        → FailsBySetup whole.now.general.now whole.now.recording.now packets
        (W.contents output) (W.contents last) end)) }
{
    packets_are_read_at_their_places();
    let general = whole.general;
    let recording = whole.recording;
    let channels = channels_of(alloc, recording.channels.as_slice())?;
    let attributes = attributes_of(alloc, general.attributes.as_slice())?;
    let clock = Clock::new(alloc, recording.origins.as_slice())?;
    let names = names_of(general, channels.as_slice(), attributes.as_slice());
    let mut summed = Summed {
        out: output,
        sum: ByteSum::NONE,
    };
    let packets = FilePackets::new(whole.file);
    let written = write_whole_file(
        alloc,
        &packets,
        whole.listing,
        &names,
        &clock,
        MOST_NAMED,
        &mut summed,
    );
    let Summed { out, sum } = summed;
    match written {
        Ok(counts) => Ok((Seen { counts, sum }, out)),
        Err(end) => Err(end),
    }
}

/// The names of a whole file by SETUP, with its channels and its attributes as a setup record takes them.
pub(crate) fn names_of<'a>(
    general: &'a GeneralSettings,
    channels: &'a [SetupChannel<'a>],
    attributes: &'a [Attribute<'a>],
) -> FileNames<'a>
    requires { map given_attribute attributes.now
        ≡ map attribute_data general.now.attributes.items }
    ensures { (recording : RecordingData) → map channel_said channels.now ≡ recording.channels
        → AreNamesOf (general_data general.now) recording result }
{
    FileNames {
        host: general.host.as_str(),
        program: general.program.as_str(),
        is_external: general.is_external,
        channels,
        attributes,
    }
}
