//! The whole file of several recordings, by what SETUP says.

ghost use Rattle.std.specs.Prelude.{MatchResult};
ghost use Rattle.cli_chapter11.specs.JoinedFiles.{FailsJoined, WritesJoined};
ghost use Rattle.cli_chapter11.specs.Joining.{packets_there};

use crate::channels::attributes_of;
use crate::joined_channels::ListedRecording;
use crate::joining::names_in;
use crate::passes::{Passes, Seen};
use crate::summed::{ByteSum, Summed};
use crate::whole_file::names_of;
use ch11_channels::FileChannel;
use ch11_clock::{Clock, Origin};
use ch11_index::MOST_NAMED;
use rec_joined::{Joined, JoinedPackets};
use rec_pieces::{FilePackets, PlacedRead};
use rec_whole::{WholeEnd, write_whole_file};
use rec_words::{GeneralSettings, RecordingSettings};
use std::alloc::Global;
use std::io::Write;

/// Recordings that are joined, by what SETUP says.
#[derive(Drop)]
pub(crate) struct JoinedFile<'j, 'f, F> {
    /// The recordings' files, whose packets are read.
    pub files: &'f [F],
    /// The recordings.
    pub joined: &'j Joined<FilePackets<'f, F>>,
    /// What SETUP says of the whole file.
    pub general: &'j GeneralSettings,
    /// What it says of each recording.
    pub tables: &'j [RecordingSettings],
    /// What is known of each.
    pub all: &'j [ListedRecording],
    /// The channels of the file.
    pub channels: &'j [FileChannel],
    /// Where its clock begins.
    pub start: Origin,
}

impl<'j, 'f, F: PlacedRead> Passes for JoinedFile<'j, 'f, F> {
    ghost use Rattle.std.specs.Prelude.{None};
    ghost use Rattle.cli_chapter11.specs.JoinedFiles.{FailsJoined, WritesJoined};

    ghost next = { λ file. file };

    ghost sees = { λ _. None };

    ghost writes = { λ file. WritesJoined (packets_there F.held) file };

    ghost fails = { λ file. FailsJoined (packets_there F.held) file };

    fn pass<W: Write + Drop>(&mut self, alloc: Global, output: W) -> Result<(Seen, W), WholeEnd> {
        write_once(alloc, self, output)
    }
}

/// Writes the whole file into an output, and gives what it saw, and the output.
fn write_once<F: PlacedRead, W: Write + Drop>(
    alloc: Global,
    file: &JoinedFile<'_, '_, F>,
    output: W,
) -> Result<(Seen, W), WholeEnd>
    ensures { MatchResult result
        (λ wrote. WritesJoined (packets_there F.held) file.now (W.contents output)
        (W.contents wrote.1) wrote.0.counts)
        (λ end. (last : W) × FailsJoined (packets_there F.held) file.now (W.contents output)
        (W.contents last) end) }
{
    let attributes = attributes_of(alloc, file.general.attributes.as_slice())?;
    let clock = Clock::new(alloc, &[file.start])?;
    let channels = names_in(alloc, file.tables, file.all, file.channels)?;
    let names = names_of(file.general, channels.as_slice(), attributes.as_slice());
    let mut summed = Summed {
        out: output,
        sum: ByteSum::NONE,
    };
    let packets = JoinedPackets::new(file.joined.parts.as_slice());
    let written = write_whole_file(
        alloc,
        &packets,
        &file.joined.listing,
        &names,
        &clock,
        MOST_NAMED,
        &mut summed,
    );
    let Summed { out, sum } = summed;
    match written {
        Ok(counts) => Ok((Seen { counts, sum }, out)),
        Err(end) => Err(end),
    }
}
