//! Recordings that are joined, by what SETUP says of each.

ghost use Rattle.std.specs.Prelude.{ℕ, ◌≡◌, ◌==◌, ◌<◌, if◌then◌else◌, List, [], length, map, IfOk, IfErr, IfSome};
ghost use Rattle.std.specs.List.{flat_map};
ghost use Rattle.rec_reader.specs.Packets.{PacketData};
ghost use Rattle.rec_joined.specs.JoinedPackets.{IsJoined};
ghost use Rattle.cli_chapter11.specs.Joining.{AreHeld, AreMovedBy, AreReadings, IsMovedBy, IsNameBy, IsStartOf, name_by_table, said_in_table, origins_of, packets_there};
ghost use Rattle.cli_chapter11.specs.RecordsInRuns.{left_by, left_by_ids};
ghost use Rattle.cli_chapter11.specs.WholeFiles.{channel_said};

use crate::files::reader_of;
use crate::joined_channels::ListedRecording;
use ch11_channels::FileChannel;
use ch11_clock::{Clock, Origin};
use ch11_moved::{earliest, file_start};
use ch11_setup::SetupChannel;
use rec_joined::{JoinEnd, Joined, Moves};
use rec_pieces::{FilePackets, PlacedRead, packets_are_read_at_their_places};
use rec_runs::{RecordMoves, continue_in};
use rec_words::RecordingSettings;
use std::alloc::{AllocError, Global};

/// Why recordings aren't joined, and the place of the one that isn't, from 0.
#[derive(Clone, Copy, Debug)]
pub(crate) struct JoinFault {
    pub end: JoinEnd,
    pub place: usize,
}

/// Where the clock of a file of these recordings begins: at the earliest of all their origins, rounded down to a
/// whole tick. `None` where that lies 10^12 seconds or more before 1970.
pub(crate) fn start_in(
    alloc: Global,
    recordings: &[RecordingSettings],
) -> Result<Option<Origin>, AllocError>
    ensures { IfOk result (λ start. IfSome start (IsStartOf (flat_map origins_of recordings.now))) }
{
    let mut origins = Vec::new(alloc);
    'recordings: for recording in recordings {
        origins.extend_from_slice(recording.origins.as_slice())?;
    }
    match origins.as_slice() {
        [first, others @ ..] => Ok(file_start(earliest(*first, others))),
        [] => Ok(None),
    }
}

/// The names of the channels of a file that the recordings' tables name, each with its ID in the file.
pub(crate) fn names_in<'a>(
    alloc: Global,
    recordings: &'a [RecordingSettings],
    all: &[ListedRecording],
    channels: &[FileChannel],
) -> Result<Vec<SetupChannel<'a>>, AllocError>
    ensures { IfOk result (λ names. map channel_said names.items
        ≡ flat_map (name_by_table recordings.entry.now all.now) channels.now) }
{
    let mut names = Vec::new(alloc);
    'channels: for channel in channels {
        if let Some(name) = name_in(recordings, all, channel) {
            names.push(name)?;
        }
    }
    Ok(names)
}

/// Joins these recordings, each by its own clock and of its run.
pub(crate) fn join_in<'f, F: PlacedRead>(
    alloc: Global,
    files: &'f [F],
    recordings: &[RecordingSettings],
    all: &[ListedRecording],
    channels: &[FileChannel],
    start: Origin,
) -> Result<Joined<FilePackets<'f, F>>, JoinFault>
    requires tables { length recordings.now ≡ length files.now }
    requires listed { length all.now ≡ length files.now }
    ensures place { IfErr result (λ fault. fault.place < length files.entry.now) }
    ensures moved { IfOk result (λ joined. AreMovedBy F.held start channels.now files.entry.now
        recordings.now all.now joined.parts.items) }
    ensures joined { IfOk result (λ joined. (bytes : List (List ℕ))
        → AreHeld F.held files.entry.now bytes
        → (read : List (List PacketData)) × AreReadings bytes read
        × IsJoined (packets_there F.held) joined read) }
{
    packets_are_read_at_their_places();
    let mut joined = Joined::new(alloc);
    'files: for place in 0..files.len() {
        let file = &files[place];
        let later = &all[place + 1..];
        let Ok(moves) = moves_of(
            alloc,
            &recordings[place],
            &all[place],
            later,
            channels,
            start,
        ) else {
            return Err(JoinFault {
                end: JoinEnd::Memory,
                place,
            });
        };
        let Ok(mut reader) = reader_of(alloc, file) else {
            return Err(JoinFault {
                end: JoinEnd::Memory,
                place,
            });
        };
        match joined.add(alloc, FilePackets::new(file), &mut reader, moves) {
            Ok(()) => {}
            Err(end) => return Err(JoinFault { end, place }),
        }
    }
    Ok(joined)
}

/// What the counters, the channels and the records of a recording become.
fn moves_of(
    alloc: Global,
    recording: &RecordingSettings,
    listed: &ListedRecording,
    later: &[ListedRecording],
    channels: &[FileChannel],
    start: Origin,
) -> Result<Moves, AllocError>
    ensures { IfOk result (IsMovedBy start channels.now recording.now listed.now later.now) }
{
    let clock = Clock::new(alloc, recording.origins.as_slice())?;
    let mut own = Vec::new(alloc);
    'channels: for channel in channels {
        if channel.of.run == listed.run {
            own.push(*channel)?;
        }
    }
    let mut records = Vec::new(alloc);
    records.extend_from_slice(listed.records.as_slice())?;
    leave_ends(records.as_mut_slice(), listed.run, later);
    Ok(Moves {
        start,
        clock,
        channels: own,
        run: listed.run,
        records,
    })
}

/// Leaves out the ends of the channels that later recordings of the run name.
fn leave_ends(records: &mut [RecordMoves], run: usize, later: &[ListedRecording])
    ensures { records.new ≡ map (left_by run later.now) records.old }
{
    'later: for listed in later {
        if listed.run == run {
            leave_ends_of(records, listed.ids.as_slice());
        }
    }
}

/// Leaves out the ends of these channels.
fn leave_ends_of(records: &mut [RecordMoves], ids: &[u16])
    ensures { records.new ≡ map (left_by_ids ids.now) records.old }
{
    'ids: for id in ids {
        continue_in(records, *id);
    }
}

/// The name of a channel of a file, by the table of the first recording of its run that names it.
fn name_in<'a>(
    recordings: &'a [RecordingSettings],
    all: &[ListedRecording],
    channel: &FileChannel,
) -> Option<SetupChannel<'a>>
    ensures { IsNameBy (name_by_table recordings.entry.now all.now channel.now) result }
{
    'recordings: for place in 0..recordings.len().min(all.len()) {
        if let Some(name) = name_in_run(&recordings[place], &all[place], channel) {
            return Some(name);
        }
    }
    None
}

/// The name of a channel of a file, if the recording is of its run and its table names it.
fn name_in_run<'a>(
    recording: &'a RecordingSettings,
    listed: &ListedRecording,
    channel: &FileChannel,
) -> Option<SetupChannel<'a>>
    ensures { IsNameBy (if listed.now.run == channel.now.of.run
        then said_in_table channel.now recording.entry.now else []) result }
{
    if listed.run != channel.of.run {
        return None;
    }
    name_by(recording, channel)
}

/// The name of a channel of a file, if the table of a recording names it.
fn name_by<'a>(recording: &'a RecordingSettings, channel: &FileChannel) -> Option<SetupChannel<'a>>
    ensures { IsNameBy (said_in_table channel.now recording.entry.now) result }
{
    'said: for said in recording.channels.as_slice() {
        if said.id == channel.of.channel {
            return Some(SetupChannel {
                id: channel.id,
                name: said.name.as_str(),
                net: said.net,
            });
        }
    }
    None
}
