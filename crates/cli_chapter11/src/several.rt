//! The command, of several recordings.

ghost use Rattle.std.specs.Prelude.{ℕ, ◌≡◌, ◌<◌, List, Option, Err, IfOk, length, map};
ghost use Rattle.ch11_channels.specs.GivenIds.{AreNumberedChannels};
ghost use Rattle.ch11_channels.specs.Runs.{AreRunsOf};
ghost use Rattle.rec_reader.specs.Packets.{PacketData};
ghost use Rattle.std.specs.Io.KnownBytes.{Keeps};
ghost use Rattle.std.specs.Io.Buffered.{writer_contents};
ghost use Rattle.cli_chapter11.specs.declared.joining.JoinFault.{JoinFault};
ghost use Rattle.cli_chapter11.specs.declared.several.JoinedEnd.TheVariants.{Joining};
ghost use Rattle.rec_joined.specs.declared.fault.MoveFault.TheVariants.{Gap, Sum};
ghost use Rattle.rec_joined.specs.declared.listing.JoinEnd.TheVariants.{Packet};
ghost use Rattle.rec_whole.specs.declared.refusal.WholeRefusal.TheVariants.{Gap as HasGap};
ghost use Rattle.cli_streams.specs.declared.ending.CommandEnding.TheVariants.{InRun, Joined as JoinedRefusal};
ghost use Rattle.cli_streams.specs.declared.run_refusal.RunRefusal.TheVariants.{Sum as HasSum};
ghost use Rattle.cli_streams.specs.OwnPlaces.{IsJoinedRefusal};
ghost use Rattle.cli_chapter11.specs.declared.writing.WriteEnd.TheVariants.{Refused};
ghost use Rattle.cli_chapter11.specs.JoinedChannels.{NoneRefused, after_of, all_listed_channels};
ghost use Rattle.cli_chapter11.specs.Joining.{AreHeld, AreReadings, end_of_part};
ghost use Rattle.cli_chapter11.specs.JoinedFiles.{WritesRecordings};
ghost use Rattle.cli_chapter11.specs.RecordsInRuns.{AreListedInRuns, run_of_listed};

use crate::command::{NamedOut, print_counts};
use crate::files::{listing_of, open_recording, setup_in};
use crate::joined_channels::{ListedRecording, channels_in, refuse_first, runs_in};
use crate::joined_file::JoinedFile;
use crate::joining::{JoinFault, join_in, start_in};
use crate::listed::list_all;
use crate::uncreated::Uncreated;
use crate::writing::{WriteEnd, judged_then_written};
use ch11_channels::FileChannel;
use ch11_clock::Origin;
use ch11_file::FileCounts;
use cli_streams::{CommandEnding, Inputs, LockFile, RunRefusal};
use rec_joined::{JoinEnd, Joined, MoveFault};
use rec_pieces::{PacketsAt, PlacedRead};
use rec_whole::WholeRefusal;
use rec_words::FileSettings;
use std::alloc::{AllocError, Global};
use std::fs;
use std::io::{BufWriter, Write};
use std::rt::Files;

/// The most recordings of a file.
const MAX_RECORDINGS: usize = 1_024;

/// `chapter11 RECORDING.. SETUP OUT`: writes one whole Chapter 11 file of several recordings into OUT, forces it to
/// its disk, and prints how many packets of each kind it has. All recordings stay open until it is written. An OUT
/// that is one of the inputs is refused before they are read.
pub fn write_joined<'a, R: AllocGlobal + Files, O: Write>(
    rt: &R,
    recordings: &'a [String],
    setup: &'a str,
    out: &'a str,
    output: &mut O,
) -> Result<(), CommandEnding<'a>>
where
    R::File: LockFile + PlacedRead,
{
    let alloc = rt.alloc();
    let mut inputs = Inputs::new(alloc);
    let Listed {
        files,
        settings,
        all,
        channels,
    } = listed_in(rt, recordings, setup, out, &mut inputs)?;
    let Some(start) = start_in(alloc, &settings.recordings)? else {
        return Err(CommandEnding::of_joined(WholeRefusal::Year, &[]));
    };
    let mut named = NamedOut {
        rt,
        inputs: &inputs,
        out,
    };
    match write_whole(alloc, &files, &settings, &all, &channels, start, &mut named) {
        Ok((counts, written)) => {
            written.get_ref().keep(out)?;
            print_counts(alloc, output, counts)
        }
        Err(JoinedEnd::Joining(fault)) => Err(ending_of_joining(recordings, fault)),
        Err(JoinedEnd::Writing { end, ends }) => Err(ending_of(
            alloc, recordings, &files, out, &ends, end,
        )),
    }
}

/// Why recordings aren't written as one file.
#[derive(Drop)]
enum JoinedEnd<E> {
    /// One of them isn't joined.
    Joining(JoinFault),
    /// OUT isn't written, of recordings that end there in the joined one.
    Writing { end: WriteEnd<E>, ends: Vec<u64> },
}

/// Writes the whole file of recordings, each of which has a table and a run: what OUT took is the whole file of their
/// packets, as they become by what SETUP and the listing say.
fn write_whole<F: PlacedRead, O: Uncreated>(
    alloc: Global,
    files: &[F],
    settings: &FileSettings,
    all: &[ListedRecording],
    channels: &[FileChannel],
    start: Origin,
    out: &mut O,
) -> Result<(FileCounts, BufWriter<O::File>), JoinedEnd<O::Fault>>
    requires tables { length settings.now.recordings.items ≡ length files.now }
    requires listed { length all.now ≡ length files.now }
    ensures place { (fault : JoinFault) → result ≡ Err (Joining fault)
        → fault.place < length files.now }
    ensures written { IfOk result (λ written. (held : Option (List ℕ))
        × WritesRecordings F.held files.now settings.now all.now channels.now start
        (O.held out.old) held written.0
        × Keeps held (writer_contents O.File.contents written.1)) }
{
    let joined = match join_in(alloc, files, &settings.recordings, all, channels, start) {
        Ok(joined) => joined,
        Err(fault) => return Err(JoinedEnd::Joining(fault)),
    };
    let Ok(ends) = ends_of(alloc, &joined) else {
        return Err(JoinedEnd::Writing {
            end: WriteEnd::Memory,
            ends: Vec::new(alloc),
        });
    };
    let mut whole = JoinedFile {
        files,
        joined: &joined,
        general: &settings.general,
        tables: &settings.recordings,
        all,
        channels,
        start,
    };
    match judged_then_written(alloc, &mut whole, out) {
        Ok(written) => Ok(written),
        Err(end) => Err(JoinedEnd::Writing { end, ends }),
    }
}

/// Recordings that were read to their ends, and what SETUP says of them.
#[derive(Drop)]
struct Listed<F> {
    files: Vec<F>,
    settings: FileSettings,
    /// What is known of each.
    all: Vec<ListedRecording>,
    /// The channels of the file.
    channels: Vec<FileChannel>,
}

/// Opens and lists recordings, whose files are inputs as SETUP is.
fn listed_in<'a, R: AllocGlobal + Files>(
    rt: &R,
    recordings: &'a [String],
    setup: &'a str,
    out: &'a str,
    inputs: &mut Inputs,
) -> Result<Listed<R::File>, CommandEnding<'a>>
where
    R::File: LockFile + PlacedRead,
    ensures files { IfOk result (λ all. length all.files.items ≡ length recordings.entry.now) }
    ensures listed { IfOk result (λ all. length all.all.items ≡ length recordings.entry.now) }
    ensures tables { IfOk result
        (λ all. length all.settings.recordings.items ≡ length recordings.entry.now) }
    ensures known { IfOk result
        (λ all. (bytes : List (List ℕ)) → AreHeld R.File.held all.files.items bytes
        → (read : List (List PacketData)) × AreReadings bytes read
        × AreListedInRuns all.all.items read) }
    ensures runs { IfOk result (λ all. AreRunsOf (map after_of all.settings.recordings.items)
        (map run_of_listed all.all.items)) }
    ensures joinable { IfOk result (λ all. NoneRefused all.all.items) }
    ensures channels { IfOk result
        (λ all. AreNumberedChannels (all_listed_channels all.all.items) all.channels.items) }
{
    let alloc = rt.alloc();
    refuse_many(alloc, recordings.len())?;
    let opened = fs::open(rt, setup);
    inputs.add_streams(rt)?;
    let files = open_recordings(rt, recordings, inputs)?;
    let settings = setup_in(rt, inputs, setup, opened, out, recordings.len())?;
    let runs = runs_in(alloc, &settings.recordings)?;
    let all = list_all(alloc, recordings, &files, &runs)?;
    refuse_first(&all)?;
    let channels = channels_in(alloc, &all)?.channels;
    Ok(Listed {
        files,
        settings,
        all,
        channels,
    })
}

/// How the command ends where OUT isn't written, of recordings that end there in the joined one.
fn ending_of<'a, F: PlacedRead>(
    alloc: Global,
    recordings: &'a [String],
    files: &[F],
    out: &'a str,
    ends: &[u64],
    end: WriteEnd<CommandEnding<'a>>,
) -> CommandEnding<'a>
    ensures { (refusal : WholeRefusal) → end.entry ≡ Refused refusal
        → IsJoinedRefusal ends.now refusal result }
{
    match end {
        WriteEnd::Refused(refusal) => CommandEnding::of_joined(refusal, ends),
        WriteEnd::Recording => CommandEnding::File(unread_of(alloc, recordings, files, out)),
        WriteEnd::Uncreated(ending) => ending,
        WriteEnd::Output => CommandEnding::File(out),
        WriteEnd::Memory => CommandEnding::Memory,
    }
}

/// How the command ends where a recording isn't joined.
fn ending_of_joining<'a>(names: &'a [String], fault: JoinFault) -> CommandEnding<'a>
    requires { fault.place < length names.now }
    ensures gap { (at : ℕ) → fault.end ≡ Packet Gap at
        → result ≡ JoinedRefusal (HasGap at) fault.place }
    ensures sum { (at : ℕ) → fault.end ≡ Packet Sum at → result ≡ InRun (HasSum at) fault.place }
{
    let JoinFault { end, place } = fault;
    let name = names[place].as_str();
    match end {
        JoinEnd::Reading(end) => CommandEnding::of_reading(name, end).with_place(place),
        JoinEnd::Packet {
            fault: MoveFault::Gap,
            at,
        } => CommandEnding::Joined {
            refusal: WholeRefusal::Gap { at },
            place,
        },
        JoinEnd::Packet {
            fault: MoveFault::Sum,
            at,
        } => CommandEnding::InRun {
            refusal: RunRefusal::Sum { at },
            place,
        },
        JoinEnd::Packet {
            fault: MoveFault::Memory,
            ..
        } => CommandEnding::Memory,
        // another packet stands there than before
        JoinEnd::Packet {
            fault: MoveFault::Other,
            ..
        } => CommandEnding::File(name),
        JoinEnd::Long => CommandEnding::File(name),
        JoinEnd::Memory => CommandEnding::Memory,
    }
}

/// Where each recording ends in the joined one.
fn ends_of<P: PacketsAt + Drop>(alloc: Global, joined: &Joined<P>) -> Result<Vec<u64>, AllocError>
    ensures { IfOk result (λ ends. ends.items ≡ map end_of_part joined.now.parts.items) }
{
    let mut ends = Vec::new(alloc);
    'parts: for part in joined.parts.as_slice() {
        ends.push(part.end)?;
    }
    Ok(ends)
}

/// The name of the first recording that isn't read to its end any more; of the first, if all are.
fn unread_of<'a, F: PlacedRead>(
    alloc: Global,
    recordings: &'a [String],
    files: &[F],
    out: &'a str,
) -> &'a str {
    'recordings: for (name, file) in recordings.iter().zip(files) {
        if listing_of(alloc, name.as_str(), file).is_err() {
            return name.as_str();
        }
    }
    match recordings {
        [first, ..] => first.as_str(),
        [] => out,
    }
}

/// Refuses more recordings than a file may be of, as `clap` refuses words.
fn refuse_many(alloc: Global, recordings: usize) -> Result<(), CommandEnding<'static>> {
    if recordings <= MAX_RECORDINGS {
        return Ok(());
    }
    Err(CommandEnding::Words(format!(in alloc;
        "error: too many values for '<RECORDING>...': a file is of at most {MAX_RECORDINGS} recordings\n\n\
        For more information, try '--help'.\n"
    )?))
}

/// The recordings' files, which are inputs.
fn open_recordings<'a, R: AllocGlobal + Files>(
    rt: &R,
    recordings: &'a [String],
    inputs: &mut Inputs,
) -> Result<Vec<R::File>, CommandEnding<'a>>
    ensures { IfOk result (λ files. length files.items ≡ length recordings.entry.now) }
{
    let mut files = Vec::new(rt.alloc());
    'recordings: for recording in recordings {
        let file = open_recording(rt, recording.as_str())?;
        inputs.add(&file)?;
        files.push(file)?;
    }
    Ok(files)
}
