//! What the command reads.

ghost use Rattle.std.specs.Prelude.{ℕ, ◌≡◌, ◌<◌, ◌^◌, [], List, IfOk, IfSome, length};
ghost use Rattle.rec_reader.specs.Readers.{HasRead};
ghost use Rattle.rec_pieces.specs.ListingEnds.{ListsRecording};

use cli_streams::{CommandEnding, Inputs, STREAM, bounded_text, refuse_output_into};
use rec_pieces::{FileAt, ListingEnd, PieceListing, PlacedRead, list_recording};
use rec_reader::Reader;
use rec_words::{FileSettings, setup_of};
use std::alloc::{AllocError, Global};
use std::fs::{self, OpenFile};
use std::io::{self, BufReader, Read};
use std::rt::Files;

/// How many bytes of a recording are read at once.
pub(crate) const PIECE: usize = 65_536;

/// How many bytes SETUP may have.
const MAX_SETUP: u64 = 16_777_216;

/// A recording's file, which is a regular one, since it is read twice. It is refused if standard output is
/// that file too.
pub(crate) fn open_recording<'a, R: AllocGlobal + Files>(
    rt: &R,
    recording: &'a str,
) -> Result<R::File, CommandEnding<'a>> {
    if recording == STREAM {
        return Err(CommandEnding::Words(format!(in rt.alloc();
            "error: invalid value '-' for '<RECORDING>': a recording is read twice, so it is a regular file\n\n\
            For more information, try '--help'.\n"
        )?));
    }
    // Opening a pipe would wait for its writer.
    match rt.metadata(recording) {
        Ok(found) if !found.is_file() => return Err(CommandEnding::File(recording)),
        Ok(_) | Err(_) => {}
    }
    let file = fs::open(rt, recording).map_err(|error| CommandEnding::of_io(recording, &error))?;
    match file.metadata() {
        Ok(found) if found.is_file() => {}
        Ok(_) | Err(_) => return Err(CommandEnding::File(recording)),
    }
    refuse_output_into(rt, &file)?;
    Ok(file)
}

/// What the SETUP that was opened says of so many recordings. An OUT that is one of the inputs, SETUP too, is refused
/// before it is read.
pub(crate) fn setup_in<'a, R: AllocGlobal + Files>(
    rt: &R,
    inputs: &mut Inputs,
    setup: &'a str,
    opened: io::Result<R::File>,
    out: &'a str,
    recordings: usize,
) -> Result<FileSettings, CommandEnding<'a>>
    ensures { IfOk result (λ settings. length settings.recordings.items ≡ recordings) }
{
    if let Ok(file) = &opened {
        inputs.add(file)?;
    }
    inputs.refuse_input(rt, out)?;
    settings_in(rt.alloc(), setup, opened, recordings)
}

/// What SETUP says of so many recordings.
pub(crate) fn settings_in<'a, F: Read + Drop>(
    alloc: Global,
    setup: &'a str,
    opened: io::Result<F>,
    recordings: usize,
) -> Result<FileSettings, CommandEnding<'a>>
    ensures { IfOk result (λ settings. length settings.recordings.items ≡ recordings) }
{
    let read = opened.and_then(|mut file| bounded_text(alloc, MAX_SETUP, &mut file));
    let text = read.map_err(|error| CommandEnding::of_io(setup, &error))?;
    Ok(setup_of(alloc, text.as_str(), recordings)?)
}

/// A reader of all packets of a file.
pub(crate) fn reader_of<'f, F: PlacedRead>(
    alloc: Global,
    file: &'f F,
) -> Result<Reader<BufReader<FileAt<'f, F>>>, AllocError>
    ensures { IfOk result (λ reader. IfSome (F.held file.entry.now) (λ bytes. length bytes < 2 ^ 64
        → HasRead bytes [] reader)) }
{
    match BufReader::with_capacity(alloc, PIECE, FileAt::new(file, 0)) {
        Ok(input) => Ok(Reader::new(alloc, input)),
        Err(_) => Err(AllocError),
    }
}

/// The packets of a recording that is read to its end, by channels.
pub(crate) fn listing_of<'a, F: PlacedRead>(
    alloc: Global,
    recording: &'a str,
    file: &F,
) -> Result<PieceListing, CommandEnding<'a>>
    ensures { IfOk result (λ listing. IfSome (F.held file.entry.now) (λ bytes.
        length bytes < 2 ^ 64 → ListsRecording bytes listing)) }
{
    let mut reader = reader_of(alloc, file)?;
    match list_recording(alloc, &mut reader) {
        Ok(listing) => Ok(listing),
        Err(ListingEnd::Reading(end)) => Err(CommandEnding::of_reading(recording, end)),
        Err(ListingEnd::Memory) => Err(CommandEnding::Memory),
    }
}
