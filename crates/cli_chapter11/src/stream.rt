//! The command that writes a recording as a stream.

ghost use Rattle.std.specs.Prelude.{ℕ, List, [], MatchResult, OnOk};
ghost use Rattle.std.specs.Io.KnownBytes.{Appends};
ghost use Rattle.rec_reader.specs.Readers.{HasRead};
ghost use Rattle.cli_chapter11.specs.CountsLines.{stream_line};
ghost use Rattle.cli_chapter11.specs.SetupStreams.{StopsBySetup, StreamsBySetup};

use crate::channels::{attributes_of, channels_of};
use crate::files::{PIECE, settings_in};
use crate::whole_file::names_of;
use ch11_clock::Clock;
use cli_streams::{CommandEnding, STREAM, print_line, refuse_output_into_input};
use rec_reader::Reader;
use rec_stream::{StreamCounts, StreamEnd, write_stream};
use rec_words::{GeneralSettings, RecordingSettings};
use std::alloc::Global;
use std::fs;
use std::io::{BufReader, BufWriter, Read, Write};
use std::rt::Files;

/// `chapter11 --stream SETUP`: writes the recording on standard input on standard output, as packets of a whole
/// Chapter 11 file, each as soon as it can go. How many there were is printed on `errors`.
pub fn stream_chapter11<'a, R: AllocGlobal + Files, I: Read, O: Write, E: Write>(
    rt: &R,
    setup: &'a str,
    input: &mut I,
    output: &mut O,
    errors: &mut E,
) -> Result<(), CommandEnding<'a>> {
    refuse_output_into_input(rt)?;
    let alloc = rt.alloc();
    let settings = settings_in(alloc, setup, fs::open(rt, setup), 1)?;
    let input = BufReader::with_capacity(alloc, PIECE, input).map_err(|_| CommandEnding::Memory)?;
    let mut reader = Reader::new(alloc, input);
    let mut out = BufWriter::with_capacity(alloc, PIECE, output).map_err(
        |_| CommandEnding::Memory,
    )?;
    let counts = match stream_by(
        alloc,
        &settings.general,
        &settings.recordings[0],
        &mut reader,
        &mut out,
    ) {
        Ok(counts) => counts,
        Err(end) if out.flush().is_ok() => return Err(ending_of(end)),
        Err(_) => return Err(CommandEnding::File(STREAM)),
    };
    print_counts(alloc, errors, counts)
}

/// Writes the recording that a reader gives as a stream, by what SETUP says.
fn stream_by<R: Read, W: Write>(
    alloc: Global,
    general: &GeneralSettings,
    recording: &RecordingSettings,
    reader: &mut Reader<R>,
    out: &mut W,
) -> Result<StreamCounts, StreamEnd>
    ensures { (bytes : List ℕ) → HasRead bytes [] reader.old → MatchResult result
        (StreamsBySetup general.now recording.now bytes (W.contents out.old) (W.contents out.new))
        (StopsBySetup general.now recording.now bytes (W.contents out.old) (W.contents out.new)) }
{
    let channels = channels_of(alloc, recording.channels.as_slice())?;
    let attributes = attributes_of(alloc, general.attributes.as_slice())?;
    let clock = Clock::new(alloc, recording.origins.as_slice())?;
    let names = names_of(general, channels.as_slice(), attributes.as_slice());
    write_stream(alloc, reader, &names, &clock, out)
}

/// How the command ends where the stream ended early.
fn ending_of(end: StreamEnd) -> CommandEnding<'static> {
    match end {
        StreamEnd::Refused(refusal) => CommandEnding::Stream(refusal),
        StreamEnd::Reading(end) => CommandEnding::of_reading(STREAM, end),
        StreamEnd::Output => CommandEnding::File(STREAM),
        StreamEnd::Memory => CommandEnding::Memory,
    }
}

/// Prints how many packets of each kind went out, how many of them late, and how many of other kinds were left out.
fn print_counts<E: Write>(
    alloc: Global,
    errors: &mut E,
    counts: StreamCounts,
) -> Result<(), CommandEnding<'static>>
    ensures { OnOk result (Appends (E.contents errors.old) (E.contents errors.new)
        (stream_line counts)) }
{
    let StreamCounts {
        packets,
        records,
        times,
        late,
        other,
    } = counts;
    let mut line = Vec::new(alloc);
    let built = writeln!(
        &mut line,
        "packets {packets} records {records} times {times} late {late} other {other}"
    );
    print_line(errors, &mut line, built)
}
