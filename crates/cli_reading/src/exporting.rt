//! The command that exports a recording.

ghost use Rattle.std.specs.Prelude.{ℕ, ◌≡◌, ◌≢◌, ◌≤◌, ◌^◌, ◌<◌, List, [], codes, length, IfErr, IfOk, IfSome, MatchOption, OnOk};
ghost use Rattle.std.specs.Io.Buffered.{writer_buffer, writer_contents};
ghost use Rattle.rec_reader.specs.Readers.{HasRead};
ghost use Rattle.rec_export.specs.Exported.{IsExported, StopsExport};
ghost use Rattle.cli_streams.specs.Digits.{SaysNumber};
ghost use Rattle.cli_streams.specs.Endings.{IfReading};
ghost use Rattle.cli_reading.specs.Exports.{export_ending, LeavesExport, RefusesOrigin, NamesOrigin, StreamsExport};

use crate::reading::{next_packet, open, reader_over};
use cli_streams::{
    CommandEnding, Inputs, LockFile, STREAM, buffered_output, print_line, refuse_output_into_input,
};
use rec_export::{ExportEnd, Exporter, export_recording};
use rec_reader::Reader;
use std::alloc::Global;
use std::io::{BufWriter, Read, Write};
use std::rt::Files;

/// The greatest origin, in seconds: pcapng has 63 bits for it.
const MAX_ORIGIN: u64 = 9_223_372_036_854_775_807;

/// `export FILE OUT [ORIGIN]`: writes the frames of all channels into the pcapng file OUT, in one pass
/// with one packet at a time, and forces it to its disk. Of a recording that isn't read to its end OUT
/// has the frames before. An OUT that is the recording itself is refused before anything is read.
pub fn export_frames<'a, R: AllocGlobal + Files, I: Read, O: Write>(
    rt: &R,
    file: &'a str,
    out: &'a str,
    origin: Option<&'a str>,
    input: &mut I,
    output: &mut O,
) -> Result<(), CommandEnding<'a>>
where
    R::File: LockFile,
    ensures streamed { file.now ≡ codes "-" → out.now ≡ codes "-"
        → StreamsExport origin.entry (I.remaining input.old)
        (O.contents output.old) (O.contents output.new) result }
    ensures unwritten { out.now ≢ codes "-" → output.new ≡ output.old }
{
    let origin = origin_in(rt.alloc(), origin)?;
    let mut inputs = Inputs::new(rt.alloc());
    inputs.add_streams(rt)?;
    if file == STREAM {
        refuse_output_into_input(rt)?;
        inputs.add_standard_input(rt)?;
        return export_into(rt, file, &inputs, out, origin, input, output);
    }
    let mut recording = open(rt, file)?;
    inputs.add(&recording)?;
    export_into(rt, file, &inputs, out, origin, &mut recording, output)
}

/// Exports the recording that an input gives into a file, or to standard output.
fn export_into<'a, R: AllocGlobal + Files, I: Read + Drop, O: Write>(
    rt: &R,
    file: &'a str,
    inputs: &Inputs,
    out: &'a str,
    origin: Option<u64>,
    input: I,
    output: &mut O,
) -> Result<(), CommandEnding<'a>>
where
    R::File: LockFile,
    ensures whole { out.now ≡ codes "-" → OnOk result (IfSome (I.remaining input) (λ recording.
        length recording < 2 ^ 64 → IsExported origin recording
        (O.contents output.old) (O.contents output.new))) }
    ensures part { out.now ≡ codes "-" → IfErr result (λ ending. IfReading ending (λ end.
        IfSome (I.remaining input) (λ recording. length recording < 2 ^ 64
        → StopsExport origin recording end (O.contents output.old) (O.contents output.new)))) }
    ensures unwritten { out.now ≢ codes "-" → output.new ≡ output.old }
{
    let alloc = rt.alloc();
    if out == STREAM {
        let mut reader = reader_over(alloc, input)?;
        return export_streamed(alloc, file, &mut reader, origin, output);
    }
    inputs.refuse_input(rt, out)?;
    let mut output = buffered_output(rt, inputs, out)?;
    export(alloc, file, input, origin, out, &mut output)?;
    output.get_ref().keep(out)
}

/// Exports a recording to standard output, where the blocks of each packet go out as one write.
fn export_streamed<'a, I: Read, O: Write>(
    alloc: Global,
    file: &'a str,
    reader: &mut Reader<I>,
    origin: Option<u64>,
    output: &mut O,
) -> Result<(), CommandEnding<'a>>
    ensures whole { OnOk result ((recording : List ℕ) → HasRead recording [] reader.old
        → IsExported origin recording (O.contents output.old) (O.contents output.new)) }
    ensures part { IfErr result (λ ending. IfReading ending (λ end.
        (recording : List ℕ) → HasRead recording [] reader.old
        → StopsExport origin recording end (O.contents output.old) (O.contents output.new))) }
{
    let mut exporter = Exporter::new(alloc, origin);
    let mut blocks = Vec::new(alloc);
    // memory takes all bytes, if there is some
    exporter
        .begin(&mut blocks)
        .map_err(|_| CommandEnding::Memory)?;
    'packets: for _ in 0..u64::MAX {
        print_line(output, &mut blocks, Ok(()))?;
        let Some(owned) = next_packet(file, reader)? else {
            return Ok(());
        };
        exporter
            .export_packet(&owned.packet(), &mut blocks)
            .map_err(|_| CommandEnding::Memory)?;
        reader.give_back(owned);
    }
    // a recording of fewer than 2^64 bytes ends before
    Err(CommandEnding::Memory)
}

/// Exports the recording that an input gives to an output, and flushes it, also behind a fault of the
/// recording.
fn export<'a, I: Read + Drop, W: Write + Drop>(
    alloc: Global,
    file: &'a str,
    input: I,
    origin: Option<u64>,
    out: &'a str,
    output: &mut BufWriter<W>,
) -> Result<(), CommandEnding<'a>>
    ensures exported { OnOk result (IfSome (I.remaining input) (λ recording.
        length recording < 2 ^ 64 → IsExported origin recording
        (writer_contents W.contents output.old) (writer_contents W.contents output.new))) }
    ensures part { IfErr result (λ ending. IfSome (I.remaining input) (λ recording.
        length recording < 2 ^ 64 → LeavesExport origin recording
        (writer_contents W.contents output.old) (writer_contents W.contents output.new) ending)) }
    ensures flushed { OnOk result (writer_buffer output.new ≡ []) }
    ensures flushed_part { IfErr result (λ ending. IfReading ending (λ end.
        writer_buffer output.new ≡ [])) }
{
    let mut reader = reader_over(alloc, input)?;
    let exported = export_recording(alloc, &mut reader, origin, output);
    if output.flush().is_err() {
        return Err(CommandEnding::File(out));
    }
    match exported {
        Ok(()) => Ok(()),
        Err(end) => Err(ending_of(file, out, end)),
    }
}

/// How the command ends where an export ended so.
fn ending_of<'a>(file: &'a str, out: &'a str, end: ExportEnd) -> CommandEnding<'a>
    ensures { result ≡ export_ending file.entry out.entry end }
{
    match end {
        ExportEnd::Reading(end) => CommandEnding::of_reading(file, end),
        ExportEnd::Output => CommandEnding::File(out),
        ExportEnd::Memory => CommandEnding::Memory,
    }
}

/// The origin that a word names: a number of seconds, in decimal digits alone.
fn origin_in<'a>(alloc: Global, word: Option<&str>) -> Result<Option<u64>, CommandEnding<'a>>
    ensures origin { IfOk result (λ origin. NamesOrigin word.entry origin) }
    ensures refused { IfErr result (λ ending. RefusesOrigin word.entry ending) }
{
    let Some(word) = word else {
        return Ok(None);
    };
    match seconds_in(word) {
        Some(seconds) => Ok(Some(seconds)),
        None => Err(CommandEnding::Words(format!(in alloc;
            "error: invalid value '{word}' for '[ORIGIN]': an origin is a number of seconds from 0 to 9223372036854775807\n\n\
            For more information, try '--help'.\n"
        )?)),
    }
}

/// A number of seconds, in decimal digits alone.
fn seconds_in(word: &str) -> Option<u64>
    ensures { MatchOption result
        ((number : ℕ) → SaysNumber word.now number → 2 ^ 63 ≤ number)
        (λ seconds. SaysNumber word.now seconds × (seconds < 2 ^ 63)) }
{
    if word.starts_with('+') {
        return None;
    }
    match word.parse() {
        Ok(seconds) if seconds <= MAX_ORIGIN => Some(seconds),
        _ => None,
    }
}
