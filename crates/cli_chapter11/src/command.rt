//! The command.

ghost use Rattle.std.specs.Prelude.{◌≡◌, if◌then◌else◌, OnOk};
ghost use Rattle.std.specs.Io.KnownBytes.{Appends};
ghost use Rattle.cli_streams.specs.declared.ending.CommandEnding.TheVariants.{Joined, Whole};
ghost use Rattle.cli_chapter11.specs.declared.writing.WriteEnd.TheVariants.{Refused};
ghost use Rattle.cli_chapter11.specs.CountsLines.{counts_line};

use crate::files::{listing_of, open_recording, setup_in};
use crate::uncreated::Uncreated;
use crate::whole_file::WholeFile;
use crate::writing::{WriteEnd, judged_then_written};
use ch11_file::FileCounts;
use cli_streams::{CommandEnding, Inputs, LockFile, OutputFile, buffered_output, print_line};
use rec_pieces::PlacedRead;
use rec_whole::WholeRefusal;
use std::alloc::Global;
use std::fs;
use std::io::{BufWriter, Write};
use std::rt::Files;

/// `chapter11 RECORDING SETUP OUT`: writes the whole Chapter 11 file of a recording into OUT, forces it to
/// its disk, and prints how many packets of each kind it has. It is written once into nothing, to see that
/// it can be, and then into OUT, which isn't created before. An OUT that is one of the inputs is refused
/// before they are read.
pub fn write_chapter11<'a, R: AllocGlobal + Files, O: Write>(
    rt: &R,
    recording: &'a str,
    setup: &'a str,
    out: &'a str,
    output: &mut O,
) -> Result<(), CommandEnding<'a>>
where
    R::File: LockFile + PlacedRead,
{
    let alloc = rt.alloc();
    let file = open_recording(rt, recording)?;
    let mut inputs = Inputs::new(alloc);
    inputs.add_streams(rt)?;
    inputs.add(&file)?;
    let settings = setup_in(rt, &mut inputs, setup, fs::open(rt, setup), out, 1)?;
    let listing = listing_of(alloc, recording, &file)?;
    let mut whole = WholeFile {
        file: &file,
        listing: &listing,
        general: &settings.general,
        recording: &settings.recordings[0],
    };
    let mut named = NamedOut {
        rt,
        inputs: &inputs,
        out,
    };
    let (counts, written) = match judged_then_written(alloc, &mut whole, &mut named) {
        Ok(written) => written,
        Err(end) => return Err(ending_of(end, recording, out, settings.has_tables)),
    };
    written.get_ref().keep(out)?;
    print_counts(alloc, output, counts)
}

/// How the command ends where OUT isn't written. A refusal has the place of the recording too, where SETUP has a
/// table for it.
fn ending_of<'a>(
    end: WriteEnd<CommandEnding<'a>>,
    recording: &'a str,
    out: &'a str,
    has_tables: bool,
) -> CommandEnding<'a>
    ensures { (refusal : WholeRefusal) → end.entry ≡ Refused refusal
        → result ≡ (if has_tables then Joined refusal 0 else Whole refusal) }
{
    match end {
        WriteEnd::Refused(refusal) if has_tables => CommandEnding::Whole(refusal).with_place(0),
        WriteEnd::Refused(refusal) => CommandEnding::Whole(refusal),
        WriteEnd::Recording => CommandEnding::File(recording),
        WriteEnd::Uncreated(ending) => ending,
        WriteEnd::Output => CommandEnding::File(out),
        WriteEnd::Memory => CommandEnding::Memory,
    }
}

/// The OUT that the words name.
#[derive(Drop)]
pub(crate) struct NamedOut<'a, 'i, R> {
    pub rt: &'i R,
    /// The files that it must not be.
    pub inputs: &'i Inputs,
    pub out: &'a str,
}

impl<'a, 'i, R: AllocGlobal + Files> Uncreated for NamedOut<'a, 'i, R>
where
    R::File: LockFile,
{
    ghost use Rattle.std.specs.Prelude.{None};

    type File = OutputFile<R::File>;

    type Fault = CommandEnding<'a>;

    ghost held = { λ _. None };

    fn create(&mut self) -> Result<BufWriter<OutputFile<R::File>>, CommandEnding<'a>> {
        buffered_output(self.rt, self.inputs, self.out)
    }
}

/// Prints how many packets of each kind a file has, and how many bytes.
pub(crate) fn print_counts<O: Write>(
    alloc: Global,
    output: &mut O,
    counts: FileCounts,
) -> Result<(), CommandEnding<'static>>
    ensures { OnOk result (Appends (O.contents output.old) (O.contents output.new)
        (counts_line counts)) }
{
    let FileCounts {
        times,
        packets,
        records,
        index,
        bytes,
    } = counts;
    let mut line = Vec::new(alloc);
    let built = writeln!(
        &mut line,
        "times {times} packets {packets} records {records} index {index} bytes {bytes}"
    );
    print_line(output, &mut line, built)
}
