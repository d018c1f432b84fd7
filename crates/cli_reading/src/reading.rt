//! Recordings that commands read, packet by packet.

ghost use Rattle.std.specs.Prelude.{ℕ, ◌≡◌, ◌^◌, ◌<◌, List, [], length, Some, IfErr, IfOk, IfSome};
ghost use Rattle.rec_reader.specs.Readers.{HasRead};
ghost use Rattle.cli_reading.specs.Counts.{CountsRecording};
ghost use Rattle.cli_streams.specs.declared.ending.CommandEnding.TheVariants.{Memory};
ghost use Rattle.cli_streams.specs.Endings.{IfReading};
ghost use Rattle.cli_reading.specs.Written.{GivesNext, StopsBehind};

use ch11_packet::What;
use cli_streams::{CommandEnding, refuse_output_into};
use rec_reader::{OwnedPacket, Packet, Reader};
use std::alloc::Global;
use std::fs;
use std::fs::OpenFile;
use std::io::{BufReader, Read, Seek, SeekFrom};
use std::rt::Files;

/// How many bytes of a recording are read at once, but of a longer packet its rest, which is read to its
/// place and not copied.
const PIECE: usize = 16_384;

/// The packets that a pass over a recording met.
#[derive(Clone, Copy, PartialEq, Eq)]
pub(crate) struct Counts {
    /// Their number.
    pub packets: u64,
    /// The number of those of no kind that is read.
    pub others: u64,
    /// The place of what follows them.
    end: u64,
}

impl Counts {
    ghost use Rattle.std.specs.Prelude.{◌≡◌};
    ghost use Rattle.rec_reader.specs.Views.{packet_data};
    ghost use Rattle.cli_reading.specs.Counts.{counts_with};

    /// No packets.
    pub(crate) const NONE: Counts = Counts {
        packets: 0,
        others: 0,
        end: 0,
    };

    /// Counts a packet.
    pub(crate) fn count(&mut self, packet: &Packet<'_>)
        ensures { self.new ≡ counts_with self.old (packet_data packet.now) }
    {
        self.packets = self.packets.saturating_add(1);
        if packet.what == What::Other {
            self.others = self.others.saturating_add(1);
        }
        let len = u64::from(packet.header.packet_len);
        self.end = packet.at.saturating_add(len);
    }
}

/// The packets of a recording that is read to its end.
pub(crate) fn counts_of<'a, R: Read>(
    file: &'a str,
    reader: &mut Reader<R>,
) -> Result<Counts, CommandEnding<'a>>
    ensures all { IfOk result (λ counts. (recording : List ℕ) → HasRead recording [] reader.old
        → CountsRecording recording counts) }
{
    let mut counts = Counts::NONE;
    'packets: for _ in 0..u64::MAX {
        let Some(owned) = next_packet(file, reader)? else {
            return Ok(counts);
        };
        counts.count(&owned.packet());
        reader.give_back(owned);
    }
    // a recording of fewer than 2^64 bytes ends before
    Err(CommandEnding::Memory)
}

/// The next packet of a recording: `None` at its end.
pub(crate) fn next_packet<'a, R: Read>(
    file: &'a str,
    reader: &mut Reader<R>,
) -> Result<Option<OwnedPacket>, CommandEnding<'a>>
    ensures gives { IfOk result (λ taken. GivesNext taken reader.old reader.new) }
    ensures stops { IfErr result (λ ending. IfReading ending (λ end. StopsBehind end reader.old)) }
{
    match reader.next() {
        Ok(taken) => Ok(taken),
        Err(end) => Err(CommandEnding::of_reading(file, end)),
    }
}

/// The next packet of a recording that is read again. Where there is none, it isn't what it was, and
/// that is the file's fault.
pub(crate) fn packet_again<'a, R: Read>(
    file: &'a str,
    reader: &mut Reader<R>,
) -> Result<OwnedPacket, CommandEnding<'a>>
    ensures gives { IfOk result (λ packet. GivesNext (Some packet) reader.old reader.new) }
{
    match next_packet(file, reader) {
        Ok(Some(packet)) => Ok(packet),
        Ok(None) | Err(CommandEnding::Reading(_)) => Err(CommandEnding::File(file)),
        Err(ending) => Err(ending),
    }
}

/// The reader of a recording in a file.
pub(crate) fn reader_of<'a, R: AllocGlobal + Files>(
    rt: &R,
    file: &'a str,
) -> Result<Reader<BufReader<R::File>>, CommandEnding<'a>> {
    reader_over(rt.alloc(), open(rt, file)?)
}

/// The reader of the recording that an input gives.
pub(crate) fn reader_over<'a, I: Read + Drop>(
    alloc: Global,
    input: I,
) -> Result<Reader<BufReader<I>>, CommandEnding<'a>>
    ensures begins { IfOk result (λ reader. IfSome (I.remaining input) (λ recording.
        length recording < 2 ^ 64 → HasRead recording [] reader)) }
    ensures memory { IfErr result (λ ending. ending ≡ Memory) }
{
    let input = BufReader::with_capacity(alloc, PIECE, input).map_err(|_| CommandEnding::Memory)?;
    Ok(Reader::new(alloc, input))
}

/// A recording's file. It is refused if standard output is that file too.
pub(crate) fn open<'a, R: Files>(rt: &R, file: &'a str) -> Result<R::File, CommandEnding<'a>> {
    let recording = fs::open(rt, file).map_err(|error| CommandEnding::of_io(file, &error))?;
    refuse_output_into(rt, &recording)?;
    Ok(recording)
}

/// Whether an open file can be read twice, as a regular file can. A pipe can't.
pub(crate) fn is_read_twice<F: OpenFile>(recording: &F) -> bool {
    match recording.metadata() {
        Ok(found) => found.is_file(),
        Err(_) => false,
    }
}

/// Goes back to the first byte of a recording.
pub(crate) fn begin_again<'a, F: Seek>(
    file: &'a str,
    recording: &mut F,
) -> Result<(), CommandEnding<'a>> {
    recording
        .seek(SeekFrom::Start(0))
        .map_err(|_| CommandEnding::File(file))?;
    Ok(())
}
