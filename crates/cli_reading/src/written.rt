//! What a command writes for a recording, packet by packet, into a file.

ghost use Rattle.std.specs.Prelude.{ℕ, ◌≡◌, ◌^◌, ◌<◌, List, [], codes, length, IfOk, IfSome, OnOk};
ghost use Rattle.std.specs.Io.Buffered.{writer_buffer, writer_contents};
ghost use Rattle.rec_reader.specs.Readers.{HasRead};
ghost use Rattle.cli_reading.specs.Written.{IsCounted, IsWritten, TakesWritten};

use crate::reading::{
    Counts, begin_again, counts_of, is_read_twice, next_packet, open, packet_again, reader_over,
};
use cli_streams::{
    CommandEnding, Inputs, LockFile, STREAM, buffered_output, refuse_output_into_input, write_held,
};
use rec_reader::{Packet, Reader};
use std::alloc::Global;
use std::io::{BufWriter, Read, Write};
use std::rt::Files;

/// What is written for each packet, and what is counted meanwhile.
pub(crate) trait PerPacket {
    ghost use Rattle.std.specs.Prelude.{ℕ, ◌≡◌, List, true};
    ghost use Rattle.std.specs.Io.KnownBytes.{Appends};
    ghost use Rattle.rec_reader.specs.Packets.{PacketData};
    ghost use Rattle.rec_reader.specs.Views.{packet_data};

    // What is written for a packet.
    ghost bytes_for: { Self → PacketData → List ℕ };

    // What is counted of a packet, from one state to the next.
    ghost counts: { Self → PacketData → Self → Type 0 };

    /// Writes what is written for a packet: whether the output took it.
    fn write_packet<W: Write>(&mut self, packet: &Packet<'_>, out: &mut W) -> bool
        ensures written { result ≡ true → Appends (W.contents out.old) (W.contents out.new)
            (bytes_for self.old (packet_data packet.now)) }
        ensures counted { result ≡ true → counts self.old (packet_data packet.now) self.new }
        ensures same { result ≡ true → bytes_for self.new ≡ bytes_for self.old };
}

/// Writes the file OUT for the recording FILE, and forces it to its disk. OUT is created only if the
/// recording is read to its end: a file is read once to see that it is, and once more to write, with
/// one packet at a time; of what can't be read twice, what is written is held in memory. An OUT that
/// is the recording itself is refused before anything is read; one that can't be created, after.
pub(crate) fn write_recording<'a, R: AllocGlobal + Files, I: Read, P: PerPacket>(
    rt: &R,
    file: &'a str,
    out: &'a str,
    input: &mut I,
    written: &mut P,
) -> Result<(), CommandEnding<'a>>
where
    R::File: LockFile,
    ensures counted { file.now ≡ codes "-" → OnOk result (IfSome (I.remaining input.old)
        (λ recording. length recording < 2 ^ 64
        → IsCounted P.counts recording written.old written.new)) }
{
    let mut inputs = Inputs::new(rt.alloc());
    inputs.add_streams(rt)?;
    if file != STREAM {
        return write_file(rt, file, &mut inputs, out, written);
    }
    refuse_output_into_input(rt)?;
    inputs.add_standard_input(rt)?;
    inputs.refuse_input(rt, out)?;
    write_once(rt, file, &inputs, out, input, written)
}

/// Writes for a recording in a file.
fn write_file<'a, R: AllocGlobal + Files, P: PerPacket>(
    rt: &R,
    file: &'a str,
    inputs: &mut Inputs,
    out: &'a str,
    written: &mut P,
) -> Result<(), CommandEnding<'a>>
where
    R::File: LockFile,
{
    let alloc = rt.alloc();
    let mut recording = open(rt, file)?;
    inputs.add(&recording)?;
    inputs.refuse_input(rt, out)?;
    if !is_read_twice(&recording) {
        return write_once(rt, file, inputs, out, &mut recording, written);
    }
    let judged = counts_of(file, &mut reader_over(alloc, &mut recording)?)?;
    begin_again(file, &mut recording)?;
    let mut reader = reader_over(alloc, &mut recording)?;
    let mut output = buffered_output(rt, inputs, out)?;
    write_again(file, &mut reader, judged, out, &mut output, written)?;
    output.get_ref().keep(out)
}

/// Writes for a recording that was judged before. If its counts aren't what they were, that is the
/// file's fault; then some of what is written may be there.
fn write_again<'a, I: Read, W: Write + Drop, P: PerPacket>(
    file: &'a str,
    reader: &mut Reader<I>,
    judged: Counts,
    out: &'a str,
    output: &mut BufWriter<W>,
    written: &mut P,
) -> Result<(), CommandEnding<'a>>
    ensures written { OnOk result ((recording : List ℕ) → HasRead recording [] reader.old
        → TakesWritten (P.bytes_for written.old) P.counts judged recording written.old written.new
        (writer_contents W.contents output.old) (writer_contents W.contents output.new)) }
    ensures flushed { OnOk result (writer_buffer output.new ≡ []) }
{
    let mut counts = Counts::NONE;
    'packets: for _ in 0..judged.packets {
        let owned = packet_again(file, reader)?;
        let packet = owned.packet();
        counts.count(&packet);
        if !written.write_packet(&packet, output) {
            return Err(CommandEnding::File(out));
        }
        reader.give_back(owned);
    }
    if counts != judged {
        return Err(CommandEnding::File(file));
    }
    output.flush().map_err(|_| CommandEnding::File(out))
}

/// Writes for a recording that can be read only once: what is written is held until the recording is
/// read to its end.
fn write_once<'a, R: AllocGlobal + Files, I: Read, P: PerPacket>(
    rt: &R,
    file: &'a str,
    inputs: &Inputs,
    out: &'a str,
    input: &mut I,
    written: &mut P,
) -> Result<(), CommandEnding<'a>>
where
    R::File: LockFile,
    ensures counted { OnOk result (IfSome (I.remaining input.old) (λ recording.
        length recording < 2 ^ 64 → IsCounted P.counts recording written.old written.new)) }
{
    let held = held_for(rt.alloc(), file, input, written)?;
    write_held(rt, inputs, out, held.as_slice())
}

/// What is written for the recording that an input gives. It is read to its end.
fn held_for<'a, I: Read + Drop, P: PerPacket>(
    alloc: Global,
    file: &'a str,
    input: I,
    written: &mut P,
) -> Result<Vec<u8>, CommandEnding<'a>>
    ensures written { IfOk result (λ held. IfSome (I.remaining input) (λ recording.
        length recording < 2 ^ 64 → IsWritten (P.bytes_for written.old) P.counts recording
        held.items written.old written.new)) }
{
    let mut reader = reader_over(alloc, input)?;
    let mut held = Vec::new(alloc);
    'packets: for _ in 0..u64::MAX {
        let Some(owned) = next_packet(file, &mut reader)? else {
            return Ok(held);
        };
        // memory takes all bytes, if there is some
        if !written.write_packet(&owned.packet(), &mut held) {
            return Err(CommandEnding::Memory);
        }
        reader.give_back(owned);
    }
    // a recording of fewer than 2^64 bytes ends before
    Err(CommandEnding::Memory)
}
