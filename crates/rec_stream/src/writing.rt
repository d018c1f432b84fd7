//! A recording goes out as a stream.

ghost use Rattle.std.specs.Prelude.{ℕ, ◌≡◌, ◌<◌, ◌++◌, ◌^◌, List, [], Ok, IfErr, IfOk, MatchResult, length};
ghost use Rattle.std.specs.Io.KnownBytes.{Keeps};
ghost use Rattle.rec_reader.specs.Packets.{PacketData};
ghost use Rattle.rec_reader.specs.Readers.{HasRead, Tells, given_by};
ghost use Rattle.ch11_channels.specs.FreeIds.{AreAllTaken};
ghost use Rattle.rec_stream.specs.StreamChannels.{is_said};
ghost use Rattle.rec_stream.specs.StreamEnds.{NextFails, PacketsFail, StreamFails, WritesPackets, WritesStream, stream_facts};

use crate::channels::{said_ids, time_channel};
use crate::counts::StreamCounts;
use crate::end::{StreamEnd, StreamRefusal};
use crate::made::Made;
use crate::packet::put_packet;
use crate::sent::Sent;
use crate::stage::Stage;
use ch11_clock::Clock;
use rec_reader::{OwnedPacket, Reader};
use rec_whole::{FileNames, file_setup, setup_channels};
use std::alloc::Global;
use std::io::{Read, Write};

/// Writes the recording that a reader gives as a stream, packet by packet as they come. The channels of the stream are
/// those of the names. The output is flushed ahead of each packet, for which a read may wait, but not behind a fault.
///
/// # Errors
///
/// [`StreamEnd`]. What goes out of the packets ahead of the one at fault was written.
pub fn write_stream<R: Read, W: Write>(
    alloc: Global,
    reader: &mut Reader<R>,
    names: &FileNames<'_>,
    clock: &Clock,
    out: &mut W,
) -> Result<StreamCounts, StreamEnd>
    ensures writes { (recording : List ℕ) → HasRead recording [] reader.old → MatchResult result
        (WritesStream names.now clock.now recording (W.contents out.old) (W.contents out.new))
        (StreamFails names.now clock.now recording (W.contents out.old) (W.contents out.new)) }
    ensures unread { AreAllTaken (is_said names.now.channels.now) → reader.new ≡ reader.old }
{
    let Some(time_channel) = time_channel(names.channels) else {
        return Err(StreamEnd::Refused(StreamRefusal::Full));
    };
    let ids = said_ids(alloc, names.channels)?;
    let channels = setup_channels(alloc, &ids, names.channels)?;
    let setup = file_setup(names, time_channel, channels.as_slice(), false);
    let made = Made {
        setup: &setup,
        clock,
    };
    write_packets(alloc, reader, made, out)
}

/// Writes the packets of a stream that is made of this.
fn write_packets<R: Read, W: Write>(
    alloc: Global,
    reader: &mut Reader<R>,
    made: Made<'_>,
    out: &mut W,
) -> Result<StreamCounts, StreamEnd>
    requires number { length made.setup.now.channels.now < 2 ^ 16 }
    ensures { (recording : List ℕ) → HasRead recording [] reader.old → MatchResult result
        (WritesPackets (stream_facts made.entry.setup.now made.entry.clock.now) recording
        (W.contents out.old)
        (W.contents out.new))
        (PacketsFail (stream_facts made.entry.setup.now made.entry.clock.now) recording
        (W.contents out.old)
        (W.contents out.new)) }
{
    let mut sent = Sent::new(alloc)?;
    let mut stage = Stage::Waiting(Vec::new(alloc));
    'packets: for _ in 0..u64::MAX {
        let Some(packet) = next_packet(reader, out)? else {
            return Ok(sent.counts());
        };
        stage = put_packet(alloc, made, stage, packet, &mut sent, out)?;
    }
    // a recording of fewer than 2^64 bytes ends before
    Err(StreamEnd::Memory)
}

/// The next packet of the recording: `None` at its end. The read may wait, so the output is flushed before.
fn next_packet<R: Read, W: Write>(
    reader: &mut Reader<R>,
    out: &mut W,
) -> Result<Option<OwnedPacket>, StreamEnd>
    ensures kept { Keeps (W.contents out.old) (W.contents out.new) }
    ensures gives { IfOk result (λ taken. (recording : List ℕ) (packets : List PacketData)
        → HasRead recording packets reader.old
        → HasRead recording (packets ++ given_by (Ok taken)) reader.new
        × Tells recording packets (Ok taken)) }
    ensures fails { IfErr result (λ end. (recording : List ℕ) (packets : List PacketData)
        → HasRead recording packets reader.old → NextFails recording packets end) }
{
    if out.flush().is_err() {
        return Err(StreamEnd::Output);
    }
    match reader.next() {
        Ok(packet) => Ok(packet),
        Err(end) => Err(StreamEnd::Reading(end)),
    }
}
