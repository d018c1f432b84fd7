//! A packet of the recording goes into a stream.

ghost use Rattle.std.specs.Prelude.{ℕ, ◌≡◌, ◌++◌, ◌∷◌, ◌<◌, ◌^◌, [], List, Option, MatchResult, length};
ghost use Rattle.rec_reader.specs.Packets.{PacketData};
ghost use Rattle.rec_stream.specs.StreamBlocks.{StreamFacts};
ghost use Rattle.rec_stream.specs.StreamEnds.{PacketFails};
ghost use Rattle.rec_stream.specs.Sending.{IsMade, StreamStands};

use crate::channels::is_said;
use crate::end::{StreamEnd, StreamRefusal};
use crate::made::Made;
use crate::named::named_in;
use crate::sent::Sent;
use crate::stage::{Stage, put_named};
use rec_pieces::{PieceEntry, in_hand};
use rec_reader::OwnedPacket;
use std::alloc::Global;
use std::io::Write;

/// Puts the next packet of a recording into a stream, and gives how far that has come. One of another kind is left
/// out and counted.
pub(crate) fn put_packet<'a, W: Write>(
    alloc: Global,
    made: Made<'a>,
    stage: Stage<'a>,
    packet: OwnedPacket,
    sent: &mut Sent,
    out: &mut W,
) -> Result<Stage<'a>, StreamEnd>
    requires number { length made.setup.now.channels.now < 2 ^ 16 }
    ensures { (facts : StreamFacts) (before : Option (List ℕ)) (packets : List PacketData)
        → IsMade facts made.entry
        → StreamStands facts before (W.contents out.old) sent.old stage.entry packets
        → MatchResult result
        (λ new. StreamStands facts before (W.contents out.new) sent.new new (packets ++ packet
        ∷ []))
        (PacketFails facts packets packet before (W.contents out.new)) }
{
    let Some(named) = named_in(&packet.packet()) else {
        sent.note_other();
        return Ok(stage);
    };
    if !is_said(made.setup.channels, named.origin.channel) {
        return Err(StreamEnd::Refused(StreamRefusal::Other { at: named.at }));
    }
    let entry = PieceEntry {
        at: named.at,
        kind: named.kind,
    };
    let hand = in_hand(alloc, entry, packet)?;
    put_named(alloc, made, stage, named, hand, sent, out)
}
