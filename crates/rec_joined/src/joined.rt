//! The packets of several recordings, read at their places in the joined one.

ghost use Rattle.std.specs.Prelude.{ℕ, ◌≡◌, ◌-◌, ◌∷◌, ◌++◌, List, [], None, Some, IfOk, IfErr, OnOk, IfSome};
ghost use Rattle.rec_reader.specs.Reading.{Reads};
ghost use Rattle.rec_reader.specs.Readers.{HasRead};
ghost use Rattle.rec_reader.specs.Packets.{PacketData};
ghost use Rattle.rec_pieces.specs.Entries.{AreThere, IsThere, PacketPlaces};
ghost use Rattle.rec_joined.specs.declared.joined.Part.{Part};
ghost use Rattle.rec_joined.specs.Moving.{moving_of};
ghost use Rattle.rec_joined.specs.MovedPackets.{moved_there};
ghost use Rattle.rec_joined.specs.JoinedPackets.{AreParts, IsJoined, JoinsRecording, joined_packets};
ghost use Rattle.rec_joined.specs.JoinedListings.{FailsMoved};

use crate::fault::MoveFault;
use crate::listing::{JoinEnd, list_moved};
use crate::moves::Moves;
use crate::packet::moved_packet;
use ch11_merge::PieceFault;
use rec_pieces::{PacketsAt, PieceListing};
use rec_reader::{OwnedPacket, Reader};
use std::alloc::Global;
use std::io::Read;

/// A recording that is joined with others.
#[derive(Debug, Drop)]
pub struct Part<P> {
    /// Its packets.
    pub packets: P,
    /// The place of its first byte in the joined recording.
    pub start: u64,
    /// The place behind its last.
    pub end: u64,
    /// What its counters and its channels become.
    pub moves: Moves,
}

/// Recordings that are joined, with the listing of their packets.
#[derive(Debug, Drop)]
pub struct Joined<P> {
    /// The recordings, each behind the one before it.
    pub parts: Vec<Part<P>>,
    /// The packets of the joined recording.
    pub listing: PieceListing,
    /// The place behind its last byte.
    pub end: u64,
}

impl<P: PacketsAt + Drop> Joined<P> {
    /// No recording.
    pub fn new(alloc: Global) -> Joined<P>
        ensures none { IsJoined P.there result [] }
        ensures empty { result.parts.items ≡ [] }
    {
        Joined {
            parts: Vec::new(alloc),
            listing: PieceListing::new(alloc),
            end: 0,
        }
    }

    /// Joins a recording, of which a reader gives all packets, behind the others.
    ///
    /// # Errors
    ///
    /// [`JoinEnd`]; then the listing may have some of its packets.
    pub fn add<R: Read>(
        &mut self,
        alloc: Global,
        packets: P,
        reader: &mut Reader<R>,
        moves: Moves,
    ) -> Result<(), JoinEnd>
        ensures joined { OnOk result
            ((read : List (List PacketData)) (recording : List ℕ) (places : PacketPlaces)
            → IsJoined P.there self.old read → HasRead recording [] reader.old
            → P.there packets ≡ Some places
            → ((own : List PacketData) → Reads recording own None → AreThere places own)
            → JoinsRecording P.there read recording (moving_of moves) self.new) }
        ensures pushed { OnOk result ((part : Part P)
            × (self.new.parts.items ≡ self.old.parts.items ++ part ∷ [])
            × (part.packets ≡ packets) × (part.moves ≡ moves)) }
        ensures fault { IfErr result (λ end. (recording : List ℕ) → HasRead recording [] reader.old
            → FailsMoved (moving_of moves) recording end) }
    {
        let start = self.end;
        let end = list_moved(alloc, reader, &mut self.listing, start, &moves)?;
        let part = Part {
            packets,
            start,
            end,
            moves,
        };
        match self.parts.push(part) {
            Ok(()) => {}
            Err(_) => return Err(JoinEnd::Memory),
        }
        self.end = end;
        Ok(())
    }
}

/// The packets of several recordings, as those of one.
#[derive(Debug, Drop)]
pub struct JoinedPackets<'j, P> {
    parts: &'j [Part<P>],
}

impl<'j, P: PacketsAt> JoinedPackets<'j, P> {
    /// Those of these recordings, each behind the one before it.
    pub fn new(parts: &'j [Part<P>]) -> JoinedPackets<'j, P>
        ensures { (read : List (List PacketData)) → AreParts P.there 0 parts.entry.now read
            → (places : PacketPlaces)
            × (⟦<JoinedPackets<'j, P> as PacketsAt>⟧.there result ≡ Some places)
            × AreThere places (joined_packets parts.entry.now read) }
    {
        JoinedPackets { parts }
    }
}

impl<'j, P: PacketsAt> PacketsAt for JoinedPackets<'j, P> {
    ghost use Rattle.rec_joined.specs.JoinedPackets.{joined_places};

    ghost there = { λ j. joined_places P.there j.parts.now };

    fn packet_at(&self, alloc: Global, at: u64) -> Result<OwnedPacket, PieceFault> {
        'parts: for part in self.parts {
            if at < part.end {
                return packet_of(alloc, part, at);
            }
        }
        Err(PieceFault::Device)
    }
}

/// The packet of a recording that stands at this place of the joined one.
fn packet_of<P: PacketsAt>(
    alloc: Global,
    part: &Part<P>,
    at: u64,
) -> Result<OwnedPacket, PieceFault>
    ensures { IfOk result (λ packet. IfSome (P.there part.now.packets) (λ places.
        IsThere (moved_there (moving_of part.now.moves) (places (at - part.now.start))) packet)) }
{
    let Some(own) = at.checked_sub(part.start) else {
        return Err(PieceFault::Device);
    };
    let packet = part.packets.packet_at(alloc, own)?;
    match moved_packet(alloc, &packet, at, &part.moves) {
        Ok(moved) => Ok(moved),
        Err(MoveFault::Memory) => Err(PieceFault::Memory),
        // another packet stands there than before
        Err(MoveFault::Gap | MoveFault::Sum | MoveFault::Other) => Err(PieceFault::Device),
    }
}
