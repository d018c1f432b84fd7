//! The listing of a recording that is joined with others.

ghost use Rattle.std.specs.Prelude.{ℕ, ◌≡◌, ◌++◌, ◌∷◌, false, List, [], IfOk, IfErr, OnOk};
ghost use Rattle.rec_reader.specs.Packets.{PacketData};
ghost use Rattle.rec_reader.specs.Readers.{HasRead};
ghost use Rattle.rec_pieces.specs.PieceListings.{ListsPackets};
ghost use Rattle.rec_reader.specs.Views.{packet_data};
ghost use Rattle.rec_joined.specs.Moving.{moving_of};
ghost use Rattle.rec_joined.specs.MovedPackets.{IsListedFor, IsNotMoved, IsPlaced, IsUncountedAs, is_left_out};
ghost use Rattle.rec_joined.specs.JoinedPackets.{placed_packet};
ghost use Rattle.rec_joined.specs.JoinedListings.{FailsMoved, ListsMoved};

use crate::fault::MoveFault;
use crate::moves::Moves;
use crate::packet::moved_packet;
use ch11_packet::What;
use rec_pieces::PieceListing;
use rec_reader::{OwnedPacket, Packet, ReadEnd, Reader};
use std::alloc::{AllocError, Global};
use std::io::Read;

/// Why a recording isn't listed with others.
#[derive(Clone, Copy, Debug, PartialEq, Eq)]
pub enum JoinEnd {
    /// It isn't read to its end.
    Reading(ReadEnd),
    /// The packet at this place of it isn't moved.
    Packet { fault: MoveFault, at: u64 },
    /// The recordings have 2^64 bytes or more.
    Long,
    /// Out of memory.
    Memory,
}

impl From<ReadEnd> for JoinEnd {
    ghost use Rattle.std.specs.Prelude.{◌≡◌};
    ghost use Rattle.rec_joined.specs.declared.listing.JoinEnd.TheVariants.{Reading};

    ghost from_gives = { λ end join. join ≡ Reading end };

    fn from(end: ReadEnd) -> JoinEnd {
        JoinEnd::Reading(end)
    }
}

impl From<AllocError> for JoinEnd {
    ghost use Rattle.std.specs.Prelude.{◌≡◌};
    ghost use Rattle.rec_joined.specs.declared.listing.JoinEnd.TheVariants.{Memory};

    ghost from_gives = { λ _ join. join ≡ Memory };

    fn from(_error: AllocError) -> JoinEnd {
        JoinEnd::Memory
    }
}

/// Lists the packets of a recording behind those that are listed, each as it is in the file of several, but those that
/// the file doesn't have, and gives the place in the joined recording behind them; the first stands at `start`.
///
/// # Errors
///
/// [`JoinEnd`].
pub fn list_moved<R: Read>(
    alloc: Global,
    reader: &mut Reader<R>,
    listing: &mut PieceListing,
    start: u64,
    moves: &Moves,
) -> Result<u64, JoinEnd>
    ensures whole { IfOk result (λ end. (recording : List ℕ) (before : List PacketData)
        → HasRead recording [] reader.old → ListsPackets before listing.old
        → ListsMoved (moving_of moves.now) start recording before listing.new end) }
    ensures fault { IfErr result (λ end. (recording : List ℕ) → HasRead recording [] reader.old
        → FailsMoved (moving_of moves.now) recording end) }
{
    let mut end = start;
    'packets: for _ in 0..u64::MAX {
        let Some(owned) = reader.next()? else {
            return Ok(end);
        };
        let packet = owned.packet();
        let Some(next) = end.checked_add(packet.header.packet_len as u64) else {
            return Err(JoinEnd::Long);
        };
        match list_packet(alloc, &owned, listing, end, moves) {
            Ok(()) => {}
            Err(fault) => {
                return Err(JoinEnd::Packet {
                    fault,
                    at: packet.at,
                });
            }
        }
        end = next;
        reader.give_back(owned);
    }
    // a recording of fewer than 2^64 bytes ends before
    Err(JoinEnd::Long)
}

/// Lists a packet as it is in the file of several, where it stands at this place, unless the file doesn't have it.
fn list_packet(
    alloc: Global,
    owned: &OwnedPacket,
    listing: &mut PieceListing,
    at: u64,
    moves: &Moves,
) -> Result<(), MoveFault>
    ensures placed { OnOk result (IsPlaced (moving_of moves.now) owned.now) }
    ensures lists { OnOk result ((before : List PacketData) → ListsPackets before listing.old
        → ListsPackets (before ++ placed_packet (moving_of moves.now) at owned.now) listing.new) }
    ensures stays { IfErr result (λ _. is_left_out (moving_of moves.now) owned.now ≡ false) }
    ensures fault { IfErr result (IsNotMoved (moving_of moves.now) owned.now) }
{
    let packet = owned.packet();
    if moves.leaves_out(&packet) {
        return Ok(());
    }
    let moved = match moved_packet(alloc, owned, at, moves) {
        Ok(moved) => moved,
        Err(fault) => return Err(fault),
    };
    add_listed(alloc, listing, &moved, uncounted(&packet, moves))?;
    Ok(())
}

/// Lists a moved packet: as the end of a channel with this ID that was offered no frame, if there is one.
fn add_listed(
    alloc: Global,
    listing: &mut PieceListing,
    moved: &OwnedPacket,
    uncounted: Option<u16>,
) -> Result<(), AllocError>
    ensures { OnOk result ((before : List PacketData) (listed : PacketData)
        → IsListedFor moved.now uncounted listed
        → ListsPackets before listing.old → ListsPackets (before ++ listed ∷ []) listing.new) }
{
    let packet = moved.packet();
    match uncounted {
        Some(id) => listing.add_uncounted(alloc, packet.at, id),
        None => listing.add(alloc, &packet),
    }
}

/// The ID in the file of a channel whose end this is, if it was offered no frame.
fn uncounted(packet: &Packet<'_>, moves: &Moves) -> Option<u16>
    ensures { IsUncountedAs (moving_of moves.now) (packet_data packet.now).what result }
{
    match packet.what {
        What::End {
            channel,
            offered: 0,
            ..
        } => moves.id(channel),
        What::End { .. } | What::Frames(_) | What::Program { .. } | What::Other => None,
    }
}
