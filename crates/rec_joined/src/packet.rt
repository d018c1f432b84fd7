//! A packet with the counters and the channel ID of a file.

ghost use Rattle.std.specs.Prelude.{◌≡◌, ◌<◌, ◌≤◌, ◌^◌, ◌++◌, drop, IfOk, IfErr, OnOk, IsTrue};
ghost use Rattle.ch11_packet.specs.Classes.{data_in};
ghost use Rattle.ch11_packet.specs.Views.{header_data};
ghost use Rattle.rec_reader.specs.Views.{packet_data};
ghost use Rattle.rec_pieces.specs.declared.entry.PieceKind.TheVariants.{Record};
ghost use Rattle.rec_pieces.specs.Entries.{IsThere, PacketThere};
ghost use Rattle.rec_joined.specs.Moving.{moving_of};
ghost use Rattle.rec_joined.specs.MovedRecords.{FitRecords};
ghost use Rattle.rec_joined.specs.MovedPackets.{HaveMovable, IsMovable, IsNamedAs, IsNotMoved, moved_data, moved_header, moved_packet, moved_there};

use crate::bodies::{add_body, add_end, add_program};
use crate::fault::MoveFault;
use crate::moves::Moves;
use crate::records::{end_numbers, program_numbers};
use ch11_packet::{ETHERNET_DATA, Header, What, classify};
use rec_pieces::{PieceKind, names};
use rec_reader::{OwnedPacket, Packet};
use std::alloc::Global;

/// The greatest counter.
const LAST_COUNTER: u64 = (1 << 48) - 1;

/// A packet with the counters, the channel ID and the numbers of records that it has in a file of several recordings,
/// and with no data checksum, at this place of the joined recording.
///
/// # Errors
///
/// [`MoveFault`].
pub fn moved_packet(
    alloc: Global,
    packet: &OwnedPacket,
    at: u64,
    moves: &Moves,
) -> Result<OwnedPacket, MoveFault>
    ensures moved { IfOk result
        (λ moved. moved ≡ moved_packet (moving_of moves.now) at packet.now) }
    ensures there { IfOk result (λ moved. (there : PacketThere) → IsThere there packet.now
        → IsThere (moved_there (moving_of moves.now) there) moved) }
    ensures movable { IfOk result (λ _. IsMovable (moving_of moves.now) packet.now) }
    ensures fault { IfErr result (IsNotMoved (moving_of moves.now) packet.now) }
{
    let packet = packet.packet();
    let Some((channel, kind)) = names(&packet) else {
        return Err(MoveFault::Other);
    };
    let Some(id) = moves.id(channel) else {
        return Err(MoveFault::Other);
    };
    if lacks_counter(kind, &packet.header, moves) {
        return Err(MoveFault::Gap);
    }
    let body = moved_body(alloc, &packet, id, moves)?;
    let header = moved_header(&packet.header, id, moves);
    match classify(&header, body.as_slice()) {
        Ok(what) => Ok(OwnedPacket::of(at, header, body, what)),
        Err(_) => unreachable!(),
    }
}

/// Whether the counter of a packet's header counts, and has none in the file.
fn lacks_counter(kind: PieceKind, header: &Header, moves: &Moves) -> bool
    ensures lacks { IsTrue result
        → (kind ≡ Record) × (2 ^ 48 ≤ (moving_of moves.now).counters header.now.counter) }
    ensures has { ¬ IsTrue result
        → kind ≡ Record → (moving_of moves.now).counters header.now.counter < 2 ^ 48 }
{
    match kind {
        PieceKind::Record => moves.counter(header.counter).is_none(),
        PieceKind::Frames | PieceKind::Uncounted => false,
    }
}

/// The bytes after the header of a packet of a channel that has this ID in the file.
fn moved_body(
    alloc: Global,
    packet: &Packet<'_>,
    id: u16,
    moves: &Moves,
) -> Result<Vec<u8>, MoveFault>
    requires { IsNamedAs (moving_of moves.now) (packet_data packet.now) id }
    ensures body { IfOk result (λ body. body.items
        ≡ moved_data (moving_of moves.now) packet.now.header.kind
        (data_in (header_data packet.now.header) packet.now.body.now)
        ++ drop packet.now.header.data_len packet.now.body.now) }
    ensures fit { OnOk result (HaveMovable (moving_of moves.now) (packet_data packet.now)) }
    ensures numbers { OnOk result
        (FitRecords (moving_of moves.now).records (packet_data packet.now).what) }
    ensures fault { IfErr result (IsNotMoved (moving_of moves.now) (packet_data packet.now)) }
{
    let mut body = Vec::with_capacity(alloc, packet.body.len())?;
    add_held(&mut body, packet, id, moves)?;
    let len = packet.data().len();
    body.extend_from_slice(&packet.body[len..])?;
    Ok(body)
}

/// Adds the data of a packet of a channel that has this ID in the file.
fn add_held(out: &mut Vec<u8>, packet: &Packet<'_>, id: u16, moves: &Moves) -> Result<(), MoveFault>
    requires { IsNamedAs (moving_of moves.now) (packet_data packet.now) id }
    ensures added { OnOk result (out.new.items ≡ out.old.items
        ++ moved_data (moving_of moves.now) packet.now.header.kind
        (data_in (header_data packet.now.header) packet.now.body.now)) }
    ensures fit { OnOk result (HaveMovable (moving_of moves.now) (packet_data packet.now)) }
    ensures numbers { OnOk result
        (FitRecords (moving_of moves.now).records (packet_data packet.now).what) }
    ensures fault { IfErr result (IsNotMoved (moving_of moves.now) (packet_data packet.now)) }
{
    match packet.what {
        What::Frames(count) => add_body(out, count, packet.data(), moves),
        What::Program {
            channel,
            version,
            first,
            ..
        } => {
            let records = moves.records_of(channel);
            let Some((version, first)) = program_numbers(records, version, first) else {
                return Err(MoveFault::Sum);
            };
            add_program(out, id, version, first, packet.data())?;
            Ok(())
        }
        What::End {
            channel,
            offered,
            kept,
        } => {
            let records = moves.records_of(channel);
            let Some((offered, kept)) = end_numbers(records, offered, kept) else {
                return Err(MoveFault::Sum);
            };
            add_end(out, id, offered, kept, packet.data())?;
            Ok(())
        }
        What::Other => Err(MoveFault::Other),
    }
}

/// The header of a packet of a channel that has this ID in the file.
fn moved_header(header: &Header, id: u16, moves: &Moves) -> Header
    ensures { (header.now.kind ≡ ETHERNET_DATA → id ≡ (moving_of moves.now).ids header.now.channel)
        → header_data result ≡ moved_header (moving_of moves.now) (header_data header.now) }
{
    let channel = if header.kind == ETHERNET_DATA {
        id
    } else {
        header.channel
    };
    let counter = moves.counter(header.counter).unwrap_or(LAST_COUNTER);
    Header {
        channel,
        packet_len: header.packet_len,
        data_len: header.data_len,
        version: header.version,
        sequence: header.sequence,
        flags: 0,
        kind: header.kind,
        counter,
    }
}
