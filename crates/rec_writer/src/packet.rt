//! The packet of a piece: its channel ID, its header, and how long it is.

ghost use Rattle.std.specs.Prelude.{ℕ, ◌≡◌, ◌<◌, ◌≤◌, ◌^◌, length};
ghost use Rattle.ch11_packet.specs.Profiles.Profile.{WithSum};
ghost use Rattle.ch11_packet.specs.PacketLen.{written_len};
ghost use Rattle.ch11_packet.specs.Views.{header_data};
ghost use Rattle.ch11_packet.specs.declared.header.TheConstants.{MAX_ETHERNET_PACKET_LEN};
ghost use Rattle.rec_lane.specs.Views.{piece_data};
ghost use Rattle.rec_writer.specs.Encoding.{piece_packet, packet_channel, packet_kind, packet_counter, piece_bytes, piece_header};

use ch11_packet::{
    COMPUTER_GENERATED_DATA, END_RECORD_LEN, ETHERNET_DATA, Header, INSN_LEN, PROGRAM_HEAD_LEN,
    RECORD_CHANNEL, packets_have_their_lengths, written_len,
};
use rec_lane::Piece;

/// The packet's flags: no secondary header, and a data checksum of 32 bits.
const FLAGS: u8 = 0x03;

/// The length of a piece's packet in bytes, with its header, its filler and its data checksum.
pub fn packet_len(piece: &Piece) -> u32
    ensures { (version sequence : ℕ)
        → length (piece_packet (piece_data piece.now) version sequence) ≡ result }
{
    packets_have_their_lengths();
    written_len(data_len(piece)) as u32
}

/// The length of a piece's body in bytes.
fn data_len(piece: &Piece) -> usize
    ensures len { result ≡ length (piece_bytes (piece_data piece.now)) }
    ensures fits { written_len WithSum result ≤ MAX_ETHERNET_PACKET_LEN }
{
    packets_have_their_lengths();
    match piece {
        Piece::Program(program) => PROGRAM_HEAD_LEN + INSN_LEN * program.program.len(),
        Piece::Data(data) => data.body.bytes().len(),
        Piece::End(_) => END_RECORD_LEN,
    }
}

/// The header of a piece's packet.
pub(crate) fn packet_header(piece: &Piece, version: u8, sequence: u8) -> Header
    ensures fields { header_data result
        ≡ piece_header (piece_data piece.now) version sequence }
    ensures fits { written_len WithSum (length (piece_bytes (piece_data piece.now)))
        ≤ MAX_ETHERNET_PACKET_LEN }
{
    let data_len = data_len(piece);
    match Header::new(
        packet_channel(piece),
        written_len(data_len) as u32,
        data_len as u32,
        version,
        sequence,
        FLAGS,
        packet_kind(piece),
        packet_counter(piece),
    ) {
        Some(header) => header,
        None => unreachable!(),
    }
}

/// The channel ID of a piece's packet.
pub(crate) fn packet_channel(piece: &Piece) -> u16
    ensures { result ≡ packet_channel (piece_data piece.now) }
{
    match piece {
        Piece::Data(data) => data.channel,
        Piece::Program(_) | Piece::End(_) => RECORD_CHANNEL,
    }
}

/// The data type of a piece's packet.
fn packet_kind(piece: &Piece) -> u8
    ensures { result ≡ packet_kind (piece_data piece.now) }
{
    match piece {
        Piece::Data(_) => ETHERNET_DATA,
        Piece::Program(_) | Piece::End(_) => COMPUTER_GENERATED_DATA,
    }
}

/// The relative time counter of a piece's packet.
fn packet_counter(piece: &Piece) -> u64
    ensures counter { result ≡ packet_counter (piece_data piece.now) }
    ensures fits { result < 2 ^ 48 }
{
    match piece {
        Piece::Program(program) => program.counter,
        Piece::Data(data) => data.body.counter(),
        Piece::End(end) => end.counter,
    }
}
