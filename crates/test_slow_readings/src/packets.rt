//! A slow reading of a recording's bytes: each piece as its packet, number by number.

use crate::pieces::{Holds, ReadPiece, add_number};
use bpf_insn::Insn;
use std::alloc::{AllocError, Global};

/// The number that each packet begins with.
const SYNC: u64 = 0xeb25;

/// The bytes of a packet before its body.
const HEADER: usize = 24;

/// The bytes of a packet's data checksum.
const CHECKSUM: usize = 4;

/// The flags of a packet with a data checksum of 32 bits.
const CHECKED: u64 = 3;

/// The data type of a packet of frames.
const ETHERNET: u64 = 0x68;

/// The data type of a packet with a record.
const COMPUTER_GENERATED: u64 = 0;

/// The letters that tell a record from other data.
const TAG: [u8; 4] = *b"CBPR";

/// The bytes of a recording of these pieces.
pub(crate) fn output_of(
    alloc: Global,
    pieces: &[ReadPiece],
    version: u8,
) -> Result<Vec<u8>, AllocError> {
    let mut output = Vec::new(alloc);
    for (at, piece) in pieces.iter().enumerate() {
        let earlier = pieces.iter().take(at);
        let same = earlier.filter(|earlier| packet_channel(earlier) == packet_channel(piece));
        let packet = packet_of(alloc, piece, version, same.count() % 256)?;
        output.extend_from_slice(packet.as_slice())?;
    }
    Ok(output)
}

/// The bytes of a piece's packet: its header, its body, zeros up to a multiple of 4 bytes, and four
/// bytes of the sum of its body.
pub(crate) fn packet_of(
    alloc: Global,
    piece: &ReadPiece,
    version: u8,
    sequence: usize,
) -> Result<Vec<u8>, AllocError> {
    let body = body_of(alloc, piece)?;
    let filled = HEADER
        .saturating_add(body.len())
        .div_ceil(4)
        .saturating_mul(4);
    let len = filled.saturating_add(CHECKSUM);
    let mut packet = Vec::new(alloc);
    add_number(&mut packet, SYNC, 2)?;
    add_number(&mut packet, packet_channel(piece), 2)?;
    add_number(&mut packet, len as u64, 4)?;
    add_number(&mut packet, body.len() as u64, 4)?;
    add_number(&mut packet, u64::from(version), 1)?;
    add_number(&mut packet, sequence as u64, 1)?;
    add_number(&mut packet, CHECKED, 1)?;
    add_number(&mut packet, data_type(piece), 1)?;
    add_number(&mut packet, piece.counter, 6)?;
    let sum = sum_of_words(packet.as_slice());
    add_number(&mut packet, sum, 2)?;
    packet.extend_from_slice(body.as_slice())?;
    for _ in packet.len()..filled {
        packet.push(0)?;
    }
    add_number(&mut packet, data_sum(body.as_slice()), 4)?;
    Ok(packet)
}

/// The channel of a piece's packet: records are of channel 0.
fn packet_channel(piece: &ReadPiece) -> u64 {
    match piece.holds {
        Holds::Data { .. } => u64::from(piece.channel),
        Holds::Program { .. } | Holds::End { .. } => 0,
    }
}

/// The data type of a piece's packet.
fn data_type(piece: &ReadPiece) -> u64 {
    match piece.holds {
        Holds::Data { .. } => ETHERNET,
        Holds::Program { .. } | Holds::End { .. } => COMPUTER_GENERATED,
    }
}

/// The sum of the words that these bytes are, each with its lowest byte first.
fn sum_of_words(bytes: &[u8]) -> u64 {
    let mut sum = 0u64;
    for (at, byte) in bytes.iter().enumerate() {
        let weight = if at % 2 == 0 { 1 } else { 256 };
        sum = sum.saturating_add(u64::from(*byte) * weight);
    }
    sum
}

/// The sum of a data checksum, modulo 2^32: each byte counts by its place in its word of four bytes.
pub(crate) fn data_sum(bytes: &[u8]) -> u64 {
    let mut sum = 0u64;
    for (at, byte) in bytes.iter().enumerate() {
        let weight: u64 = match at % 4 {
            0 => 1,
            1 => 256,
            2 => 65_536,
            _ => 16_777_216,
        };
        sum = sum.wrapping_add(u64::from(*byte).wrapping_mul(weight));
    }
    sum % 4_294_967_296
}

/// The body of a piece's packet.
fn body_of(alloc: Global, piece: &ReadPiece) -> Result<Vec<u8>, AllocError> {
    match &piece.holds {
        Holds::Data { body, .. } => body.clone(),
        Holds::Program {
            version,
            first,
            insns,
        } => {
            let mut body = record_of(alloc, 1, piece.channel)?;
            add_number(&mut body, *version as u64, 4)?;
            add_number(&mut body, *first as u64, 8)?;
            add_number(&mut body, insns.len() as u64, 2)?;
            add_number(&mut body, 0, 2)?;
            for insn in insns {
                add_insn(&mut body, *insn)?;
            }
            Ok(body)
        }
        Holds::End { offered, kept } => {
            let mut body = record_of(alloc, 2, piece.channel)?;
            add_number(&mut body, *offered as u64, 8)?;
            add_number(&mut body, *kept as u64, 8)?;
            Ok(body)
        }
    }
}

/// What each record begins with: a zero word, the tag, the record's kind and its channel.
fn record_of(alloc: Global, kind: u64, channel: u16) -> Result<Vec<u8>, AllocError> {
    let mut body = Vec::new(alloc);
    add_number(&mut body, 0, 4)?;
    body.extend_from_slice(&TAG)?;
    add_number(&mut body, kind, 2)?;
    add_number(&mut body, u64::from(channel), 2)?;
    Ok(body)
}

/// Adds an instruction: its code, its two distances and its number.
fn add_insn(body: &mut Vec<u8>, insn: Insn) -> Result<(), AllocError> {
    add_number(body, u64::from(insn.code), 2)?;
    add_number(body, u64::from(insn.jt), 1)?;
    add_number(body, u64::from(insn.jf), 1)?;
    add_number(body, u64::from(insn.k), 4)
}
