//! A packet's way to an output.
ghost use Rattle.std.specs.Prelude.{◌≡◌, ◌+◌, ◌<◌, ◌^◌, ◌++◌, length, OnOk, IfErr};
ghost use Rattle.std.specs.Io.KnownBytes.{Appends};
ghost use Rattle.ch11_packet.specs.Sums.{body_sum};
ghost use Rattle.ch11_packet.specs.Profiles.Profile.{WithSum};
ghost use Rattle.ch11_packet.specs.PacketLen.{written_len};
ghost use Rattle.ch11_packet.specs.Packet.{packet_bytes};
ghost use Rattle.ch11_packet.specs.Outputs.{AppendsPart};
ghost use Rattle.ch11_packet.specs.Views.{header_data};

use crate::header::{HEADER_LEN, Header};
use crate::length::packet_len;
use std::io::Write;

/// How many parts of a packet go to its output one after the other: its header, its body, and what
/// stands behind the body.
pub const PACKET_PARTS: usize = 3;

/// Writes a packet with a data checksum: this header, this body, whose bytes have this sum, and behind
/// it the filler and the sum. At `Err` the output failed, or a write took no byte; it tells how many
/// bytes of the packet went out, fewer than all.
pub fn write_packet<W: Write>(
    out: &mut W,
    header: &Header,
    body: &[u8],
    sum: u32,
) -> Result<(), usize>
    requires fits { written_len WithSum (length body.now) < 2 ^ 64 }
    requires sum { sum ≡ body_sum body.now }
    ensures whole { OnOk result (Appends (W.contents out.old) (W.contents out.new)
        (packet_bytes WithSum (header_data header.now) body.now)) }
    ensures part { IfErr result (AppendsPart (W.contents out.old) (W.contents out.new)
        (packet_bytes WithSum (header_data header.now) body.now)) }
{
    let filler_len = packet_len(body.len()) - HEADER_LEN - body.len();
    let [s0, s1, s2, s3] = sum.to_le_bytes();
    let trailer = [0, 0, 0, s0, s1, s2, s3];
    write_parts(out, &header.encode(), body, &trailer[3 - filler_len..])
}

/// Writes a packet by its parts, one after the other: its header, its body, and what stands behind
/// the body. At `Err` the output failed, or a write took no byte; it tells how many bytes went out,
/// fewer than all.
pub fn write_parts<W: Write>(
    out: &mut W,
    header: &[u8],
    body: &[u8],
    trailer: &[u8],
) -> Result<(), usize>
    requires fits { length header.now + length body.now + length trailer.now < 2 ^ 64 }
    ensures whole { OnOk result (Appends (W.contents out.old) (W.contents out.new)
        (header.now ++ (body.now ++ trailer.now))) }
    ensures part { IfErr result (AppendsPart (W.contents out.old) (W.contents out.new)
        (header.now ++ (body.now ++ trailer.now))) }
{
    match write_bytes(out, header) {
        Ok(()) => {}
        Err(written) => return Err(written),
    }
    match write_bytes(out, body) {
        Ok(()) => {}
        Err(written) => return Err(header.len() + written),
    }
    match write_bytes(out, trailer) {
        Ok(()) => Ok(()),
        Err(written) => Err(header.len() + body.len() + written),
    }
}

/// Writes bytes until all went out or the output failed. At `Err` it tells how many went out.
#[tactic(auto, using(crate::proofs::Sending::more_taken))]
fn write_bytes<W: Write>(out: &mut W, bytes: &[u8]) -> Result<(), usize>
    ensures whole { OnOk result (Appends (W.contents out.old) (W.contents out.new) bytes.now) }
    ensures part { IfErr result (AppendsPart (W.contents out.old) (W.contents out.new) bytes.now) }
{
    let mut at = 0;
    'writes: while at < bytes.len() {
        match out.write(&bytes[at..]) {
            Ok(0) => return Err(at),
            Ok(written) => at += written,
            Err(_) => return Err(at),
        }
    }
    Ok(())
}
