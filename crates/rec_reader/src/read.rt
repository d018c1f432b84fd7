//! How a recording is read.

ghost use Rattle.std.specs.Prelude.{◌≡◌, ◌≢◌, ◌<◌, length, None, Some, IfOk, IfErr, OnErr};
ghost use Rattle.ch11_packet.specs.Views.{header_data};
ghost use Rattle.rec_reader.specs.declared.fault.ReadFaultKind.{ReadFaultKind};
ghost use Rattle.rec_reader.specs.Packets.{PacketData, PacketStandsFirst, HasPacket, Takes, packets_len};
ghost use Rattle.rec_reader.specs.Reading.{HasHeader, HasReadFault, Reads, GoesOn};
ghost use Rattle.rec_reader.specs.Views.{packet_data, packets_data};

use crate::fault::{ReadFault, ReadFaultKind};
use crate::packet::Packet;
use crate::recording::Recording;
use ch11_packet::{HEADER_LEN, Header, classify};
use std::alloc::Global;

/// The packets of a recording's bytes, or the first fault with the packets before it. For each
/// packet it is looked for in this order: fewer bytes left than a header has; the header's sync
/// pattern, checksum and lengths; fewer bytes left than the packet's length; its data checksum of 32
/// bits, if it has one; its body; memory.
///
/// What isn't judged may be anything: a header's data type version, sequence number, relative time
/// counter and flag bits 5 to 2, the filler after the data, and the data checksum of a packet that is
/// neither frames nor a record. The memory that it takes is for a list of the packets that were read;
/// their bytes are not copied.
pub fn read_recording(alloc: Global, bytes: &[u8]) -> Result<Recording<'_>, ReadFault<'_>>
    // At Ok.
    ensures read { IfOk result (λ recording. Reads bytes.now recording None) }

    // At a fault.
    ensures fault { IfErr result (λ fault. fault.kind ≢ ReadFaultKind.Memory
        → Reads bytes.now fault.before (Some fault.kind)) }
    ensures memory { IfErr result (λ fault. fault.kind ≡ ReadFaultKind.Memory
        → GoesOn bytes.now fault.before) }
    ensures place { IfErr result (λ fault. fault.at ≡ packets_len fault.before) }
{
    let mut packets = Vec::new(alloc);
    let mut rest = bytes;
    'packets: while !rest.is_empty() {
        let at = (bytes.len() - rest.len()) as u64;
        match take_packet(at, rest, &mut packets) {
            Ok(after) => rest = after,
            Err(kind) => {
                let before = Recording { packets };
                return Err(ReadFault { kind, at, before });
            }
        }
    }
    Ok(Recording { packets })
}

/// Takes the packet that stands first, and gives what follows it.
fn take_packet<'a>(
    at: u64,
    bytes: &'a [u8],
    packets: &mut Vec<Packet<'a>>,
) -> Result<&'a [u8], ReadFaultKind>
    requires { 0 < length bytes.now }
    ensures taken { IfOk result (λ more. Takes at bytes.now more.now
        (packets_data packets.old.items) (packets_data packets.new.items)) }
    ensures fault { IfErr result (λ kind. kind ≢ ReadFaultKind.Memory
        → HasReadFault bytes.now kind) }
    ensures memory { IfErr result (λ kind. kind ≡ ReadFaultKind.Memory
        → HasPacket at bytes.now) }
    ensures kept { OnErr result (packets.new.items ≡ packets.old.items) }
{
    let (packet, more) = read_packet(at, bytes)?;
    packets.push(packet)?;
    Ok(more)
}

/// The packet that stands first in these bytes, of which the first has this place in the recording,
/// and what follows the packet; or its first fault.
pub(crate) fn read_packet(at: u64, bytes: &[u8]) -> Result<(Packet<'_>, &[u8]), ReadFaultKind>
    requires { 0 < length bytes.now }
    ensures packet { IfOk result (λ split.
        PacketStandsFirst at (packet_data split.0) bytes.now split.1.now) }
    ensures shorter { IfOk result (λ split. length split.1.now < length bytes.now) }
    ensures fault { IfErr result (HasReadFault bytes.now) }
{
    let (header, behind) = split_header(bytes)?;
    let len = header.packet_len as usize - HEADER_LEN;
    let Some((body, more)) = behind.split_at_checked(len) else {
        return Err(ReadFaultKind::Truncated);
    };
    let what = classify(&header, body)?;
    let packet = Packet {
        at,
        header,
        body,
        what,
    };
    Ok((packet, more))
}

/// The header that stands first, and what follows it.
#[tactic(auto, using(crate::proofs::Splitting::first_header))]
fn split_header(bytes: &[u8]) -> Result<(Header, &[u8]), ReadFaultKind>
    requires { 0 < length bytes.now }
    ensures header { IfOk result (λ split.
        HasHeader (header_data split.0) bytes.now split.1.now) }
    ensures fault { IfErr result (HasReadFault bytes.now) }
{
    let Some((head, behind)) = bytes.split_first_chunk::<HEADER_LEN>() else {
        return Err(ReadFaultKind::Truncated);
    };
    let header = Header::decode(head)?;
    Ok((header, behind))
}
