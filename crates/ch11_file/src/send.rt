//! A packet of a file goes out.

ghost use Rattle.std.specs.Prelude.{◌≡◌, ◌≤◌, ◌<◌, ◌^◌, IfErr, IfOk, OnOk, length, take, ℕ};
ghost use Rattle.std.specs.Io.KnownBytes.{Appends};
ghost use Rattle.ch11_packet.specs.declared.header.TheConstants.{MAX_ETHERNET_PACKET_LEN};
ghost use Rattle.ch11_packet.specs.Header.{IsHeader};
ghost use Rattle.ch11_packet.specs.Views.{header_data};
ghost use Rattle.ch11_packet.specs.Packet.{packet_bytes};
ghost use Rattle.ch11_packet.specs.PacketLen.{written_len};
ghost use Rattle.ch11_packet.specs.Profiles.Profile.{WithSum};
ghost use Rattle.ch11_file.specs.declared.kind.BlockKind.TheVariants.{Frames};
ghost use Rattle.ch11_file.specs.FileBlocks.{head_with};

use crate::end::FileFault;
use crate::kind::{BlockHead, DATA_TYPE_VERSION, PACKET_FLAGS};
use ch11_packet::{Header, body_sum, write_packet, written_len};
use std::io::Write;

/// The header of a packet with this body.
pub fn header_of(head: BlockHead, sequence: u8, body: &[u8]) -> Header
    requires counter { head.counter < 2 ^ 48 }
    requires fits { written_len WithSum (length body.now) < 2 ^ 32 }
    requires frames { head.kind ≡ Frames
        → written_len WithSum (length body.now) ≤ MAX_ETHERNET_PACKET_LEN }
    ensures fields { header_data result
        ≡ head_with head.channel sequence head.counter head.kind body.now }
    ensures valid { IsHeader (head_with head.channel sequence head.counter head.kind body.now) }
{
    let header = Header::new(
        head.channel,
        written_len(body.len()) as u32,
        body.len() as u32,
        DATA_TYPE_VERSION,
        sequence,
        PACKET_FLAGS,
        head.kind.data_type(),
        head.counter,
    );
    match header {
        Some(header) => header,
        None => unreachable!(),
    }
}

/// Writes a packet with this header and this body. At `Err` a part of it went out.
pub fn send_packet<W: Write>(out: &mut W, header: &Header, body: &[u8]) -> Result<(), FileFault>
    requires { written_len WithSum (length body.now) < 2 ^ 32 }
    ensures whole { OnOk result (Appends (W.contents out.old) (W.contents out.new)
        (packet_bytes WithSum (header_data header.now) body.now)) }
    ensures part { IfErr result (λ _. (n : ℕ) × Appends (W.contents out.old) (W.contents out.new)
        (take n (packet_bytes WithSum (header_data header.now) body.now))) }
{
    match write_packet(out, header, body, body_sum(body)) {
        Ok(()) => Ok(()),
        Err(_) => Err(FileFault::Output),
    }
}
