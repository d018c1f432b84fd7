//! Old recordings, brought up to date: each packet of frames or of a record is given a data checksum.

ghost use Rattle.std.specs.Prelude.{◌≡◌, ◌≤◌, ◌%◌, true, OnOk, OnErr, IfOk, IfErr};
ghost use Rattle.std.specs.Io.KnownBytes.{Appends};
ghost use Rattle.ch11_packet.specs.declared.header.TheConstants.{MAX_ETHERNET_PACKET_LEN};
ghost use Rattle.ch11_packet.specs.Profiles.Profile.{WithSum};
ghost use Rattle.ch11_packet.specs.PacketLen.{written_len};
ghost use Rattle.ch11_packet.specs.Outputs.{AppendsPart};
ghost use Rattle.ch11_packet.specs.Views.{header_data};
ghost use Rattle.rec_reader.specs.Upgrades.{CountsUpgraded, FailsAtPacket, FailsIn, checked_header, counted_with, is_old, spelling_of, upgrade_bytes, upgraded, with_checksum};
ghost use Rattle.rec_reader.specs.Views.{packet_data};

use crate::packet::Packet;
use crate::recording::Recording;
use ch11_packet::{
    Header, MAX_ETHERNET_PACKET_LEN, What, body_sum, write_packet, write_parts, written_len,
};
use std::io::Write;
use thiserror::Error;

/// The bits of a packet's flags that report a data checksum of 32 bits where both are set (IRIG 106-17
/// Chapter 11, packet flags).
const CHECKSUM_FLAGS: u8 = 3;

/// What became of packets in an upgrade.
#[derive(Clone, Copy, Debug, PartialEq, Eq)]
pub struct Upgraded {
    /// How many were given a data checksum.
    pub packets: u64,
    /// How many were copied as they are.
    pub copied: u64,
}

/// Why packets weren't upgraded to their end.
#[derive(Clone, Copy, Debug, Drop, PartialEq, Eq, Error)]
pub enum UpgradeFault {
    /// A write of the output failed, or took no byte.
    #[error("Output")]
    Output {
        /// The packets that went out whole.
        whole: u64,
        /// The bytes of the next one that went out, fewer than all.
        bytes: u64,
    },
}

/// Writes the upgrade of a recording to an output. A packet of frames, a program or an end that has
/// no data checksum is given one of 32 bits, unless it would be longer than
/// [`MAX_ETHERNET_PACKET_LEN`] with it; it has the fewest bytes of filler then, of value 0, and all
/// else that it says stays. Each other packet is copied byte for byte. It takes no memory, and
/// doesn't flush the output.
///
/// # Errors
///
/// [`UpgradeFault::Output`] if the output failed. Then it has the beginning of the upgrade.
pub fn upgrade<W: Write>(recording: &Recording<'_>, out: &mut W) -> Result<Upgraded, UpgradeFault>
    ensures whole { OnOk result (Appends (W.contents out.old) (W.contents out.new)
        (upgrade_bytes recording.now)) }
    ensures counts { IfOk result (CountsUpgraded recording.now) }
    ensures part { IfErr result (FailsIn recording.now
        (W.contents out.old) (W.contents out.new)) }
{
    let mut counts = Upgraded {
        packets: 0,
        copied: 0,
    };
    'packets: for packet in recording.packets() {
        upgrade_packet(packet, out, &mut counts)?;
    }
    Ok(counts)
}

/// Writes to an output what a packet is in an upgrade, as [`upgrade`] says, and counts it. It takes
/// no memory, and doesn't flush the output.
///
/// # Errors
///
/// [`UpgradeFault::Output`] if the output failed, with the number of the packets that were counted
/// before. Then the packet isn't counted.
pub fn upgrade_packet<W: Write>(
    packet: &Packet<'_>,
    out: &mut W,
    counts: &mut Upgraded,
) -> Result<(), UpgradeFault>
    // At Ok.
    ensures whole { OnOk result (Appends (W.contents out.old) (W.contents out.new)
        (spelling_of (upgraded (packet_data packet.now)))) }
    ensures counted { OnOk result
        (counts.new ≡ counted_with counts.old (packet_data packet.now)) }

    // At a fault.
    ensures part { IfErr result (FailsAtPacket (packet_data packet.now) counts.old
        (W.contents out.old) (W.contents out.new)) }
    ensures kept { OnErr result (counts.new ≡ counts.old) }
{
    let Upgraded { packets, copied } = *counts;
    match write_upgraded(packet, out) {
        Ok(true) => {
            counts.packets = packets.saturating_add(1);
            Ok(())
        }
        Ok(false) => {
            counts.copied = copied.saturating_add(1);
            Ok(())
        }
        Err(written) => Err(UpgradeFault::Output {
            whole: packets.saturating_add(copied),
            bytes: written as u64,
        }),
    }
}

/// Writes to an output what a packet is in an upgrade, and tells whether it was given a data
/// checksum. At `Err` it tells how many bytes went out.
fn write_upgraded<W: Write>(packet: &Packet<'_>, out: &mut W) -> Result<bool, usize>
    ensures whole { OnOk result (Appends (W.contents out.old) (W.contents out.new)
        (spelling_of (upgraded (packet_data packet.now)))) }
    ensures old { IfOk result (λ old. old ≡ is_old (packet_data packet.now)) }
    ensures part { IfErr result (AppendsPart (W.contents out.old) (W.contents out.new)
        (spelling_of (upgraded (packet_data packet.now)))) }
{
    let old = is_old(packet);
    let written = if old {
        write_checked(packet, out)
    } else {
        write_parts(out, &packet.header.encode(), packet.body, &[])
    };
    match written {
        Ok(()) => Ok(old),
        Err(bytes) => Err(bytes),
    }
}

/// Writes an old packet with a data checksum. At `Err` it tells how many bytes went out.
fn write_checked<W: Write>(packet: &Packet<'_>, out: &mut W) -> Result<(), usize>
    requires { is_old (packet_data packet.now) ≡ true }
    ensures whole { OnOk result (Appends (W.contents out.old) (W.contents out.new)
        (spelling_of (with_checksum (packet_data packet.now)))) }
    ensures part { IfErr result (AppendsPart (W.contents out.old) (W.contents out.new)
        (spelling_of (with_checksum (packet_data packet.now)))) }
{
    let data = packet.data();
    let header = checked_header(&packet.header);
    write_packet(out, &header, data, body_sum(data))
}

/// The header of an old packet with a data checksum.
#[tactic(auto, using(crate::proofs::Upgrading::set_both))]
fn checked_header(header: &Header) -> Header
    requires flags { header.now.flags % 4 ≡ 0 }
    requires fits { written_len WithSum header.now.data_len ≤ MAX_ETHERNET_PACKET_LEN }
    ensures { header_data result ≡ checked_header (header_data header.now) }
{
    let len = written_len(header.data_len as usize);
    match Header::new(
        header.channel,
        len as u32,
        header.data_len,
        header.version,
        header.sequence,
        header.flags | CHECKSUM_FLAGS,
        header.kind,
        header.counter,
    ) {
        Some(checked) => checked,
        None => unreachable!(),
    }
}

/// Whether a packet is given a data checksum in an upgrade.
fn is_old(packet: &Packet<'_>) -> bool
    ensures { result ≡ is_old (packet_data packet.now) }
{
    let len = written_len(packet.header.data_len as usize);
    !matches!(packet.what, What::Other)
        && packet.header.flags & CHECKSUM_FLAGS == 0
        && len <= MAX_ETHERNET_PACKET_LEN as usize
}
