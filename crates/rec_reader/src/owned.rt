//! A packet that owns its bytes.

use crate::packet::Packet;
use ch11_packet::{Header, What};
use std::marker::Model;

/// A packet that owns its bytes, as a [`Reader`](crate::Reader) gives it. Several can be held at
/// once.
#[derive(Debug, Drop)]
pub struct OwnedPacket {
    /// The place of its first byte in the recording, counted from 0.
    at: u64,
    header: Header,
    /// All bytes after the header, the trailing filler and the data checksum among them.
    body: Vec<u8>,
    what: What,
}

impl Model for OwnedPacket {
    ghost use Rattle.std.specs.Prelude.{◌≡◌, ◌+◌, length};
    ghost use Rattle.ch11_packet.specs.declared.header.TheConstants.{HEADER_LEN};
    ghost use Rattle.ch11_packet.specs.Classes.{Holds};
    ghost use Rattle.ch11_packet.specs.Views.{header_data};
    ghost use Rattle.rec_reader.specs.Packets.{PacketData, packet_of};

    ghost Value = { PacketData };

    ghost view = { λ p. packet_of p.at (header_data p.header) p.body.items p.what };

    ghost invariant = { λ p. (HEADER_LEN + length p.body.items ≡ p.header.packet_len)
        × Holds (header_data p.header) p.body.items p.what };
}

impl OwnedPacket {
    ghost use Rattle.std.specs.Prelude.{◌≡◌, ◌+◌, length};
    ghost use Rattle.ch11_packet.specs.declared.header.TheConstants.{HEADER_LEN};
    ghost use Rattle.ch11_packet.specs.Classes.{Holds};
    ghost use Rattle.ch11_packet.specs.Views.{header_data};
    ghost use Rattle.rec_reader.specs.Packets.{packet_of};
    ghost use Rattle.rec_reader.specs.Views.{packet_data};

    /// The packet of these parts: its place in the recording, its header, all bytes after it, and what these hold.
    pub fn of(at: u64, header: Header, body: Vec<u8>, what: What) -> OwnedPacket
        requires long { HEADER_LEN + length body.items ≡ header.packet_len }
        requires holds { Holds (header_data header) body.items what }
        ensures parts { result ≡ packet_of at (header_data header) body.items what }
    {
        OwnedPacket {
            at,
            header,
            body,
            what,
        }
    }

    /// Its memory, with whatever bytes.
    pub(crate) fn into_body(self) -> Vec<u8> {
        self.body
    }

    /// The number of its bytes.
    pub(crate) fn len(&self) -> u32
        ensures { result ≡ self.now.header.packet_len }
    {
        self.header.packet_len
    }

    /// The packet, whose body is borrowed from this one.
    pub fn packet(&self) -> Packet<'_>
        ensures same { packet_data result ≡ self.now }
    {
        Packet {
            at: self.at,
            header: self.header,
            body: self.body.as_slice(),
            what: self.what,
        }
    }
}
