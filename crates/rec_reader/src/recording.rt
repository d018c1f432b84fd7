//! A recording that is read.

use crate::packet::Packet;
use std::marker::Model;

/// The packets of a recording, in order: the first begins at place 0, and each other one where the
/// one before it ends. They are borrowed from the bytes of a recording.
#[derive(Debug, Drop)]
pub struct Recording<'a> {
    /// The packets.
    pub packets: Vec<Packet<'a>>,
}

impl<'a> Model for Recording<'a> {
    ghost use Rattle.std.specs.Prelude.{List};
    ghost use Rattle.rec_reader.specs.Packets.{PacketData, BeginSomeBytes};
    ghost use Rattle.rec_reader.specs.Views.{packets_data};

    ghost Value = { List PacketData };

    ghost view = { λ r. packets_data r.packets.items };

    ghost invariant = { λ r. BeginSomeBytes (packets_data r.packets.items) };
}

impl<'a> Recording<'a> {
    ghost use Rattle.std.specs.Prelude.{◌≡◌};
    ghost use Rattle.rec_reader.specs.Packets.{BeginSomeBytes};
    ghost use Rattle.rec_reader.specs.Views.{packets_data};

    /// The packets.
    pub fn packets(&self) -> &[Packet<'a>]
        ensures packets { packets_data result.now ≡ self.now }
        ensures placed { BeginSomeBytes self.now }
    {
        self.packets.as_slice()
    }
}
