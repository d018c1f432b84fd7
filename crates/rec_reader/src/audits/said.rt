//! What a packet says of a channel.

ghost use Rattle.std.specs.Prelude.{◌≡◌};
ghost use Rattle.std.specs.Option.{option_map};
ghost use Rattle.rec_reader.specs.Channels.{saying_of};
ghost use Rattle.rec_reader.specs.Views.{packet_data, said_data};

use crate::audits::channel::ChannelEnd;
use crate::packet::Packet;
use ch11_packet::{Frames, ProgramRecord, What};

/// What a packet says of a channel. Frames and instructions are borrowed from it.
#[derive(Drop)]
pub(crate) enum Said<'a> {
    /// Frames of the channel.
    Frames(Frames<'a>),
    /// A program that came into force on it.
    Program(ProgramRecord<'a>),
    /// Its end.
    End(ChannelEnd),
}

/// The channel that a packet names, and what it says of it: `None` for a packet of any other kind.
pub(crate) fn said_by<'a>(packet: &Packet<'a>) -> Option<(u16, Said<'a>)>
    ensures { option_map (λ said. (said.0, said_data said.1)) result
        ≡ saying_of (packet_data packet.now) }
{
    match packet.what {
        What::Frames(_) => Some((packet.header.channel, Said::Frames(packet.frames()?))),
        What::Program { channel, .. } => Some((channel, Said::Program(packet.program()?))),
        What::End {
            channel,
            offered,
            kept,
        } => Some((channel, Said::End(ChannelEnd { offered, kept }))),
        What::Other => None,
    }
}
