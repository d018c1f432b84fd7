//! What a packet of the recording is in a stream.

ghost use Rattle.std.specs.Prelude.{◌≡◌, ◌<◌, ◌^◌, None, IfNone, IfSome};
ghost use Rattle.rec_reader.specs.Views.{packet_data};
ghost use Rattle.rec_pieces.specs.Entries.{packet_names};
ghost use Rattle.rec_stream.specs.Sending.{NamesPacket};
ghost use Rattle.rec_stream.specs.StreamPieces.{is_end};
ghost use Rattle.ch11_packet.specs.declared.class.What.{What as Holds};

use crate::origin::PieceOrigin;
use ch11_packet::What;
use rec_pieces::{PieceKind, least_counter, names};
use rec_reader::Packet;

/// What a packet is that names a channel.
#[derive(Clone, Copy, Debug, PartialEq, Eq)]
pub(crate) struct Named {
    /// The place of its first byte in the recording.
    pub(crate) at: u64,
    pub(crate) origin: PieceOrigin,
    pub(crate) kind: PieceKind,
    /// Its least counter, if it has one.
    pub(crate) least: Option<u64>,
}

/// What a packet is in a stream: `None` if it names no channel.
pub(crate) fn named_in(packet: &Packet<'_>) -> Option<Named>
    ensures some { IfSome result (NamesPacket (packet_data packet.now)) }
    ensures fits { IfSome result (λ named. IfSome named.least (λ least. least < 2 ^ 48)) }
    ensures none { IfNone result (packet_names (packet_data packet.now) ≡ None) }
{
    let (channel, kind) = names(packet)?;
    Some(Named {
        at: packet.at,
        origin: PieceOrigin {
            channel,
            is_end: is_end(packet.what),
        },
        kind,
        least: least_counter(packet, channel, kind),
    })
}

/// Whether a packet that holds this is the end of a channel.
fn is_end(what: What) -> bool
    ensures { result ≡ is_end what }
{
    match what {
        What::End { .. } => true,
        What::Frames(_) | What::Program { .. } | What::Other => false,
    }
}
