//! What a packet says of a channel, but its frames.

ghost use Rattle.std.specs.Prelude.{◌≡◌};
ghost use Rattle.std.specs.Option.{option_map};
ghost use Rattle.rec_reader.specs.Views.{packet_data};
ghost use Rattle.rec_reader.specs.Channels.{saying_of};
ghost use Rattle.rec_runs.specs.RunSayings.{without_frames};
ghost use Rattle.rec_runs.specs.ToldData.{told_data};

use ch11_packet::{ProgramRecord, What};
use rec_reader::Packet;

/// What a packet says of a channel, but its frames. Instructions are borrowed from it.
#[derive(Drop)]
pub(crate) enum ToldOfRun<'a> {
    /// A program that came into force on it.
    Program(ProgramRecord<'a>),
    /// Its end.
    End {
        /// The number of frames offered.
        offered: u64,
        /// The number of those kept.
        kept: u64,
    },
}

/// The channel of which a packet is a program or the end, and what it says: `None` for any other
/// packet.
pub(crate) fn told_by<'a>(packet: &Packet<'a>) -> Option<(u16, ToldOfRun<'a>)>
    ensures { option_map (λ told. (told.0, told_data told.1)) result
        ≡ without_frames (saying_of (packet_data packet.now)) }
{
    match packet.what {
        What::Program { channel, .. } => Some((channel, ToldOfRun::Program(packet.program()?))),
        What::End {
            channel,
            offered,
            kept,
        } => Some((channel, ToldOfRun::End { offered, kept })),
        What::Frames(_) | What::Other => None,
    }
}
