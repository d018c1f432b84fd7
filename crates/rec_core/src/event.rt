//! What happens to a core.

use bpf_verify::Verified;
use eth_frame::OwnedFrame;
use std::alloc::Global;
use std::sync::Arc;

/// What happens to a core, one step after another. Each event is of the channel with this ID.
#[derive(Debug, Drop)]
pub enum Event {
    /// A frame comes from the channel's source: it is numbered, meets the filter in force, and what
    /// is certain of the channel's pieces then is ready to be sent.
    Take {
        /// The channel ID.
        channel: u16,
        /// The frame.
        frame: OwnedFrame,
    },
    /// A time mark comes from the channel's source: where packets have a span, what is certain of the
    /// channel's pieces then is ready to be sent.
    Time {
        /// The channel ID.
        channel: u16,
        /// The counter up to which no frame came.
        counter: u64,
    },
    /// A program is installed as the channel's filter, from the next frame on.
    Install {
        /// The channel ID.
        channel: u16,
        /// The program.
        program: Arc<Verified, Global>,
    },
    /// The channel's next piece is sent into its ring.
    Send {
        /// The channel ID.
        channel: u16,
    },
    /// The first piece in the channel's ring is written.
    Write {
        /// The channel ID.
        channel: u16,
    },
    /// No more frames come: the channel's last pieces are ready to be sent.
    Close {
        /// The channel ID.
        channel: u16,
    },
}

impl Event {
    ghost use Rattle.std.specs.Prelude.{◌≡◌};
    ghost use Rattle.rec_core.specs.World.{event_channel};
    ghost use Rattle.rec_core.specs.Views.{event_data};

    /// The channel that the event is of.
    pub(crate) fn channel(&self) -> u16
        ensures { result ≡ event_channel (event_data self.now) }
    {
        match self {
            Event::Take { channel, .. } => *channel,
            Event::Time { channel, .. } => *channel,
            Event::Install { channel, .. } => *channel,
            Event::Send { channel } => *channel,
            Event::Write { channel } => *channel,
            Event::Close { channel } => *channel,
        }
    }
}
