//! What a core answers.

use rec_lane::Piece;

/// What a core answers to an event that it did.
#[derive(Clone, Copy, Debug, PartialEq, Eq)]
pub enum Reply {
    /// A frame was taken.
    Took {
        /// The frame's number on its channel, from 0 on.
        number: u64,
        /// The version of the filter that it met.
        version: u32,
        /// What the version's program returned on the frame's view; 0 drops the frame.
        value: u32,
    },
    /// A time mark was taken.
    Timed,
    /// A program was installed.
    Installed {
        /// Its version: its index in the channel's history.
        version: u32,
        /// Its mark: the number of the first frame that it may meet.
        mark: u64,
    },
    /// A piece was sent into its channel's ring.
    Sent(Which),
    /// A piece was written.
    Wrote {
        /// How long its packet is, in bytes.
        bytes: u32,
    },
    /// A channel was closed.
    Closed {
        /// How many frames were taken from it.
        offered: u64,
        /// How many of them its filter accepted.
        kept: u64,
    },
}

/// Which piece was sent.
#[derive(Clone, Copy, Debug, PartialEq, Eq)]
pub enum Which {
    /// The program of this version.
    Program(u32),
    /// A packet of this many frames.
    Frames(u16),
    /// The channel's end.
    End,
}

impl Which {
    ghost use Rattle.std.specs.Prelude.{◌≡◌};
    ghost use Rattle.rec_lane.specs.Views.{piece_data};
    ghost use Rattle.rec_core.specs.World.{which_of};

    /// Which piece this is.
    pub(crate) fn of(piece: &Piece) -> Which
        ensures { result ≡ which_of (piece_data piece.now) }
    {
        match piece {
            Piece::Program(program) => Which::Program(program.version),
            Piece::Data(data) => Which::Frames(data.body.count()),
            Piece::End(_) => Which::End,
        }
    }
}
