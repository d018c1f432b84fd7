//! The pieces of a channel's recording.

ghost use Rattle.std.specs.Prelude.{◌≡◌, ◌<◌, ◌^◌};

use bpf_verify::Verified;
use ch11_packet::DataBody;
use std::alloc::Global;
use std::sync::Arc;

/// A program that came into force.
#[derive(Debug, Drop)]
pub struct ProgramPiece {
    /// The channel ID, which is not 0.
    pub channel: u16,
    /// The counter of the first frame that met the program, below 2^48.
    pub counter: u64,
    /// The program's version: its index in the channel's history.
    pub version: u32,
    /// The number of the first frame that met the program, from 0 on.
    pub first: u64,
    /// The program.
    pub program: Arc<Verified, Global>,
    pub ghost named: { 0 < channel },
    pub ghost counter_fits: { counter < 2 ^ 48 },
}

/// A packet of frames.
#[derive(Debug, Drop)]
pub struct DataPiece {
    /// The channel ID, which is not 0.
    pub channel: u16,
    /// The packet's body.
    pub body: DataBody,
    pub ghost named: { 0 < channel },
}

/// The end of a channel.
#[derive(Debug, Drop)]
pub struct EndPiece {
    /// The channel ID, which is not 0.
    pub channel: u16,
    /// The counter of the last frame that was offered, below 2^48; 0 if none was.
    pub counter: u64,
    /// How many frames were offered.
    pub offered: u64,
    /// How many of them the filter accepted.
    pub kept: u64,
    pub ghost named: { 0 < channel },
    pub ghost counter_fits: { counter < 2 ^ 48 },
}

/// A piece of a channel's recording, which is written as one packet.
#[derive(Debug, Drop)]
pub enum Piece {
    /// A program that came into force.
    Program(ProgramPiece),
    /// A packet of frames.
    Data(DataPiece),
    /// The end of a channel.
    End(EndPiece),
}

impl Piece {
    ghost use Rattle.std.specs.Prelude.{◌≡◌, ◌≢◌};
    ghost use Rattle.rec_lane.specs.Pieces.{channel_of};
    ghost use Rattle.rec_lane.specs.Views.{piece_data};

    /// The channel that the piece is of, which is not 0.
    pub fn channel(&self) -> u16
        ensures channel { result ≡ channel_of (piece_data self.now) }
        ensures named { result ≢ 0 }
    {
        match self {
            Piece::Program(program) => program.channel,
            Piece::Data(data) => data.channel,
            Piece::End(end) => end.channel,
        }
    }
}

impl Default for Piece {
    ghost use Rattle.rec_lane.specs.Pieces.PieceData.{OfEnd};
    ghost use Rattle.rec_lane.specs.Views.{piece_data};

    /// The end of channel 1 with no frame: it stands in the free places of an `ArrayVec`.
    fn default() -> Piece
        ensures end { piece_data result ≡ OfEnd 1 0 0 0 }
    {
        Piece::End(EndPiece {
            channel: 1,
            counter: 0,
            offered: 0,
            kept: 0,
        })
    }
}
