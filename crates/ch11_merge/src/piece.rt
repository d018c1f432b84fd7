//! Where the frames of a packet are cut into pieces.

ghost use Rattle.std.specs.Prelude.{◌≡◌, ◌<◌, ◌^◌};
ghost use Rattle.ch11_packet.specs.Frames.{frame_len};
ghost use Rattle.ch11_packet.specs.Views.{read_frame_data};
ghost use Rattle.ch11_merge.specs.Pieces.{goes_on, piece_before, with_frame};

use ch11_packet::{MAX_ETHERNET_PACKET_LEN, ReadFrame, written_len};

/// How many ticks of 100 ns lie between the first frame of a piece and the first that is cut off: 100 ms.
pub const PIECE_TICKS: u64 = 1_000_000;

/// How many bytes the body of no frames has.
const BODY_LEN: usize = 4;

/// How many bytes of a body stand before those of a frame.
const FRAME_HEADER_LEN: usize = 12;

/// What the next frame of a piece is judged by.
#[derive(Clone, Copy, Debug, PartialEq, Eq)]
pub struct PieceSoFar {
    /// The counter of the piece's first frame.
    pub first: u64,
    /// The counter of its last frame so far.
    pub last: u64,
    /// How many bytes the body of its packet has so far.
    pub len: usize,
}

impl PieceSoFar {
    /// The piece of no frames yet, of which the first has this counter.
    pub fn before(counter: u64) -> PieceSoFar
        ensures { result ≡ piece_before counter }
    {
        PieceSoFar {
            first: counter,
            last: counter,
            len: BODY_LEN,
        }
    }

    /// Whether a frame goes on with the piece.
    pub fn goes_on(&self, frame: &ReadFrame<'_>) -> bool
        requires { self.now.len < 2 ^ 32 }
        ensures { result ≡ goes_on self.now (read_frame_data frame.now) }
    {
        let len = written_len(self.len + frame_len(frame.bytes.len()));
        self.last <= frame.counter
            && frame.counter.saturating_sub(self.first) < PIECE_TICKS
            && len <= MAX_ETHERNET_PACKET_LEN as usize
    }

    /// The piece with a further frame.
    pub fn with(&self, frame: &ReadFrame<'_>) -> PieceSoFar
        requires { self.now.len < 2 ^ 32 }
        ensures { result ≡ with_frame self.now (read_frame_data frame.now) }
    {
        PieceSoFar {
            first: self.first,
            last: frame.counter,
            len: self.len + frame_len(frame.bytes.len()),
        }
    }
}

/// How many bytes of a body a frame of `len` bytes takes: its header, its bytes and their filler.
fn frame_len(len: usize) -> usize
    requires { len < 2 ^ 32 }
    ensures { result ≡ frame_len len }
{
    FRAME_HEADER_LEN + len + len % 2
}
