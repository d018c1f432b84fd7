//! A piece of frames while frames are added.

ghost use Rattle.std.specs.Prelude.{◌≡◌, ◌+◌, ◌<◌, ◌≤◌, ◌^◌, ◌++◌, length, vec_len};
ghost use Rattle.std.specs.Vec.{vec_capacity};
ghost use Rattle.ch11_packet.specs.Frames.{frame_len};
ghost use Rattle.ch11_packet.specs.Views.{read_frame_data};
ghost use Rattle.ch11_file.specs.CopiedFrames.{copied_frame, copied_header};

use crate::owned::{FramesBody, OwnedPiece};
use ch11_packet::ReadFrame;
use eth_frame::counter_bytes;
use std::alloc::{AllocError, Global};
use std::marker::Model;

/// The number of bytes of the word that a body of frames begins with.
const BODY_WORD_LEN: usize = 4;

/// The number of bytes of a body before those of a frame.
const FRAME_HEADER_LEN: usize = 12;

/// The bits of a frame's word that report a fault of the check sequence, and another fault, in its highest
/// byte.
const CRC_ERROR: u8 = 0x80;

const FRAME_ERROR: u8 = 0x40;

/// What the content counts in that byte: its lowest bit stands behind the four of the speed.
const CONTENT: u8 = 0x10;

/// A piece of frames to which frames are added.
#[derive(Debug, Drop)]
pub struct PieceBuilder {
    count: u16,
    bytes: Vec<u8>,
}

impl Model for PieceBuilder {
    ghost use Rattle.std.specs.Prelude.{List};
    ghost use Rattle.ch11_packet.specs.FramesRead.{ReadFrameData};
    ghost use Rattle.ch11_file.specs.HeldPieces.{copies_held, HoldsCopies};

    ghost Value = { List ReadFrameData };

    ghost view = { λ b. copies_held b.count b.bytes.items };

    ghost invariant = { λ b.
        HoldsCopies 0 (copies_held b.count b.bytes.items) b.bytes.items };
}

impl PieceBuilder {
    ghost use Rattle.std.specs.Prelude.{◌≡◌, ◌≢◌, [], ◌∷◌, ◌++◌, IfOk, OnOk, OnErr};
    ghost use Rattle.ch11_merge.specs.Short.{FitPacket};
    ghost use Rattle.ch11_merge.specs.Merging.FilePiece.{OfFrames};
    ghost use Rattle.ch11_file.specs.OwnedPieces.{owned_data};

    /// A piece of no frames, with room for a body of this many bytes.
    pub fn new(alloc: Global, capacity: usize) -> Result<PieceBuilder, AllocError>
        ensures { IfOk result (λ builder. builder ≡ []) }
    {
        let mut bytes = Vec::with_capacity(alloc, capacity)?;
        bytes.extend_from_slice(&[0; BODY_WORD_LEN])?;
        Ok(PieceBuilder { count: 0, bytes })
    }

    /// Adds a frame, with which the packet isn't too long.
    pub fn push(&mut self, frame: &ReadFrame<'_>) -> Result<(), AllocError>
        requires { FitPacket (self.old ++ read_frame_data frame.now ∷ []) }
        ensures added { OnOk result (self.new ≡ self.old ++ read_frame_data frame.now ∷ []) }
        ensures same { OnErr result (self.new ≡ self.old) }
    {
        self.bytes.reserve(frame_len(frame.bytes.len()))?;
        append_frame(&mut self.bytes, frame);
        self.count += 1;
        Ok(())
    }

    /// The piece of the frames that were added, at least one, of the packet at this place in the recording.
    pub fn seal(self, place: u64) -> OwnedPiece
        requires { self ≢ [] }
        ensures { owned_data result ≡ OfFrames place self }
    {
        let PieceBuilder { count, mut bytes } = self;
        let [low, high] = count.to_le_bytes();
        bytes[0] = low;
        bytes[1] = high;
        let body = FramesBody::new(count, bytes);
        OwnedPiece::Frames { place, body }
    }
}

/// Adds a frame for which there is room: its header, its bytes, and one of filler if their number is odd.
#[tactic(auto, using(crate::proofs::CopiesRead::copied_odd, crate::proofs::CopiesRead::copied_even))]
fn append_frame(body: &mut Vec<u8>, frame: &ReadFrame<'_>)
    requires room { vec_len body.old + frame_len (length frame.now.bytes.now)
        ≤ vec_capacity body.old }
    ensures items { body.new.items ≡ body.old.items ++ copied_frame (read_frame_data frame.now) }
{
    append(body, &frame_header(frame));
    append(body, frame.bytes);
    if frame.bytes.len() % 2 == 1 {
        append(body, &[0]);
    }
}

/// The 12 bytes of a body before the bytes of a frame: counter (6), zero (2) and the frame's word.
#[tactic(auto, using(crate::proofs::CopiesRead::copied_word))]
fn frame_header(frame: &ReadFrame<'_>) -> [u8; FRAME_HEADER_LEN]
    ensures { result ≡ copied_header (read_frame_data frame.now) }
{
    let [c0, c1, c2, c3, c4, c5] = counter_bytes(frame.counter);
    let [low, high] = (frame.bytes.len() as u16).to_le_bytes();
    let frame_error = if frame.frame_error { FRAME_ERROR } else { 0 };
    let crc_error = if frame.crc_error { CRC_ERROR } else { 0 };
    let top_byte = frame.speed + frame.content * CONTENT + frame_error + crc_error;
    [c0, c1, c2, c3, c4, c5, 0, 0, low, high, frame.net, top_byte]
}

/// Adds bytes for which there is room.
fn append(body: &mut Vec<u8>, bytes: &[u8])
    requires { vec_len body.old + length bytes.now ≤ vec_capacity body.old }
    ensures items { body.new.items ≡ body.old.items ++ bytes.now }
    ensures capacity { vec_capacity body.old ≤ vec_capacity body.new }
{
    if body.extend_from_slice(bytes).is_err() {
        unreachable!()
    }
}

/// How many bytes of a body a frame of `len` bytes takes: its header, its bytes and their filler.
fn frame_len(len: usize) -> usize
    requires { frame_len len < 2 ^ 32 }
    ensures { result ≡ frame_len len }
{
    FRAME_HEADER_LEN + len + len % 2
}
