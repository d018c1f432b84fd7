//! A body of Ethernet data while frames are added.
ghost use Rattle.std.specs.Prelude.{◌≡◌, ◌+◌, ◌≤◌, ◌++◌, length, vec_len};
ghost use Rattle.std.specs.Vec.{vec_capacity};
ghost use Rattle.ch11_packet.specs.Frames.{frame_header, frame_bytes, frame_len};
ghost use Rattle.eth_frame.specs.Views.{frame_data};

use crate::frames::blank::Blank;
use crate::frames::body::DataBody;
use crate::frames::bytes::BodyBytes;
use crate::frames::word::{
    BODY_WORD_LEN, CRC_ERROR, FRAME_ERROR, FRAME_HEADER_LEN, MAX_SPEED, frame_len,
};
use crate::length::packet_len;
use crate::limit::Limit;
use crate::sum::body_sum;
use eth_frame::{Frame, counter_bytes};
use std::alloc::{AllocError, Global};
use std::marker::Model;

/// A body of Ethernet data to which frames are added, as long as its packet isn't longer than a
/// limit. It takes its memory when it is made, or has that of a buffer, and takes none later.
#[derive(Debug, Drop)]
pub struct DataBuilder {
    body: BodyBytes,
}

impl Model for DataBuilder {
    ghost use Rattle.std.specs.Vec.{vec_capacity};
    ghost use Rattle.ch11_packet.specs.Building.{OpenBody, open_of, frames_in, IsOpen};

    ghost Value = { OpenBody };

    ghost view = { λ b.
        open_of (frames_in b.body.count b.body.bytes.items) b.body.net b.body.speed b.body.limit };

    ghost invariant = { λ b.
        IsOpen b.body.count b.body.net b.body.speed b.body.limit (vec_capacity b.body.bytes)
        b.body.bytes.items };
}

impl DataBuilder {
    ghost use Rattle.std.specs.Prelude.{ℕ, ◌≡◌, ◌≢◌, ◌≤◌, ◌↔◌, [], ◌∷◌, ◌++◌, length, IsTrue, IfOk};
    ghost use Rattle.eth_frame.specs.declared.frame.TheConstants.{MAX_FRAME_LEN};
    ghost use Rattle.ch11_packet.specs.PacketLen.{packet_len};
    ghost use Rattle.ch11_packet.specs.Frames.{data_len};
    ghost use Rattle.ch11_packet.specs.Building.{Fits, body_of, open_of};
    ghost use Rattle.eth_frame.specs.Views.{frame_data};

    /// A body of no frames, with room for all that the limit allows. Each frame that is added has
    /// this network identifier and this speed, which is at most [`MAX_SPEED`].
    pub fn with_limit(
        alloc: Global,
        limit: Limit,
        net: u8,
        speed: u8,
    ) -> Result<DataBuilder, AllocError>
        requires { speed ≤ MAX_SPEED }
        ensures empty { IfOk result (λ builder. builder ≡ open_of [] net speed limit) }
        ensures roomy { IfOk result (λ builder. (len : ℕ) → len ≤ MAX_FRAME_LEN
            → Fits builder len) }
    {
        Ok(DataBuilder::over(Blank::with_limit(alloc, limit)?, net, speed))
    }

    /// A body of no frames in this buffer, up to the buffer's limit, with a network identifier and
    /// a speed as for [`DataBuilder::with_limit`].
    pub fn over(blank: Blank, net: u8, speed: u8) -> DataBuilder
        requires { speed ≤ MAX_SPEED }
        ensures empty { result ≡ open_of [] net speed blank }
        ensures roomy { (len : ℕ) → len ≤ MAX_FRAME_LEN → Fits result len }
    {
        let Blank { mut bytes, limit } = blank;
        append(&mut bytes, &[0; BODY_WORD_LEN]);
        DataBuilder {
            body: BodyBytes {
                bytes,
                count: 0,
                net,
                speed,
                limit,
            },
        }
    }

    /// Whether no frame was added.
    pub fn is_empty(&self) -> bool
        ensures empty { IsTrue result ↔ (self.now.frames ≡ []) }
    {
        self.body.count == 0
    }

    /// Whether the packet with a further frame of `len` bytes isn't longer than the limit.
    pub fn fits(&self, len: usize) -> bool
        ensures fits { IsTrue result ↔ Fits self.now len }
    {
        let limit = self.body.limit.get() as usize;
        len <= limit && packet_len(self.body.bytes.len() + frame_len(len)) <= limit
    }

    /// Adds a frame, which fits.
    pub fn push(&mut self, frame: &Frame<'_>)
        requires { Fits self.old (length frame.now.bytes.now) }
        ensures added { self.new
            ≡ record self.old { frames = self.old.frames ++ frame_data frame.now ∷ [] } }
    {
        append_frame(&mut self.body.bytes, frame, self.body.net, self.body.speed);
        self.body.count += 1;
    }

    /// The body of the frames that were added, of which there is at least one. The sum of its bytes is
    /// taken here, where they were written, when the first word has the number of frames.
    pub fn seal(self) -> DataBody
        requires { self.frames ≢ [] }
        ensures sealed { result ≡ body_of self.frames self.net self.speed self.limit }
        ensures within { packet_len (data_len self.frames) ≤ self.limit }
    {
        let DataBuilder { mut body } = self;
        let [low, high] = body.count.to_le_bytes();
        body.bytes[0] = low;
        body.bytes[1] = high;
        let sum = body_sum(body.bytes.as_slice());
        DataBody::new(body, sum)
    }
}

/// Adds a frame for which there is room: its header, its bytes, and one of filler if their number
/// is odd.
#[tactic(auto, using(crate::proofs::FrameBytes::added_odd, crate::proofs::FrameBytes::added_even))]
fn append_frame(body: &mut Vec<u8>, frame: &Frame<'_>, net: u8, speed: u8)
    requires speed { speed ≤ MAX_SPEED }
    requires room { vec_len body.old + frame_len (length frame.now.bytes.now)
        ≤ vec_capacity body.old }
    ensures items { body.new.items
        ≡ body.old.items ++ frame_bytes net speed (frame_data frame.now) }
    ensures capacity { vec_capacity body.old ≤ vec_capacity body.new }
{
    append(body, &frame_header(frame, net, speed));
    append(body, frame.bytes);
    if frame.bytes.len() % 2 == 1 {
        append(body, &[0]);
    }
}

/// The 12 bytes of a body before the bytes of a frame: counter (6), zero (2) and the frame's word.
#[tactic(auto, using(crate::proofs::FrameBytes::word_bytes))]
fn frame_header(frame: &Frame<'_>, net: u8, speed: u8) -> [u8; FRAME_HEADER_LEN]
    requires { speed ≤ MAX_SPEED }
    ensures bytes { result ≡ frame_header net speed (frame_data frame.now) }
{
    let [c0, c1, c2, c3, c4, c5] = counter_bytes(frame.counter);
    let [low, high] = (frame.bytes.len() as u16).to_le_bytes();
    let frame_error = if frame.frame_error { FRAME_ERROR } else { 0 };
    let crc_error = if frame.crc_error { CRC_ERROR } else { 0 };
    let top_byte = speed + frame_error + crc_error;
    [c0, c1, c2, c3, c4, c5, 0, 0, low, high, net, top_byte]
}

/// Adds bytes for which there is room.
fn append(body: &mut Vec<u8>, bytes: &[u8])
    requires { vec_len body.old + length bytes.now ≤ vec_capacity body.old }
    ensures items { body.new.items ≡ body.old.items ++ bytes.now }
    ensures capacity { vec_capacity body.old ≤ vec_capacity body.new }
{
    if body.extend_from_slice(bytes).is_err() {
        unreachable!()
    }
}
