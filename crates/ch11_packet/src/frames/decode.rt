//! A body of Ethernet data that is read.
ghost use Rattle.std.specs.Prelude.{ℕ, ◌≡◌, ◌↔◌, ◌-◌, ◌<◌, ◌∷◌, ◌++◌, List, [], length, drop, IfSome, IfNone, IfOk, IsOkAnd, Err};
ghost use Rattle.ch11_packet.specs.declared.frames.decode.BodyFault.{BodyFault};
ghost use Rattle.ch11_packet.specs.FramesRead.{ReadFrameData, FrameStandsFirst, IsFiller, IsCutFrame, SpellsBody, IsBodyOf, HasBodyFault, AreFrames, first_reads};
ghost use Rattle.ch11_packet.specs.Views.{read_frame_data};

use crate::frames::frame::ReadFrame;
use crate::frames::walk::FrameWalk;
use crate::frames::word::{
    BODY_WORD_LEN, CONTENT_BITS, COUNT_BITS, CRC_ERROR, FORMAT_BIT, FRAME_ERROR, FRAME_HEADER_LEN,
    LENGTH_BITS, SPEED_BITS,
};
use eth_frame::counter_of;
use std::marker::Model;
use thiserror::Error;

/// Why bytes are no body of Ethernet data in Format 0. First it is checked that there are 4 bytes,
/// then the format, then that each frame is whole, and last that nothing follows.
#[derive(Clone, Copy, Debug, PartialEq, Eq, Error)]
pub enum BodyFault {
    /// The body's word says another format than 0.
    #[error("Format")]
    Format,
    /// There are fewer than 4 bytes, or some frame that the body's word counts isn't whole.
    #[error("Short")]
    Short,
    /// Bytes are left over after the last frame and its filler.
    #[error("LeftOver")]
    LeftOver,
}

/// The frames of a body of Ethernet data. They are borrowed from the body, and nothing of it is
/// copied.
#[derive(Debug, Drop)]
pub struct Frames<'a> {
    count: u16,
    bytes: &'a [u8],
}

impl<'a> Model for Frames<'a> {
    ghost use Rattle.std.specs.Prelude.{List};
    ghost use Rattle.ch11_packet.specs.FramesRead.{ReadFrameData, first_reads, AreFrames};

    ghost Value = { List ReadFrameData };

    ghost view = { λ f. first_reads f.count f.bytes.now };

    ghost invariant = { λ f. ∥ AreFrames f.count f.bytes.now ∥₁ };
}

impl<'a> Frames<'a> {
    ghost use Rattle.std.specs.Prelude.{◌≡◌, [], ◌∷◌, IfSome, IfNone, length, slice_get};
    ghost use Rattle.std.specs.Option.{option_map};
    ghost use Rattle.ch11_packet.specs.Views.{read_frame_data};

    /// The number of the frames.
    #[tactic(auto, using(crate::proofs::FirstFrames::reads_counted))]
    pub fn count(&self) -> u16
        ensures count { result ≡ length self.now }
    {
        self.count
    }

    /// The frames one by one, in order. The time for each is that for its own bytes.
    pub fn walk(&self) -> FrameWalk<'a>
        ensures all { result ≡ self.now }
    {
        let left = Frames {
            count: self.count,
            bytes: self.bytes,
        };
        FrameWalk { left }
    }

    /// Frame `at`, counted from 0: `None` from the count on. It passes over the frames before it,
    /// so [`walk`](Frames::walk) is the way to go over all.
    pub fn frame_at(&self, at: u16) -> Option<ReadFrame<'a>>
        ensures at { option_map read_frame_data result ≡ slice_get self.now at }
    {
        self.walk().nth(usize::from(at))
    }

    /// Takes the first frame: `None` where there is none.
    pub(crate) fn take_first(&mut self) -> Option<ReadFrame<'a>>
        ensures none { IfNone result ((self.old ≡ []) × (self.new ≡ [])) }
        ensures first { IfSome result (λ frame. self.old ≡ read_frame_data frame ∷ self.new) }
    {
        let (frame, after) = first_frame(self.count, self.bytes)?;
        let count = self.count - 1;
        *self = Frames {
            count,
            bytes: after,
        };
        Some(frame)
    }
}

/// The frames of a body of Ethernet data, or the first fault: fewer bytes than the body's word has,
/// then the format, then the frames from the first on. These may have any value: bits 27 to 16 of
/// the word, the two bytes after a frame's counter, bits 15 and 14 of a frame's word, and the
/// filler after a frame of an odd number of bytes, which may be missing after the last.
pub fn decode_frames(body: &[u8]) -> Result<Frames<'_>, BodyFault>
    // At Ok.
    ensures spelled { IfOk result (λ frames. SpellsBody frames body.now) }
    ensures read { (frames : List ReadFrameData) → SpellsBody frames body.now
        → IsOkAnd result (λ read. read ≡ frames) }

    // At a fault.
    ensures fault { (fault : BodyFault) → (result ≡ Err fault) ↔ HasBodyFault body.now fault }
{
    let [w0, w1, w2, w3, bytes @ ..] = body else {
        return Err(BodyFault::Short);
    };
    let word = u32::from_le_bytes([*w0, *w1, *w2, *w3]);
    if word >> FORMAT_BIT != 0 {
        return Err(BodyFault::Format);
    }
    let count = (word % (1 << COUNT_BITS)) as u16;
    let mut rest = bytes;
    'frames: for _ in 0..count {
        let Some((_, after)) = split_frame(rest) else {
            return Err(BodyFault::Short);
        };
        rest = after;
    }
    if !rest.is_empty() {
        return Err(BodyFault::LeftOver);
    }
    Ok(Frames { count, bytes })
}

/// The frames of a body that is known to have `count` of them, as the class of its packet says. They
/// aren't gone over for that.
pub fn held_frames(count: u16, body: &[u8]) -> Frames<'_>
    requires { ∥ IsBodyOf count body.now ∥₁ }
    ensures read { (frames : List ReadFrameData) → SpellsBody frames body.now → result ≡ frames }
{
    Frames {
        count,
        bytes: &body[BODY_WORD_LEN..],
    }
}

/// The first frame of bytes that are known to hold `count` of them, and the bytes of the others: `None`
/// where there is none. So the frames of a body can be gone over in several turns, while it stays where
/// it is.
pub fn first_frame(count: u16, bytes: &[u8]) -> Option<(ReadFrame<'_>, &[u8])>
    requires { ∥ AreFrames count bytes.now ∥₁ }
    ensures none { IfNone result (first_reads count bytes.now ≡ []) }
    ensures some { IfSome result (λ split. 0 < count) }
    ensures first { IfSome result (λ split. first_reads count bytes.now
        ≡ read_frame_data split.0 ∷ first_reads (count - 1) split.1.now) }
    ensures others { IfSome result (λ split. ∥ AreFrames (count - 1) split.1.now ∥₁) }
    ensures rest { IfSome result (λ split.
        split.1.now ≡ drop (length bytes.now - length split.1.now) bytes.now) }
{
    let (frame, after) = split_frame(bytes)?;
    Some((frame, after))
}

/// The frame at the front of these bytes, and what comes after it and its filler: `None` if it
/// isn't whole.
pub(crate) fn split_frame(body: &[u8]) -> Option<(ReadFrame<'_>, &[u8])>
    ensures first { IfSome result (λ split.
        FrameStandsFirst (read_frame_data split.0) body.now split.1.now) }
    ensures cut { IfNone result (IsCutFrame body.now) }
{
    if body.len() < FRAME_HEADER_LEN {
        return None;
    }
    let len = usize::from(u16::from_le_bytes([body[8], body[9]]) % (1 << LENGTH_BITS));
    let (bytes, after) = body[FRAME_HEADER_LEN..].split_at_checked(len)?;
    let top_byte = body[11];
    let frame = ReadFrame {
        counter: counter_of([body[0], body[1], body[2], body[3], body[4], body[5]]),
        crc_error: top_byte & CRC_ERROR != 0,
        frame_error: top_byte & FRAME_ERROR != 0,
        net: body[10],
        speed: top_byte % (1 << SPEED_BITS),
        content: (top_byte >> SPEED_BITS) % (1 << CONTENT_BITS),
        bytes,
    };
    Some((frame, after_filler(len, after)))
}

/// What comes after the filler of a frame of `len` bytes: one byte of any value if `len` is odd,
/// which may be missing at the end.
#[tactic(auto, using(crate::proofs::SplitFrame::one_filler))]
fn after_filler(len: usize, after: &[u8]) -> &[u8]
    ensures filler { (filler : List ℕ) × (after.now ≡ filler ++ result.now)
        × IsFiller len filler result.now }
{
    match after {
        [_, more @ ..] if len % 2 == 1 => more,
        more => more,
    }
}
