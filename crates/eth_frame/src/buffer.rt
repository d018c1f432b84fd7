//! Room for one frame of any length.
ghost use Rattle.std.specs.Prelude.{◌≡◌, ◌≤◌, ◌<◌, length, take, IfOk};
ghost use Rattle.std.specs.Io.KnownBytes.{Consumes, IsAtEnd};

use crate::frame::{Frame, FrameHead, MAX_FRAME_LEN};
use std::io::Read;
use std::marker::Model;
use std::{fmt, io};

/// Room for one frame of any length, and the frame that it holds, if any.
#[derive(Drop)]
pub struct FrameBuf {
    held: Option<FrameHead>,
    bytes: [u8; MAX_FRAME_LEN],
}

impl Model for FrameBuf {
    ghost use Rattle.std.specs.Prelude.{Option};
    ghost use Rattle.eth_frame.specs.Frame.{FrameData};
    ghost use Rattle.eth_frame.specs.Heads.{held_frame, IsHeldFrame};

    ghost Value = { Option FrameData };

    ghost view = { λ b. held_frame b.held b.bytes };

    ghost invariant = { λ b. IsHeldFrame b.held b.bytes };
}

impl FrameBuf {
    ghost use Rattle.std.specs.Prelude.{◌≡◌, ◌<◌, length, None, Some, IfSome, IsSomeAnd, OnErr, Ok, true, false};
    ghost use Rattle.std.specs.Io.KnownBytes.{Consumes};
    ghost use Rattle.std.specs.Option.{option_map};
    ghost use Rattle.eth_frame.specs.Heads.{HasFrameHead};
    ghost use Rattle.eth_frame.specs.Views.{frame_data};

    /// An empty buffer.
    pub fn new() -> FrameBuf
        ensures empty { result ≡ None }
    {
        FrameBuf {
            held: None,
            bytes: [0; MAX_FRAME_LEN],
        }
    }

    /// Copies a frame into the buffer, in place of the one that it held.
    pub fn put(&mut self, frame: Frame<'_>)
        ensures held { self.new ≡ Some (frame_data frame.entry) }
    {
        let head = FrameHead::of(&frame);
        self.bytes[..head.len].copy_from_slice(frame.bytes);
        self.held = Some(head);
    }

    /// Forgets the frame that the buffer held.
    pub fn clear(&mut self)
        ensures empty { self.new ≡ None }
    {
        self.held = None;
    }

    /// Reads the bytes of a frame with this head into the buffer, which is empty, and says whether
    /// all of them came. If not, the buffer stays empty.
    pub(crate) fn read_frame<R: Read>(
        &mut self,
        head: FrameHead,
        reader: &mut R,
    ) -> io::Result<bool>
        requires { self.old ≡ None }
        ensures whole { result ≡ Ok true → IsSomeAnd self.new (λ frame. HasFrameHead head frame
            × Consumes (R.remaining reader.old) (R.remaining reader.new) frame.bytes) }
        ensures cut { result ≡ Ok false → (self.new ≡ None)
            × IfSome (R.remaining reader.old) (λ bytes. length bytes < head.len) }
        ensures failed { OnErr result (self.new ≡ None) }
    {
        let filled = fill(reader, &mut self.bytes[..head.len])?;
        if filled < head.len {
            return Ok(false);
        }
        self.held = Some(head);
        Ok(true)
    }

    /// The frame that the buffer holds.
    pub fn frame(&self) -> Option<Frame<'_>>
        ensures held { option_map frame_data result ≡ self.now }
    {
        let head = self.held?;
        Some(head.with_bytes(&self.bytes[..head.len]))
    }
}

impl Default for FrameBuf {
    ghost use Rattle.std.specs.Prelude.{◌≡◌, None};

    ghost is_default = { λ buffer. buffer ≡ None };

    fn default() -> FrameBuf {
        FrameBuf::new()
    }
}

impl fmt::Debug for FrameBuf {
    fn fmt<W: fmt::Write>(&self, f: &mut fmt::Formatter<W>) -> fmt::Result {
        f.debug_struct("FrameBuf")
            .field("frame", &self.frame())
            .finish()
    }
}

/// Reads until all places are filled or the reader is at its end, in whatever pieces it gives its
/// bytes, and returns how many are filled.
///
/// # Errors
///
/// The first fault of a read, also if it was interrupted; what was read before it is lost.
pub fn fill<R: Read>(reader: &mut R, places: &mut [u8]) -> io::Result<usize>
    ensures count { IfOk result (λ n. n ≤ length places.new) }
    ensures taken { IfOk result (λ n.
        Consumes (R.remaining reader.old) (R.remaining reader.new) (take n places.new)) }
    ensures end { IfOk result (λ n. n < length places.new → IsAtEnd (R.remaining reader.new)) }
{
    let mut filled = 0;
    'pieces: while filled < places.len() {
        match reader.read(&mut places[filled..]) {
            Ok(0) => return Ok(filled),
            Ok(n) => filled += n,
            Err(error) => return Err(error),
        }
    }
    Ok(filled)
}
