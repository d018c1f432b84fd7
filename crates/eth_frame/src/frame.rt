//! A frame, and what is kept of it beside its bytes.
ghost use Rattle.std.specs.Prelude.{◌≤◌, ◌<◌, ◌^◌};
ghost use Rattle.eth_frame.specs.declared.frame.TheConstants.{MIN_FRAME_LEN, MAX_FRAME_LEN};
ghost use Rattle.eth_frame.specs.Frame.{IsFrame, frame_of};

use crate::counter::COUNTER_BITS;
use crate::owned::OwnedFrame;
use std::alloc::{AllocError, Global};

/// The least number of bytes of a frame: two addresses, the type and the check sequence.
pub const MIN_FRAME_LEN: usize = 18;

/// The greatest number of bytes of a frame, with its check sequence.
pub const MAX_FRAME_LEN: usize = 16_383;

/// The number of bytes of the frame check sequence, at the end of a frame (IEEE 802.3).
pub const CHECK_SEQUENCE_LEN: usize = 4;

/// An Ethernet frame with its check sequence, and what its channel reported of it.
#[derive(Clone, Copy, Debug, PartialEq, Eq)]
pub struct Frame<'a> {
    /// The counter's value at the frame, below 2^48.
    pub counter: u64,
    /// Whether the frame came with a wrong check sequence.
    pub crc_error: bool,
    /// Whether the frame came with another fault.
    pub frame_error: bool,
    /// The bytes, 18 to 16,383, the last 4 of them the frame check sequence.
    pub bytes: &'a [u8],
    pub ghost in_range: { IsFrame (frame_of counter crc_error frame_error bytes.now) },
}

impl<'a> Frame<'a> {
    ghost use Rattle.std.specs.Prelude.{◌≡◌, ◌≤◌, ◌-◌, ◌↔◌, length, IsSome, IfSome, IfOk};
    ghost use Rattle.eth_frame.specs.Frame.{IsFrame, frame_of, view};
    ghost use Rattle.eth_frame.specs.Views.{frame_data};

    /// A frame of these parts: `None` if the counter has more than 48 bits, or there are fewer
    /// than 18 or more than 16,383 bytes.
    pub fn new(
        counter: u64,
        crc_error: bool,
        frame_error: bool,
        bytes: &'a [u8],
    ) -> Option<Frame<'a>>
        ensures in_range { IsSome result
            ↔ IsFrame (frame_of counter crc_error frame_error bytes.entry.now) }
        ensures parts { IfSome result (λ frame. frame_data frame
            ≡ frame_of counter crc_error frame_error bytes.entry.now) }
    {
        let fits = (MIN_FRAME_LEN..=MAX_FRAME_LEN).contains(&bytes.len());
        if counter >> COUNTER_BITS != 0 || !fits {
            return None;
        }
        Some(Frame {
            counter,
            crc_error,
            frame_error,
            bytes,
        })
    }

    /// What a filter sees: the bytes without the frame check sequence, 14 to 16,379 of them.
    pub fn view(&self) -> &'a [u8]
        ensures view { result.now ≡ view (frame_data self.now) }
        ensures least { MIN_FRAME_LEN - CHECK_SEQUENCE_LEN ≤ length result.now }
        ensures most { length result.now ≤ MAX_FRAME_LEN - CHECK_SEQUENCE_LEN }
    {
        &self.bytes[..self.bytes.len() - CHECK_SEQUENCE_LEN]
    }

    /// A copy of the frame that owns its bytes.
    pub fn to_owned(&self, alloc: Global) -> Result<OwnedFrame, AllocError>
        ensures same { IfOk result (λ owned. owned ≡ frame_data self.now) }
    {
        OwnedFrame::of(alloc, *self)
    }
}

/// What is kept of a frame beside its bytes: its counter, its two marks and its length.
#[derive(Clone, Copy, Debug)]
pub(crate) struct FrameHead {
    pub counter: u64,
    pub crc_error: bool,
    pub frame_error: bool,
    pub len: usize,
    ghost counter_fits: { counter < 2 ^ 48 },
    ghost long: { MIN_FRAME_LEN ≤ len },
    ghost short: { len ≤ MAX_FRAME_LEN },
}

impl FrameHead {
    ghost use Rattle.std.specs.Prelude.{◌≡◌, length};
    ghost use Rattle.eth_frame.specs.Heads.{headed_frame};
    ghost use Rattle.eth_frame.specs.Views.{frame_data};

    /// The head of a frame.
    pub fn of(frame: &Frame<'_>) -> FrameHead
        ensures counter { result.counter ≡ frame.now.counter }
        ensures crc_error { result.crc_error ≡ frame.now.crc_error }
        ensures frame_error { result.frame_error ≡ frame.now.frame_error }
        ensures len { result.len ≡ length frame.now.bytes.now }
    {
        FrameHead {
            counter: frame.counter,
            crc_error: frame.crc_error,
            frame_error: frame.frame_error,
            len: frame.bytes.len(),
        }
    }

    /// The frame of this head with these bytes, of which there are `len`.
    pub fn with_bytes(self, bytes: &[u8]) -> Frame<'_>
        requires { length bytes.now ≡ self.len }
        ensures same { frame_data result ≡ headed_frame self bytes.now }
    {
        Frame {
            counter: self.counter,
            crc_error: self.crc_error,
            frame_error: self.frame_error,
            bytes,
        }
    }
}
