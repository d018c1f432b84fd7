//! A frame that owns its bytes.
use crate::frame::{Frame, FrameHead};
use std::alloc::{AllocError, Global};
use std::marker::Model;

/// A frame that owns its bytes.
#[derive(Debug, Drop)]
pub struct OwnedFrame {
    head: FrameHead,
    bytes: Vec<u8>,
}

impl Model for OwnedFrame {
    ghost use Rattle.eth_frame.specs.Frame.{FrameData};
    ghost use Rattle.eth_frame.specs.Heads.{headed_frame, IsOwned};

    ghost Value = { FrameData };

    ghost view = { λ f. headed_frame f.head f.bytes.items };

    ghost invariant = { λ f. IsOwned f.head f.bytes.items };
}

impl OwnedFrame {
    ghost use Rattle.std.specs.Prelude.{◌≡◌, IfOk};
    ghost use Rattle.eth_frame.specs.Views.{frame_data};

    pub(crate) fn of(alloc: Global, frame: Frame<'_>) -> Result<OwnedFrame, AllocError>
        ensures same { IfOk result (λ owned. owned ≡ frame_data frame.entry) }
    {
        let bytes = Vec::from_slice(alloc, frame.bytes)?;
        let head = FrameHead::of(&frame);
        Ok(OwnedFrame { head, bytes })
    }

    /// The frame, whose bytes are borrowed from this one.
    pub fn frame(&self) -> Frame<'_>
        ensures same { frame_data result ≡ self.now }
    {
        self.head.with_bytes(self.bytes.as_slice())
    }
}
