//! How a feed is written.
ghost use Rattle.std.specs.Prelude.{OnOk};
ghost use Rattle.std.specs.Io.KnownBytes.{Appends};
ghost use Rattle.eth_frame.specs.FeedRecord.{feed_record};
ghost use Rattle.eth_frame.specs.Views.{frame_data};

use crate::feed::head::encode_head;
use crate::frame::{Frame, FrameHead};
use std::io::Write;
use thiserror::Error;

/// Why a frame's record was not written.
#[derive(Clone, Copy, Debug, PartialEq, Eq, Error)]
pub enum FeedWriteFault {
    /// The output failed, or took no more bytes.
    #[error("Device")]
    Device,
}

/// Writes a frame's record at the end of a feed. After a fault it isn't known how much of the
/// record was written. The output is not flushed.
pub fn write_feed<W: Write>(frame: &Frame<'_>, out: &mut W) -> Result<(), FeedWriteFault>
    ensures appended { OnOk result
        (Appends (W.contents out.old) (W.contents out.new) (feed_record (frame_data frame.now))) }
{
    let head = encode_head(FrameHead::of(frame));
    out.write_all(&head).map_err(|_| FeedWriteFault::Device)?;
    out.write_all(frame.bytes)
        .map_err(|_| FeedWriteFault::Device)
}
