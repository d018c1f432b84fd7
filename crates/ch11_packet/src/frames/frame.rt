//! A frame that is read.
ghost use Rattle.ch11_packet.specs.FramesRead.{read_frame_of, IsReadFrame};

use eth_frame::Frame;

/// A frame that was found in a body of Ethernet data (IRIG 106-17 Chapter 11, Ethernet Data
/// Packets, Format 0), with what its header says. Its bytes are borrowed from the body.
#[derive(Clone, Copy, Debug, PartialEq, Eq)]
pub struct ReadFrame<'a> {
    /// The counter's value at the frame, below 2^48.
    pub counter: u64,
    /// Whether the frame came with a wrong check sequence.
    pub crc_error: bool,
    /// Whether the frame came with another fault.
    pub frame_error: bool,
    /// The network identifier.
    pub net: u8,
    /// The speed, a number of 4 bits.
    pub speed: u8,
    /// What the bytes are, a number of 2 bits. 0 is a frame with its check sequence.
    pub content: u8,
    /// The bytes, 0 to 16,383.
    pub bytes: &'a [u8],
    pub ghost in_range: { IsReadFrame
        (read_frame_of counter crc_error frame_error net speed content bytes.now) },
}

impl<'a> ReadFrame<'a> {
    ghost use Rattle.std.specs.Prelude.{◌≡◌, ◌≤◌, ◌↔◌, IsSome, IfSome, length};
    ghost use Rattle.eth_frame.specs.declared.frame.TheConstants.{MIN_FRAME_LEN};
    ghost use Rattle.eth_frame.specs.Views.{frame_data};
    ghost use Rattle.ch11_packet.specs.FramesRead.{frame_in};
    ghost use Rattle.ch11_packet.specs.Views.{read_frame_data};

    /// The frame with its check sequence: `None` if the content isn't 0, or there are fewer than 18
    /// bytes.
    pub fn frame(&self) -> Option<Frame<'a>>
        ensures whole { IsSome result
            ↔ ((self.now.content ≡ 0) × (MIN_FRAME_LEN ≤ length self.now.bytes.now)) }
        ensures parts { IfSome result (λ frame. frame_data frame
            ≡ frame_in (read_frame_data self.now)) }
    {
        if self.content != 0 {
            return None;
        }
        Frame::new(self.counter, self.crc_error, self.frame_error, self.bytes)
    }
}
