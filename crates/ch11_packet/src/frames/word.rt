//! The words of a body of Ethernet data: where its fields lie, and how long a frame is in it.
ghost use Rattle.std.specs.Prelude.{◌≡◌, ◌^◌, ◌<◌};
ghost use Rattle.ch11_packet.specs.Frames.{frame_len};

/// The number of bytes of the word that a body of Ethernet data begins with.
pub(crate) const BODY_WORD_LEN: usize = 4;

/// The number of bits of the number of frames, the lowest of that word.
pub(crate) const COUNT_BITS: u32 = 16;

/// The lowest bit of the format, whose four bits are the highest of that word.
pub(crate) const FORMAT_BIT: u32 = 28;

/// The number of bytes of a body before a frame's bytes: counter (6), zero (2), frame's word (4).
pub(crate) const FRAME_HEADER_LEN: usize = 12;

/// The number of bits of a frame's length in its word.
pub(crate) const LENGTH_BITS: u32 = 14;

/// The number of bits of the speed, from the lowest of the word's highest byte on.
pub(crate) const SPEED_BITS: u32 = 4;

/// The greatest speed of a frame's channel, a number of 4 bits.
pub const MAX_SPEED: u8 = (1 << SPEED_BITS) - 1;

/// The number of bits of the content, which follow those of the speed.
pub(crate) const CONTENT_BITS: u32 = 2;

/// The bit of the word's highest byte that reports a wrong check sequence.
pub(crate) const CRC_ERROR: u8 = 0x80;

/// The bit of the word's highest byte that reports another fault.
pub(crate) const FRAME_ERROR: u8 = 0x40;

/// The number of bytes of a body that a frame of `len` bytes takes: its header, its bytes, and one
/// of filler if their number is odd.
pub(crate) fn frame_len(len: usize) -> usize
    requires { frame_len len < 2 ^ 64 }
    ensures { result ≡ frame_len len }
{
    FRAME_HEADER_LEN + len + len % 2
}
