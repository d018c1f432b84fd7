//! The 9 bytes of a feed's record before its frame's bytes, both ways.
ghost use Rattle.std.specs.Prelude.{◌≡◌, IfOk};
ghost use Rattle.std.specs.Result.{result_err};
ghost use Rattle.eth_frame.specs.FeedRecord.{head_bytes, counter_field, marks_field, length_field, has_crc_error, has_frame_error, head_fault, time_in};

use crate::counter::{counter_bytes, counter_of};
use crate::frame::{FrameHead, MAX_FRAME_LEN, MIN_FRAME_LEN};
use crate::source::SourceFault;

/// The number of bytes of a record before the frame's bytes: counter (6), marks (1), length (2).
pub(crate) const HEAD_LEN: usize = 9;

/// The bit of the marks that reports a wrong check sequence.
const CRC_ERROR: u8 = 1;

/// The bit of the marks that reports another fault.
const FRAME_ERROR: u8 = 2;

/// The greatest byte of marks: both bits are set.
pub(crate) const MAX_MARKS: u8 = CRC_ERROR + FRAME_ERROR;

/// The bytes of a head, the lowest byte of each number first.
pub(crate) fn encode_head(head: FrameHead) -> [u8; HEAD_LEN]
    ensures bytes { result
        ≡ head_bytes head.counter head.crc_error head.frame_error head.len }
{
    let [c0, c1, c2, c3, c4, c5] = counter_bytes(head.counter);
    let crc_error = if head.crc_error { CRC_ERROR } else { 0 };
    let frame_error = if head.frame_error { FRAME_ERROR } else { 0 };
    let [low, high] = (head.len as u16).to_le_bytes();
    [c0, c1, c2, c3, c4, c5, crc_error + frame_error, low, high]
}

/// The counter of the time mark that these bytes are: a head with marks 0 and length 0.
pub(crate) fn time_of(bytes: &[u8; HEAD_LEN]) -> Option<u64>
    ensures { result ≡ time_in bytes.now }
{
    let [c0, c1, c2, c3, c4, c5, marks, low, high] = *bytes;
    let len = u16::from_le_bytes([low, high]);
    if len == 0 && marks == 0 {
        Some(counter_of([c0, c1, c2, c3, c4, c5]))
    } else {
        None
    }
}

/// The head of these bytes, or the first fault: the length, then the marks.
pub(crate) fn decode_head(bytes: &[u8; HEAD_LEN]) -> Result<FrameHead, SourceFault>
    // At Ok.
    ensures counter { IfOk result (λ head. head.counter ≡ counter_field bytes.now) }
    ensures crc_error { IfOk result (λ head.
        head.crc_error ≡ has_crc_error (marks_field bytes.now)) }
    ensures frame_error { IfOk result (λ head.
        head.frame_error ≡ has_frame_error (marks_field bytes.now)) }
    ensures len { IfOk result (λ head. head.len ≡ length_field bytes.now) }

    // At a fault.
    ensures fault { result_err result ≡ head_fault bytes.now }
{
    let [c0, c1, c2, c3, c4, c5, marks, low, high] = *bytes;
    let len = usize::from(u16::from_le_bytes([low, high]));
    if len < MIN_FRAME_LEN || len > MAX_FRAME_LEN {
        return Err(SourceFault::Length);
    }
    if marks > MAX_MARKS {
        return Err(SourceFault::Marks);
    }
    Ok(FrameHead {
        counter: counter_of([c0, c1, c2, c3, c4, c5]),
        crc_error: marks & CRC_ERROR != 0,
        frame_error: marks & FRAME_ERROR != 0,
        len,
    })
}
