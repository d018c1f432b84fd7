//! Frames with other counters.

ghost use Rattle.std.specs.Prelude.{◌≡◌, ◌≢◌, ◌≤◌, ◌<◌, ◌^◌, ◌++◌, Err, OnOk, length, take, drop, min};
ghost use Rattle.ch11_packet.specs.Frames.{frame_len};
ghost use Rattle.ch11_packet.specs.FramesRead.{AreFrames, first_reads};
ghost use Rattle.rec_joined.specs.declared.fault.MoveFault.TheVariants.{Gap, Sum, Other as IsOther};
ghost use Rattle.rec_joined.specs.Moving.{moving_of};
ghost use Rattle.rec_joined.specs.MovedFrames.{HaveCounters, moved_bytes};

use crate::fault::MoveFault;
use crate::moves::Moves;
use ch11_packet::first_frame;
use eth_frame::counter_bytes;

/// The number of bytes of a frame's counter.
const COUNTER_LEN: usize = 6;

/// The number of bytes of a body before those of a frame.
const FRAME_HEADER_LEN: usize = 12;

/// Adds the bytes of this many frames, each with its counter in the file.
pub(crate) fn add_moved(
    out: &mut Vec<u8>,
    count: u16,
    bytes: &[u8],
    moves: &Moves,
) -> Result<(), MoveFault>
    requires { ∥ AreFrames count bytes.now ∥₁ }
    ensures bytes { OnOk result (out.new.items
        ≡ out.old.items ++ moved_bytes (moving_of moves.now).counters count bytes.now) }
    ensures fit { OnOk result
        (HaveCounters (moving_of moves.now).counters (first_reads count bytes.now)) }
    ensures gap { result ≡ Err Gap
        → ¬ HaveCounters (moving_of moves.now).counters (first_reads count bytes.now) }
    ensures other { result ≢ Err IsOther }
    ensures sum { result ≢ Err Sum }
{
    let mut left = count;
    let mut rest = bytes;
    'frames: while let Some((frame, _)) = first_frame(left, rest) {
        let Some(counter) = moves.counter(frame.counter) else {
            return Err(MoveFault::Gap);
        };
        let (part, others) = first_part(rest, frame.bytes.len());
        out.extend_from_slice(&counter_bytes(counter))?;
        out.extend_from_slice(part)?;
        rest = others;
        left -= 1;
    }
    Ok(())
}

/// What follows the counter of the first frame, which has `len` bytes, up to its filler; and the other frames.
fn first_part(bytes: &[u8], len: usize) -> (&[u8], &[u8])
    requires long { 6 ≤ length bytes.now }
    requires short { len < 2 ^ 14 }
    ensures part { result.0.now
        ≡ drop COUNTER_LEN (take (min (frame_len len) (length bytes.now)) bytes.now) }
    ensures others { result.1.now ≡ drop (min (frame_len len) (length bytes.now)) bytes.now }
{
    let end = (FRAME_HEADER_LEN + len + len % 2).min(bytes.len());
    let (first, others) = bytes.split_at(end);
    (&first[COUNTER_LEN..], others)
}
