//! What several tests share: drawn programs and frames, and the lane and the slot of a channel.

ghost use Rattle.std.specs.Prelude.{◌≤◌};

use crate::draws::Draws;
use crate::pieces::{Channel, PlainFrame, PlainVersion};
use bpf_verify::Verified;
use ch11_packet::Limit;
use eth_frame::{Frame, MAX_FRAME_LEN};
use rec_channel::Slot;
use rec_lane::{Lane, LaneSpec, Piece};
use std::alloc::Global;
use std::sync::Arc;
use std::test::Fail;
use test_samples::program;

/// The programs of these listings.
pub(crate) fn programs(
    alloc: Global,
    listings: &[&str],
) -> Result<Vec<Arc<Verified, Global>>, Fail> {
    let mut programs = Vec::new(alloc);
    for listing in listings {
        programs.push(program(alloc, listing)?)?;
    }
    Ok(programs)
}

/// One of these programs.
pub(crate) fn drawn_program(
    draws: &mut Draws,
    programs: &[Arc<Verified, Global>],
) -> Result<Arc<Verified, Global>, Fail> {
    let at = usize::from(draws.below(255)) % programs.len().max(1);
    Ok(Arc::try_clone(programs.get(at).ok_or("a program")?)?)
}

/// A version of the program with this listing.
pub(crate) fn version(alloc: Global, mark: usize, listing: &str) -> Result<PlainVersion, Fail> {
    Ok(PlainVersion {
        mark,
        program: program(alloc, listing)?,
    })
}

/// One of these lengths.
pub(crate) fn drawn_length(draws: &mut Draws, lengths: &[usize]) -> Result<usize, Fail> {
    let at = usize::from(draws.below(255)) % lengths.len().max(1);
    Ok(lengths.get(at).copied().ok_or("a length")?)
}

/// A frame of drawn bytes, with a drawn counter and drawn marks.
pub(crate) fn drawn_frame(alloc: Global, draws: &mut Draws, len: usize) -> Result<PlainFrame, Fail>
    requires { len ≤ MAX_FRAME_LEN }
{
    let mut counter = [0u8; 8];
    for byte in counter[..6].iter_mut() {
        *byte = draws.below(255);
    }
    let mut bytes = vec![in alloc; 0u8; len]?;
    for byte in bytes.iter_mut() {
        *byte = draws.below(255);
    }
    Ok(PlainFrame {
        counter: u64::from_le_bytes(counter),
        crc_error: draws.below(4) == 0,
        frame_error: draws.below(4) == 0,
        bytes,
        times: Vec::new(alloc),
    })
}

/// The settings of a channel's lane.
pub(crate) fn lane_spec(channel: Channel) -> Result<LaneSpec, Fail> {
    let limit = Limit::new(u32::try_from(channel.limit)?).ok_or("a limit in range")?;
    let spec = LaneSpec::new(channel.id, channel.net, channel.speed, limit);
    let spec = spec.ok_or("settings in range")?;
    Ok(match channel.span {
        Some(span) if span > 0 && span < 1 << 48 => spec.with_span(span),
        _ => spec,
    })
}

/// The frame with these parts, which are in range.
pub(crate) fn frame_of(frame: &PlainFrame) -> Result<Frame<'_>, Fail> {
    let bytes = frame.bytes.as_slice();
    let frame = Frame::new(frame.counter, frame.crc_error, frame.frame_error, bytes);
    Ok(frame.ok_or("a frame in range")?)
}

/// Draws a frame from the slot and offers it to the lane; what the filter returned.
pub(crate) fn offer(
    lane: &mut Lane,
    slot: &mut Slot,
    frame: &PlainFrame,
    given: &mut Vec<Piece>,
) -> Result<u32, Fail> {
    let frame = frame_of(frame)?;
    lane.ready()?;
    let drawn = slot.draw()?;
    if drawn.number != lane.offered() {
        return Err("the number of the lane's next frame".into());
    }
    let offered = lane.offer(&frame, drawn);
    for piece in offered.pieces {
        given.push(piece)?;
    }
    Ok(offered.value)
}
