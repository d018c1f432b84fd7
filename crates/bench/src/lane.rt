//! The lane's offer of frames that are kept and that are dropped, and what it stands on.

use crate::clock::{Clock, Work, print};
use crate::words::number;
use anyhow::{Context, Result, bail};
use bpf_insn::parse_listing;
use bpf_machine::run;
use bpf_verify::{Verified, verify};
use ch11_packet::Limit;
use eth_frame::Frame;
use rec_channel::Slot;
use rec_lane::{Lane, LaneSpec, Piece};
use std::sync::Arc;

/// A filter that keeps each frame, and one that keeps none.
const KEEPS: &str = "1,6 0 0 1,";

const DROPS: &str = "1,6 0 0 0,";

/// How many of a hundred frames were kept.
pub(crate) fn self_check(rt: &HostRuntime) -> Result<u64> {
    let frame = Frame::new(16, false, false, &[0x5a; 300]).context("a frame")?;
    offer_all(rt, KEEPS, &frame, 100)
}

/// `lane LENGTH FRAMES`: draws and offers of that many frames of that length, kept and dropped; the
/// draws, the filter's runs and copies of as many bytes by themselves.
pub(crate) fn measure(rt: &HostRuntime, words: &[String]) -> Result<()> {
    let length = number(words, 0)? as usize;
    let frames = number(words, 1)?;
    let bytes = [0x5a; 16_383];
    let bytes = bytes.get(..length).context("a length of at most 16383")?;
    let frame = Frame::new(16, false, false, bytes).context("a frame")?;
    for (name, listing) in [("lane.kept", KEEPS), ("lane.dropped", DROPS)] {
        let clock = Clock::start(rt)?;
        let sum = offer_all(rt, listing, &frame, frames)?;
        print_time(rt, &clock, name, length, frames, sum)?;
    }
    let clock = Clock::start(rt)?;
    let sum = draw_all(rt, frames)?;
    print_time(rt, &clock, "lane.draw", 0, frames, sum)?;
    let program = program(rt, KEEPS)?;
    let clock = Clock::start(rt)?;
    let sum = run_all(&program, &frame, frames);
    print_time(rt, &clock, "lane.run", length, frames, sum)?;
    let mut room = Vec::with_capacity(rt.alloc(), 65_536)?;
    let clock = Clock::start(rt)?;
    let sum = copy_all(&mut room, bytes, frames)?;
    print_time(rt, &clock, "lane.copy", length, frames, sum)
}

fn print_time(
    rt: &HostRuntime,
    clock: &Clock,
    name: &str,
    bytes: usize,
    count: u64,
    sum: u64,
) -> Result<()> {
    let nanos = clock.nanos(rt)?;
    let work = Work {
        name,
        bytes,
        count,
        sum,
    };
    print(rt, work, nanos)
}

fn program(rt: &HostRuntime, listing: &str) -> Result<Verified> {
    let listing = parse_listing(rt.alloc(), listing)?;
    verify(listing).ok().context("a valid program")
}

fn slot_of(rt: &HostRuntime, listing: &str, max: u64) -> Result<Slot> {
    let program = Arc::new(rt.alloc(), program(rt, listing)?)?;
    Ok(Slot::new(rt.alloc(), program, max)?)
}

/// Draws and offers a frame that many times, with the packets' buffers given back; how many were
/// kept.
fn offer_all(rt: &HostRuntime, listing: &str, frame: &Frame<'_>, frames: u64) -> Result<u64> {
    let mut slot = slot_of(rt, listing, frames)?;
    let limit = Limit::new(65_536).context("a limit")?;
    let spec = LaneSpec::new(1, 0, 3, limit).context("a lane's settings")?;
    let mut lane = Lane::new(rt.alloc(), spec)?;
    for _ in 0..frames {
        lane.ready()?;
        let drawn = slot.draw()?;
        if drawn.number != lane.offered() {
            bail!("a frame of another number");
        }
        let offered = lane.offer(frame, drawn);
        if offered.pieces.is_empty() {
            continue;
        }
        for piece in offered.pieces {
            if let Piece::Data(data) = piece {
                lane.give(data.body.reuse());
            }
        }
    }
    Ok(lane.kept())
}

/// The sum of the numbers of that many draws.
fn draw_all(rt: &HostRuntime, frames: u64) -> Result<u64> {
    let mut slot = slot_of(rt, KEEPS, frames)?;
    let mut sum = 0u64;
    for _ in 0..frames {
        sum = sum.wrapping_add(slot.draw()?.number);
    }
    Ok(sum)
}

/// The sum of the values of that many runs.
fn run_all(program: &Verified, frame: &Frame<'_>, frames: u64) -> u64 {
    let mut sum = 0u64;
    for _ in 0..frames {
        sum = sum.wrapping_add(u64::from(run(program, frame.view()).value));
    }
    sum
}

/// Copies the bytes that many times, into a buffer that is emptied when it is full.
fn copy_all(room: &mut Vec<u8>, bytes: &[u8], copies: u64) -> Result<u64> {
    let mut sum = 0u64;
    for _ in 0..copies {
        if room.capacity() - room.len() < bytes.len() {
            sum = sum.wrapping_add(room.len() as u64);
            room.clear();
        }
        room.extend_from_slice(bytes)?;
    }
    Ok(sum.wrapping_add(room.len() as u64))
}
