//! Lanes with a span beside the slow reader, on drawn frames and time marks under several versions.

use super::lane::{drawn_marks, first_difference, install_at, new_slot, ten_versions};
use crate::draws::Draws;
use crate::pieces::{Channel, PlainFrame, PlainVersion, all_pieces, pieces_so_far};
use crate::shared::{drawn_frame, drawn_length, lane_spec, offer};
use eth_frame::MAX_FRAME_LEN;
use rec_channel::Slot;
use rec_lane::{Lane, Piece};
use std::alloc::Global;
use std::process::Abort;
use std::test::Fail;
use test_samples::assert_same;

/// Lengths of which a packet of the least limit has room for many, for few, and for one.
const LENGTHS: [usize; 6] = [18, 19, 64, 1_500, 8_190, 16_383];

/// How many frames a channel is offered.
const FRAMES: usize = 96;

/// The least span, the greatest, and some between.
const SPANS: [u64; 5] = [1, 10, 1_000_000, 1 << 47, (1 << 48) - 1];

#[test]
fn pieces_with_a_span_agree(rt: HostRuntime) -> Result<(), Fail> {
    let mut packets = 0usize;
    for (seed, span) in SPANS.iter().enumerate() {
        let drawn = compare(&rt, rt.alloc(), seed as u64, Some(*span), *span)?;
        packets = packets.saturating_add(drawn);
    }
    assert!(rt; packets > 60, "{packets} packets");
    Ok(())
}

/// Where there is no span, time marks change nothing.
#[test]
fn pieces_without_a_span_agree(rt: HostRuntime) -> Result<(), Fail> {
    let _packets = compare(&rt, rt.alloc(), 9, None, 10)?;
    Ok(())
}

/// A lane, what was offered to it, and the pieces that it gave.
#[derive(Drop)]
struct Compared {
    channel: Channel,
    versions: Vec<PlainVersion>,
    lane: Lane,
    slot: Slot,
    frames: Vec<PlainFrame>,
    given: Vec<Piece>,
}

impl Compared {
    fn new(alloc: Global, channel: Channel, draws: &mut Draws) -> Result<Compared, Fail> {
        let versions = ten_versions(alloc, drawn_marks(draws))?;
        Ok(Compared {
            channel,
            lane: Lane::new(alloc, lane_spec(channel)?)?,
            slot: new_slot(alloc, versions.as_slice())?,
            versions,
            frames: Vec::new(alloc),
            given: Vec::new(alloc),
        })
    }

    /// Offers a frame, ahead of which versions are installed.
    fn take(&mut self, frame: PlainFrame) -> Result<(), Fail> {
        let number = self.frames.len();
        install_at(&mut self.slot, self.versions.as_slice(), number)?;
        offer(&mut self.lane, &mut self.slot, &frame, &mut self.given)?;
        self.frames.push(frame)?;
        Ok(())
    }

    /// Gives a time mark, which is one after the last frame.
    fn meet_time(&mut self, counter: u64) -> Result<(), Fail> {
        self.lane.ready()?;
        if let Some(packet) = self.lane.at(counter) {
            self.given.push(Piece::Data(packet))?;
        }
        if let Some(frame) = self.frames.last_mut() {
            frame.times.push(counter)?;
        }
        Ok(())
    }

    /// Stops unless the pieces are those that are certain by now.
    fn check(&self, rt: &impl Abort, alloc: Global) -> Result<(), Fail> {
        let (frames, versions) = (self.frames.as_slice(), self.versions.as_slice());
        let read = pieces_so_far(alloc, self.channel, frames, versions)?;
        let difference = first_difference(self.given.as_slice(), read.as_slice());
        assert_same!(*rt; difference, None, "after {} frames", frames.len());
        Ok(())
    }

    /// Stops unless they are all pieces, with the last ones; how many they are.
    fn end(self, rt: &impl Abort, alloc: Global) -> Result<usize, Fail> {
        let Compared {
            channel,
            versions,
            lane,
            frames,
            mut given,
            ..
        } = self;
        for piece in lane.end() {
            given.push(piece)?;
        }
        let read = all_pieces(alloc, channel, frames.as_slice(), versions.as_slice())?;
        let difference = first_difference(given.as_slice(), read.as_slice());
        assert_same!(*rt; difference, None, "at the end");
        Ok(given.len())
    }
}

/// Offers drawn frames and time marks to a lane, and stops unless its pieces are those that are read,
/// after each of them and at the end. How many pieces there are.
fn compare(
    rt: &impl Abort,
    alloc: Global,
    seed: u64,
    span: Option<u64>,
    scale: u64,
) -> Result<usize, Fail> {
    let channel = Channel {
        id: 300,
        limit: 16_424,
        net: 0xa7,
        speed: 0xb,
        span,
    };
    let mut draws = Draws::from_seed(seed);
    let mut compared = Compared::new(alloc, channel, &mut draws)?;
    let mut counter = (1 << 48) - 3;
    for _ in 0..FRAMES {
        counter = later(&mut draws, counter, scale);
        compared.take(frame_at(alloc, &mut draws, counter)?)?;
        compared.check(rt, alloc)?;
        for _ in 0..draws.below(3) {
            counter = later(&mut draws, counter, scale);
            compared.meet_time(counter)?;
            compared.check(rt, alloc)?;
        }
    }
    compared.end(rt, alloc)
}

/// A counter that is as late, a little later, about a span later, or earlier.
fn later(draws: &mut Draws, counter: u64, scale: u64) -> u64 {
    let step = match draws.below(10) {
        0 | 1 => 0,
        2 | 3 => 1,
        4 => scale / 3,
        5 => scale / 2,
        6 => scale.wrapping_sub(1),
        7 => scale,
        8 => scale.wrapping_add(1),
        _ => scale.wrapping_neg(),
    };
    counter.wrapping_add(step) % (1 << 48)
}

/// A drawn frame with this counter.
fn frame_at(alloc: Global, draws: &mut Draws, counter: u64) -> Result<PlainFrame, Fail> {
    let len = drawn_length(draws, &LENGTHS)?;
    let mut frame = drawn_frame(alloc, draws, len.min(MAX_FRAME_LEN))?;
    frame.counter = counter;
    Ok(frame)
}
