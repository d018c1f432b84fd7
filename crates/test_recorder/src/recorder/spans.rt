//! Raced recordings whose packets have a span, read again packet by packet.

use super::parts::*;
use crate::shared::settings;
use ch11_packet::{MIN_LIMIT, What};
use eth_frame::{Frame, FrameBuf, FrameSource, Next, SourceFault};
use rec_lane::LaneSpec;
use rec_reader::read_recording;
use rec_run::*;
use std::alloc::Global;
use std::sync::Arc;
use std::test::Fail;
use test_samples::{assert_same, program};

/// Accepts each frame.
const ACCEPT: &str = "1,6 0 0 1,";

/// How many items a source gives: every fourth is a time mark, the others are frames.
const ITEMS: u64 = 4_000;

/// Counters are below this.
const TURN: u64 = 1 << 48;

/// The channels, each with its span and how much later each item is than the one before.
const CHANNELS: [(u16, u64, u64); 3] = [(1, 100, 7), (2, 1, 1), (300, 1 << 40, (1 << 32) + 1)];

/// A frame of the least length.
const SHORT: [u8; 18] = [0; 18];

/// Settings of a channel with a span.
fn with_span(channel: u16, span: u64) -> Result<LaneSpec, Fail> {
    if span == 0 || span >= TURN {
        return Err("a span in range".into());
    }
    Ok(settings(channel, MIN_LIMIT)?.with_span(span))
}

/// A source of frames and time marks, whose counters go round.
#[derive(Drop)]
struct Items {
    at: u64,
    step: u64,
    ended: bool,
}

/// The counter of an item.
fn counter_at(at: u64, step: u64) -> u64 {
    (TURN - 1_000).wrapping_add(at.wrapping_mul(step)) % TURN
}

/// Whether an item is a time mark.
fn is_mark(at: u64) -> bool {
    at % 4 == 3
}

impl FrameSource for Items {
    ghost use Rattle.std.specs.Prelude.{if◌then◌else◌, None, Some};
    ghost use Rattle.eth_frame.specs.declared.source.SourceEnding.TheVariants.{End};

    ghost left = { λ s. None };

    ghost failures = { λ s. 0 };

    ghost ending = { λ s. if s.ended then Some End else None };

    ghost nothing_left = { λ s last e. tt };

    ghost device_failed = { λ s. tt };

    fn next(&mut self, buffer: &mut FrameBuf) -> Result<Next, SourceFault> {
        buffer.clear();
        if self.ended || self.at >= ITEMS {
            self.ended = true;
            return Ok(Next::End);
        }
        let at = self.at;
        self.at = at.saturating_add(1);
        let counter = counter_at(at, self.step);
        if is_mark(at) {
            return Ok(Next::Time(counter));
        }
        let Some(frame) = Frame::new(counter, false, false, &SHORT) else {
            self.ended = true;
            return Ok(Next::End);
        };
        buffer.put(frame);
        Ok(Next::Frame)
    }
}

/// The packets of a channel whose versions have these marks: the counter of the first frame of each, and
/// how many frames it has.
fn expected(alloc: Global, span: u64, step: u64, marks: &[u64]) -> Result<Vec<(u64, u16)>, Fail> {
    let mut packets = Vec::new(alloc);
    let mut open: Option<(u64, u16)> = None;
    let mut number = 0u64;
    for at in 0..ITEMS {
        let counter = counter_at(at, step);
        let is_due = open.is_some_and(|(first, _)| counter.wrapping_sub(first) % TURN >= span);
        let begins = !is_mark(at) && marks.contains(&number);
        if is_due || begins {
            if let Some(packet) = open.take() {
                packets.push(packet)?;
            }
        }
        if !is_mark(at) {
            open = Some(match open {
                None => (counter, 1),
                Some((first, count)) => (first, count.saturating_add(1)),
            });
            number = number.saturating_add(1);
        }
    }
    if let Some(packet) = open {
        packets.push(packet)?;
    }
    Ok(packets)
}

/// The packets of a channel that are read.
fn found(alloc: Global, bytes: &[u8], channel: u16) -> Result<Vec<(u64, u16)>, Fail> {
    let Ok(recording) = read_recording(alloc, bytes) else {
        return Err("a recording that is read".into());
    };
    let mut packets = Vec::new(alloc);
    for packet in &recording.packets {
        if let What::Frames(count) = packet.what {
            if packet.header.channel == channel {
                packets.push((packet.header.counter, count))?;
            }
        }
    }
    Ok(packets)
}

/// Three channels record 3,000 frames each through rings for one piece, while one gets 40 changes.
#[test]
fn packets_are_cut_by_their_age_whatever_the_race(rt: HostRuntime) -> Result<(), Fail> {
    let alloc = rt.alloc();
    for _ in 0..5 {
        let marks = fresh_marks(alloc)?;
        let mut jobs = Vec::new(alloc);
        for &(channel, span, step) in &CHANNELS {
            let source = Items {
                at: 0,
                step,
                ended: false,
            };
            jobs.push(Job {
                spec: with_span(channel, span)?,
                program: program(alloc, ACCEPT)?,
                max: u64::MAX,
                source,
            })?;
        }
        let mut steps = Vec::new(alloc);
        for _ in 0..40 {
            steps.push(change(alloc, 1, ACCEPT, NONE)?)?;
        }
        let control = fresh_script(alloc, Arc::try_clone(&marks)?, steps, NONE);
        if !jobs_ok(jobs.as_slice()) {
            return Err("jobs that may be recorded".into());
        }
        let out = output(alloc, marks, usize::MAX);
        let Ok(done) = record(&rt, alloc, jobs, 1, 8, control, out) else {
            return Err("a recording that ends".into());
        };
        for (report, (channel, span, step)) in done.report.channels.iter().zip(CHANNELS) {
            let packets = expected(alloc, span, step, report.marks.as_slice())?;
            let read = found(alloc, done.out.output.bytes.as_slice(), channel)?;
            assert_same!(rt; read == packets, true, "channel {channel}");
            assert_same!(rt; report.offered, ITEMS / 4 * 3);
        }
    }
    Ok(())
}
