//! Whole recordings from feeds in memory into an output that keeps nothing.

use crate::clock::{Clock, Work, print};
use crate::words::number;
use anyhow::{Context, Result, bail};
use bpf_insn::parse_listing;
use bpf_verify::verify;
use ch11_packet::Limit;
use eth_frame::{FeedSource, Frame, write_feed};
use rec_lane::LaneSpec;
use rec_run::{Job, jobs_ok, record};
use std::alloc::Global;
use std::io::{self, Read, Write};
use std::sync::{Arc, Wait};
use std::thread::Threads;
use test_samples::NoChanges;

/// A filter that keeps each frame, and one that keeps none.
const KEEPS: &str = "1,6 0 0 1,";

const DROPS: &str = "1,6 0 0 0,";

/// A feed that has the same record over and over.
#[derive(Drop)]
struct Repeated {
    record: Vec<u8>,
    at: usize,
    left: u64,
}

impl Read for Repeated {
    fn read(&mut self, buf: &mut [u8]) -> io::Result<usize> {
        if self.left == 0 {
            return Ok(0);
        }
        let rest = self.record.get(self.at..).unwrap_or(&[]);
        let count = rest.len().min(buf.len());
        buf[..count].copy_from_slice(&rest[..count]);
        self.at += count;
        if self.at == self.record.len() {
            self.at = 0;
            self.left -= 1;
        }
        Ok(count)
    }
}

/// An output that counts its bytes and drops them.
#[derive(Drop)]
struct Counted {
    bytes: u64,
}

impl Write for Counted {
    fn write(&mut self, buf: &[u8]) -> io::Result<usize> {
        self.bytes = self.bytes.saturating_add(buf.len() as u64);
        Ok(buf.len())
    }

    fn flush(&mut self) -> io::Result<()> {
        Ok(())
    }
}

/// How many bytes a recording of two channels with 100 frames each has.
pub(crate) fn self_check<R: Threads + Wait + Sync>(rt: &R, alloc: Global) -> Result<u64> {
    run(rt, alloc, KEEPS, 2, 300, 100)
}

/// `recorder CHANNELS LENGTH FRAMES`: recordings of that many channels with that many frames of that
/// length each, kept and dropped; nanoseconds a frame of all channels.
pub(crate) fn measure<R: Threads + Wait + Sync>(
    rt: &HostRuntime,
    threads: &R,
    words: &[String],
) -> Result<()> {
    let channels = number(words, 0)?;
    let length = number(words, 1)? as usize;
    let frames = number(words, 2)?;
    for (name, listing) in [("recorder.kept", KEEPS), ("recorder.dropped", DROPS)] {
        let clock = Clock::start(rt)?;
        let sum = run(threads, rt.alloc(), listing, channels, length, frames)?;
        let nanos = clock.nanos(rt)?;
        let work = Work {
            name,
            bytes: length,
            count: frames.saturating_mul(channels),
            sum,
        };
        print(rt, work, nanos)?;
    }
    Ok(())
}

/// Records that many channels, and tells how many bytes the recording has.
fn run<R: Threads + Wait + Sync>(
    rt: &R,
    alloc: Global,
    listing: &str,
    channels: u64,
    length: usize,
    frames: u64,
) -> Result<u64> {
    let mut jobs = Vec::new(alloc);
    for channel in 0..channels.min(64) {
        jobs.push(job(alloc, listing, channel as u16 + 1, length, frames)?)?;
    }
    if !jobs_ok(jobs.as_slice()) {
        bail!("1 to 64 channels");
    }
    let control = NoChanges::new(alloc);
    match record(rt, alloc, jobs, 64, 8, control, Counted { bytes: 0 }) {
        Ok(done) => Ok(done.report.bytes),
        Err(_) => bail!("a recording that did not end"),
    }
}

/// A job over a feed of the same frame.
fn job(
    alloc: Global,
    listing: &str,
    channel: u16,
    length: usize,
    frames: u64,
) -> Result<Job<FeedSource<Repeated>>> {
    let bytes = [0x5a; 16_383];
    let bytes = bytes.get(..length).context("a length of at most 16383")?;
    let frame = Frame::new(16, false, false, bytes).context("a frame")?;
    let mut one = Vec::new(alloc);
    write_feed(&frame, &mut one)?;
    let program = verify(parse_listing(alloc, listing)?)
        .ok()
        .context("a valid program")?;
    let limit = Limit::new(65_536).context("a limit")?;
    Ok(Job {
        spec: LaneSpec::new(channel, 0, 3, limit).context("a lane's settings")?,
        program: Arc::new(alloc, program)?,
        max: u64::MAX,
        source: FeedSource::new(Repeated {
            record: one,
            at: 0,
            left: frames,
        }),
    })
}
