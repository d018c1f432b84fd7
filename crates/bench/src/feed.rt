//! The feed's reader over a file.

use crate::clock::{Clock, Work, print};
use crate::words::{number, word};
use anyhow::{Context, Result};
use eth_frame::{FeedSource, Frame, FrameBuf, FrameSource, Next, write_feed};
use std::fs;
use std::io::{BufReader, BufWriter, Read, Write};

/// The bytes of the reader's own buffer.
const CAPACITY: usize = 65_536;

/// The sum of the counters of a small feed in memory.
pub(crate) fn self_check(rt: &HostRuntime) -> Result<u64> {
    let mut feed = Vec::new(rt.alloc());
    write_frames(&mut feed, 100, &[0x5a; 60])?;
    sum_of(feed.as_slice())
}

/// `feed FILE LENGTH FRAMES`: writes a feed of that many frames of that length into the file, and
/// reads it back four times.
pub(crate) fn measure(rt: &HostRuntime, words: &[String]) -> Result<()> {
    let file = word(words, 0)?;
    let length = number(words, 1)? as usize;
    let frames = number(words, 2)?;
    let bytes = vec![in rt.alloc(); 0x5a_u8; length]?;
    let mut out = BufWriter::with_capacity(rt.alloc(), CAPACITY, fs::create(rt, file)?)?;
    write_frames(&mut out, frames, bytes.as_slice())?;
    out.flush()?;
    for _ in 0..4 {
        let feed = BufReader::with_capacity(rt.alloc(), CAPACITY, fs::open(rt, file)?)?;
        let clock = Clock::start(rt)?;
        let sum = sum_of(feed)?;
        let nanos = clock.nanos(rt)?;
        let work = Work {
            name: "feed.frame",
            bytes: length,
            count: frames,
            sum,
        };
        print(rt, work, nanos)?;
    }
    Ok(())
}

/// Writes `frames` frames of these bytes, with the counters from 0 on.
fn write_frames<W: Write>(out: &mut W, frames: u64, bytes: &[u8]) -> Result<()> {
    for counter in 0..frames {
        let frame = Frame::new(counter, false, false, bytes).context("no frame has this length")?;
        write_feed(&frame, out)?;
    }
    Ok(())
}

/// The sum of a feed's counters, modulo 2^64.
fn sum_of<R: Read + Drop>(reader: R) -> Result<u64> {
    let mut source = FeedSource::new(reader);
    let mut buffer = FrameBuf::new();
    let mut sum = 0u64;
    for _ in 0..u64::MAX {
        if source.next(&mut buffer)? == Next::End {
            break;
        }
        if let Some(frame) = buffer.frame() {
            sum = sum.wrapping_add(frame.counter);
        }
    }
    Ok(sum)
}
