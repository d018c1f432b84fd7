//! Bodies of frames, built and read, and headers, written and read.

use crate::clock::{Clock, Work, print};
use crate::words::number;
use anyhow::{Context, Result, bail};
use ch11_packet::{DataBody, DataBuilder, ETHERNET_DATA, Header, Limit, MIN_LIMIT, decode_frames};
use eth_frame::{Frame, MAX_FRAME_LEN, MIN_FRAME_LEN};

/// How many headers are timed.
const HEADERS: u32 = 1_000_000;

/// The length of a body of small frames.
pub(crate) fn self_check(rt: &HostRuntime) -> Result<u64> {
    let limit = Limit::new(MIN_LIMIT).context("a limit")?;
    build(rt, limit, 100, &[0x5a; 300])
}

/// `packets GIGABYTES`: builds bodies of that many gigabytes of frames at each length of a frame,
/// writes and reads a million headers, and reads bodies of the shortest frames.
pub(crate) fn measure(rt: &HostRuntime, words: &[String]) -> Result<()> {
    let total = number(words, 0)?.saturating_mul(1_000_000_000);
    let bytes = [0x5a; MAX_FRAME_LEN];
    for (limit, name) in [
        (65_536, "packets.built_65536"),
        (524_284, "packets.built_524284"),
    ] {
        for len in [64, 300, 1_518, MAX_FRAME_LEN] {
            measure_building(
                rt,
                name,
                limit,
                total,
                bytes.get(..len).context("a length")?,
            )?;
        }
    }
    measure_headers(rt)?;
    for (limit, name) in [
        (262_144, "packets.read_262144"),
        (524_284, "packets.read_524284"),
    ] {
        measure_reading(rt, name, limit, total)?;
    }
    Ok(())
}

/// Times bodies of `total` bytes of frames.
fn measure_building(
    rt: &HostRuntime,
    name: &str,
    limit: u32,
    total: u64,
    bytes: &[u8],
) -> Result<()> {
    let limit = Limit::new(limit).context("a limit")?;
    let frames = total / (bytes.len() as u64).max(1);
    let clock = Clock::start(rt)?;
    let sum = build(rt, limit, frames, bytes)?;
    let nanos = clock.nanos(rt)?;
    let work = Work {
        name,
        bytes: bytes.len(),
        count: frames,
        sum,
    };
    print(rt, work, nanos)
}

/// Builds bodies of `frames` frames of these bytes: the exclusive or of the lengths of the bodies
/// that were filled.
fn build(rt: &HostRuntime, limit: Limit, frames: u64, bytes: &[u8]) -> Result<u64> {
    let frame = Frame::new(16, false, false, bytes).context("a frame")?;
    let mut builder = DataBuilder::with_limit(rt.alloc(), limit, 0, 3)?;
    let mut sum = 0;
    for _ in 0..frames {
        if !builder.fits(frame.bytes.len()) {
            if !builder.is_empty() {
                sum ^= builder.seal().bytes().len() as u64;
            }
            builder = DataBuilder::with_limit(rt.alloc(), limit, 0, 3)?;
        }
        if builder.fits(frame.bytes.len()) {
            builder.push(&frame);
        }
    }
    Ok(sum)
}

/// Times headers.
fn measure_headers(rt: &HostRuntime) -> Result<()> {
    let mut table = Vec::new(rt.alloc());
    for counter in 0..HEADERS {
        let header = Header::new(1, 60, 34, 8, 0, 0, ETHERNET_DATA, u64::from(counter)).context(
            "a header",
        )?;
        table.push(header)?;
    }
    let mut encoded = Vec::with_capacity(rt.alloc(), table.len())?;
    let clock = Clock::start(rt)?;
    for header in &table {
        encoded.push(header.encode())?;
    }
    let written = clock.nanos(rt)?;
    let clock = Clock::start(rt)?;
    let mut sum = 0;
    for bytes in &encoded {
        sum ^= Header::decode(bytes)?.counter;
    }
    let read = clock.nanos(rt)?;
    print(rt, headers("packets.header_written", 0), written)?;
    print(rt, headers("packets.header_read", sum), read)
}

/// The headers that were timed.
fn headers(name: &str, sum: u64) -> Work<'_> {
    Work {
        name,
        bytes: 24,
        count: u64::from(HEADERS),
        sum,
    }
}

/// Times the reading of a body of the shortest frames, again and again up to `total` bytes.
fn measure_reading(rt: &HostRuntime, name: &str, limit: u32, total: u64) -> Result<()> {
    let body = body_of_small_frames(rt, limit)?;
    let turns = total / (body.bytes().len() as u64).max(1);
    let clock = Clock::start(rt)?;
    let mut sum = 0;
    for _ in 0..turns {
        sum ^= read(body.bytes())?;
    }
    let nanos = clock.nanos(rt)?;
    let work = Work {
        name,
        bytes: body.bytes().len(),
        count: turns,
        sum,
    };
    print(rt, work, nanos)
}

/// The body of a packet within the limit, full of the shortest frames.
fn body_of_small_frames(rt: &HostRuntime, limit: u32) -> Result<DataBody> {
    let bytes = [0x5a; MIN_FRAME_LEN];
    let frame = Frame::new(16, false, false, &bytes).context("a frame")?;
    let limit = Limit::new(limit).context("a limit")?;
    let mut builder = DataBuilder::with_limit(rt.alloc(), limit, 0, 3)?;
    for _ in 0..limit.get() {
        if builder.fits(frame.bytes.len()) {
            builder.push(&frame);
        }
    }
    if builder.is_empty() {
        bail!("no frame fits");
    }
    Ok(builder.seal())
}

/// Decodes a body and walks over its frames: the exclusive or of their counters and lengths.
fn read(body: &[u8]) -> Result<u64> {
    let mut sum = 0;
    for frame in decode_frames(body)?.walk() {
        sum ^= frame.counter ^ frame.bytes.len() as u64;
    }
    Ok(sum)
}
