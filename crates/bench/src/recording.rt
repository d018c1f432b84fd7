//! Makes a recording for the program to read.

use crate::words::{number, word};
use anyhow::{Context, Result, bail};
use bpf_insn::parse_listing;
use bpf_verify::verify;
use ch11_packet::{Blank, DataBody, DataBuilder, Limit};
use eth_frame::Frame;
use rec_lane::{DataPiece, EndPiece, Piece, ProgramPiece};
use rec_writer::Writer;
use std::alloc::Global;
use std::io::{BufWriter, Write};
use std::sync::Arc;
use std::{fs, io};

/// The greatest length of its packets.
const LIMIT: u32 = 65_536;

/// The filter of its channel, which tests the type of each frame and keeps them all.
const FILTER: &str = "4,40 0 0 12,21 0 1 23130,6 0 0 4294967295,6 0 0 0,";

/// The bytes of a recording of ten full packets, added up modulo 2^64.
pub(crate) fn self_check(rt: &HostRuntime) -> Result<u64> {
    let out = write_packets(rt, Sum { bytes: 0 }, &[0x5a; 300], 10)?;
    Ok(out.bytes)
}

/// `recording FILE LENGTH MEGABYTES`: writes a recording of about that many megabytes into the
/// file, of channel 1, whose packets are full of frames of that length, with its filter ahead.
pub(crate) fn make(rt: &HostRuntime, words: &[String]) -> Result<()> {
    let file = word(words, 0)?;
    let length = number(words, 1)? as usize;
    let packets = number(words, 2)?.saturating_mul(1_000_000) / u64::from(LIMIT);
    let bytes = [0x5a; 16_383];
    let bytes = bytes.get(..length).context("a length of at most 16383")?;
    let out = BufWriter::new(rt.alloc(), fs::create(rt, file)?)?;
    let mut out = write_packets(rt, out, bytes, packets)?;
    out.flush()?;
    println!(rt; "recording {file} {packets}")?;
    Ok(())
}

/// An output that adds up what it takes.
#[derive(Debug, Drop)]
struct Sum {
    bytes: u64,
}

impl Write for Sum {
    fn write(&mut self, buf: &[u8]) -> io::Result<usize> {
        for byte in buf {
            self.bytes = self.bytes.wrapping_add(u64::from(*byte));
        }
        Ok(buf.len())
    }

    fn flush(&mut self) -> io::Result<()> {
        Ok(())
    }
}

/// The record of the filter.
fn program(alloc: Global) -> Result<Piece> {
    let program = verify(parse_listing(alloc, FILTER)?)
        .ok()
        .context("a valid program")?;
    Ok(Piece::Program(ProgramPiece {
        channel: 1,
        counter: 0,
        version: 0,
        first: 0,
        program: Arc::new(alloc, program)?,
    }))
}

/// Writes the filter's record, that many packets full of frames of these bytes, with counters from 0 on, and the end.
fn write_packets<W: Write + Drop>(
    rt: &HostRuntime,
    out: W,
    bytes: &[u8],
    packets: u64,
) -> Result<W> {
    let mut writer = Writer::new(out, &[1], 8);
    let mut frames = 0u64;
    let limit = Limit::new(LIMIT).context("a limit")?;
    put(&mut writer, program(rt.alloc())?)?;
    for _ in 0..packets {
        let body = full_body(Blank::with_limit(rt.alloc(), limit)?, bytes, frames)?;
        frames = frames.wrapping_add(u64::from(body.count()));
        put(&mut writer, Piece::Data(DataPiece { channel: 1, body }))?;
    }
    let end = EndPiece {
        channel: 1,
        counter: 0,
        offered: frames,
        kept: frames,
    };
    put(&mut writer, Piece::End(end))?;
    match writer.finish() {
        Ok(out) => Ok(out),
        Err(_) => bail!("an output that is flushed"),
    }
}

/// A body that is full of frames of these bytes, whose counters go on from here.
fn full_body(blank: Blank, bytes: &[u8], first: u64) -> Result<DataBody> {
    let mut builder = DataBuilder::over(blank, 0, 3);
    let mut counter = first;
    for _ in 0..LIMIT {
        if !builder.fits(bytes.len()) {
            break;
        }
        let frame = Frame::new(counter, false, false, bytes).context("a frame")?;
        builder.push(&frame);
        counter = counter.wrapping_add(1);
    }
    if builder.is_empty() {
        bail!("a frame that fits");
    }
    Ok(builder.seal())
}

/// Writes a piece of the one channel.
fn put<W: Write>(writer: &mut Writer<W>, piece: Piece) -> Result<()> {
    if !writer.knows(piece.channel()) {
        bail!("a channel that the writer knows");
    }
    writer.put(&piece)?;
    Ok(())
}
