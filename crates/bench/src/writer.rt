//! The writer's put, into an output that takes all.

use crate::clock::{Clock, Work, print};
use crate::words::number;
use anyhow::{Context, Result, bail};
use ch11_packet::{DataBuilder, Limit};
use eth_frame::Frame;
use rec_lane::{DataPiece, EndPiece, Piece};
use rec_writer::{Writer, packet_len};
use std::io;
use std::io::Write;

/// An output that takes all bytes and keeps none.
#[derive(Debug, Drop)]
struct Sink {
    taken: u64,
}

impl Write for Sink {
    fn write(&mut self, buf: &[u8]) -> io::Result<usize> {
        self.taken = self.taken.wrapping_add(buf.len() as u64);
        Ok(buf.len())
    }

    fn flush(&mut self) -> io::Result<()> {
        Ok(())
    }
}

/// The bytes of a hundred packets of frames.
pub(crate) fn self_check(rt: &HostRuntime) -> Result<u64> {
    put_all(&frames_piece(rt, 16_424)?, 100)
}

/// `writer PACKETS`: that many packets of an end (56 bytes), and of frames of 300 bytes up to limits of
/// 16,424 and 65,536 bytes.
pub(crate) fn measure(rt: &HostRuntime, words: &[String]) -> Result<()> {
    let packets = number(words, 0)?;
    let end = Piece::End(EndPiece {
        channel: 1,
        counter: 16,
        offered: 2,
        kept: 1,
    });
    for piece in [end, frames_piece(rt, 16_424)?, frames_piece(rt, 65_536)?] {
        let clock = Clock::start(rt)?;
        let sum = put_all(&piece, packets)?;
        let nanos = clock.nanos(rt)?;
        let work = Work {
            name: "writer.put",
            bytes: packet_len(&piece) as usize,
            count: packets,
            sum,
        };
        print(rt, work, nanos)?;
    }
    Ok(())
}

/// A packet that is full of frames of 300 bytes.
fn frames_piece(rt: &HostRuntime, limit: u32) -> Result<Piece> {
    let limit = Limit::new(limit).context("a limit")?;
    let mut builder = DataBuilder::with_limit(rt.alloc(), limit, 0, 3)?;
    let frame = Frame::new(16, false, false, &[0x5a; 300]).context("a frame")?;
    for _ in 0..limit.get() {
        if !builder.fits(300) {
            break;
        }
        builder.push(&frame);
    }
    if builder.is_empty() {
        bail!("a frame that fits");
    }
    Ok(Piece::Data(DataPiece {
        channel: 1,
        body: builder.seal(),
    }))
}

/// Puts a piece that many times; the bytes that the output took.
fn put_all(piece: &Piece, packets: u64) -> Result<u64> {
    let mut writer = Writer::new(Sink { taken: 0 }, &[1], 8);
    for _ in 0..packets {
        if !writer.knows(piece.channel()) {
            bail!("a channel that the writer knows");
        }
        writer.put(piece)?;
    }
    Ok(writer.out().taken)
}
