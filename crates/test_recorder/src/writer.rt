//! Tests, and the pieces and outputs that they share.
ghost use Rattle.std.specs.Prelude.{ℕ, ◌≢◌, All};
ghost use Rattle.rec_writer.specs.Numbers.{AreDistinctChannels};

use ch11_packet::{DataBody, DataBuilder, HEADER_LEN, Header, Limit};
use eth_frame::Frame;
use rec_lane::{DataPiece, EndPiece, Piece, ProgramPiece};
use rec_writer::*;
use std::alloc::Global;
use std::io;
use std::io::{ErrorKind, Write};
use std::test::Fail;
use test_samples::{CHECKED, assert_same, joined_bytes, program};

/// A broadcast ARP frame without a payload, with its check sequence.
const ARP: &str = "ffffffffffff 020000000001 0806 a1b2c3d4";

/// The body of the ARP frame alone.
fn body(alloc: Global, counter: u64) -> Result<DataBody, Fail> {
    let arp = joined_bytes(alloc, &[ARP])?;
    let frame = Frame::new(counter, false, false, arp.as_slice()).ok_or("a frame")?;
    let limit = Limit::new(16_424).ok_or("a limit")?;
    let mut builder = DataBuilder::with_limit(alloc, limit, 0, 3)?;
    builder.push(&frame);
    Ok(builder.seal())
}

/// The program of a version of channel 1, from the frame with the same number on.
fn version(alloc: Global, number: u32, counter: u64, listing: &str) -> Result<Piece, Fail> {
    if counter >> 48 != 0 {
        return Err("a counter of 48 bits".into());
    }
    Ok(Piece::Program(ProgramPiece {
        channel: 1,
        counter,
        version: number,
        first: u64::from(number),
        program: program(alloc, listing)?,
    }))
}

/// The four pieces of a channel that kept the second of two frames.
fn pieces(alloc: Global) -> Result<[Piece; 4], Fail> {
    Ok([
        version(alloc, 0, 16, "1,6 0 0 0,")?,
        version(alloc, 1, 32, "1,6 0 0 1,")?,
        Piece::Data(DataPiece {
            channel: 1,
            body: body(alloc, 32)?,
        }),
        Piece::End(EndPiece {
            channel: 1,
            counter: 32,
            offered: 2,
            kept: 1,
        }),
    ])
}

/// What an output does once it has taken all that it has room for.
#[derive(Clone, Copy, Debug, PartialEq, Eq)]
pub(crate) enum Then {
    /// It fails.
    Fails,
    /// It takes no byte.
    TakesNone,
    /// It fails once, and has room for all after it.
    FailsOnce(ErrorKind),
}

/// An output with room for some bytes, of which it takes at most `at_once` a call. It counts calls.
#[derive(Debug, Drop)]
pub(crate) struct Output {
    pub(crate) bytes: Vec<u8>,
    room: usize,
    at_once: usize,
    then: Then,
    pub(crate) flushes_fail: bool,
    pub(crate) writes: u32,
    flushes: u32,
}

impl Output {
    /// An output that was not called.
    pub(crate) fn new(alloc: Global, room: usize, at_once: usize, then: Then) -> Output {
        Output {
            bytes: Vec::new(alloc),
            room,
            at_once,
            then,
            flushes_fail: false,
            writes: 0,
            flushes: 0,
        }
    }
}

impl Write for Output {
    fn write(&mut self, buf: &[u8]) -> io::Result<usize> {
        self.writes = self.writes.saturating_add(1);
        if self.room == 0 && !buf.is_empty() {
            return match self.then {
                Then::Fails => Err(io::Error::from(ErrorKind::StorageFull)),
                Then::TakesNone => Ok(0),
                Then::FailsOnce(kind) => {
                    self.room = usize::MAX;
                    Err(io::Error::from(kind))
                }
            };
        }
        let count = self.room.min(self.at_once).min(buf.len());
        self.bytes
            .extend_from_slice(&buf[..count])
            .map_err(|_| io::Error::from(ErrorKind::OutOfMemory))?;
        self.room -= count;
        Ok(count)
    }

    fn flush(&mut self) -> io::Result<()> {
        self.flushes = self.flushes.saturating_add(1);
        if self.flushes_fail {
            return Err(io::Error::from(ErrorKind::StorageFull));
        }
        Ok(())
    }
}

/// An output with room for all bytes, of which it takes at most `at_once` a call.
pub(crate) fn wide(alloc: Global, at_once: usize) -> Output {
    Output::new(alloc, usize::MAX, at_once, Then::Fails)
}

/// Puts a piece of a channel that the writer knows.
pub(crate) fn put<W: Write>(
    writer: &mut Writer<W>,
    piece: &Piece,
) -> Result<Result<(), WriteFault>, Fail> {
    if !writer.knows(piece.channel()) {
        return Err("a channel that the writer knows".into());
    }
    Ok(writer.put(piece))
}

#[test]
fn each_piece_is_its_packet(rt: HostRuntime) -> Result<(), Fail> {
    let want = joined_bytes(rt.alloc(), &CHECKED)?;
    for &(at_once, writes) in &[(usize::MAX, 12), (1, 248)] {
        let out = Output::new(rt.alloc(), usize::MAX, at_once, Then::Fails);
        let mut writer = Writer::new(out, &[1], 8);
        let ends = [(64, 64), (64, 128), (64, 192), (56, 248)];
        for (piece, (len, end)) in pieces(rt.alloc())?.iter().zip(ends) {
            assert_same!(rt; put(&mut writer, piece)?, Ok(()));
            assert_same!(rt; packet_len(piece), len);
            assert_same!(rt; Some(writer.out().bytes.as_slice()), want.get(..end));
            assert_same!(rt; writer.bytes(), 0);
        }
        assert_same!(rt; (writer.whole(), writer.out().flushes), (4, 0));
        assert_same!(rt; writer.out().writes, writes);
        let Ok(out) = writer.finish() else {
            return Err("a finished recording".into());
        };
        assert_same!(rt; (out.bytes.as_slice(), out.flushes), (want.as_slice(), 1));
    }
    Ok(())
}

#[test]
fn sequence_numbers_go_on_from_255_with_0(rt: HostRuntime) -> Result<(), Fail> {
    let mut writer = Writer::new(Vec::new(rt.alloc()), &[2, 1], 8);
    let piece = Piece::Data(DataPiece {
        channel: 1,
        body: body(rt.alloc(), 16)?,
    });
    let end = Piece::End(EndPiece {
        channel: 2,
        counter: 0,
        offered: 0,
        kept: 0,
    });
    for number in 0..257 {
        put(&mut writer, &piece)??;
        let Some(packet) = writer.out().get(number * 64..) else {
            return Err("a packet".into());
        };
        assert_same!(rt; packet.get(13), Some(&((number % 256) as u8)));
    }
    put(&mut writer, &end)??;
    let Some(packet) = writer.out().get(257 * 64..) else {
        return Err("the end's packet".into());
    };
    assert_same!(rt; (packet.len(), packet.get(13)), (56, Some(&0)));
    assert_same!(rt; writer.whole(), 258);
    Ok(())
}

#[test]
fn after_a_fault_nothing_is_written(rt: HostRuntime) -> Result<(), Fail> {
    let want = joined_bytes(rt.alloc(), &CHECKED[..2])?;
    for &then in &[
        Then::Fails,
        Then::TakesNone,
        Then::FailsOnce(ErrorKind::StorageFull),
        Then::FailsOnce(ErrorKind::Interrupted),
    ] {
        let mut writer = Writer::new(Output::new(rt.alloc(), 70, 7, then), &[1], 8);
        let all = pieces(rt.alloc())?;
        let (first, second) = (&all[0], &all[1]);
        assert_same!(rt; put(&mut writer, first)?, Ok(()));
        let output = WriteFault::Output { whole: 1, bytes: 6 };
        assert_same!(rt; put(&mut writer, second)?, Err(output), "{then:?}");
        let writes = writer.out().writes;
        let failed = WriteFault::Failed { whole: 1, bytes: 6 };
        assert_same!(rt; put(&mut writer, second)?, Err(failed));
        assert_same!(rt; (writer.whole(), writer.bytes()), (1, 6));
        let Err((fault, out)) = writer.finish() else {
            return Err("a fault".into());
        };
        assert_same!(rt; fault, failed);
        assert_same!(rt; (out.writes, out.flushes), (writes, 0));
        assert_same!(rt; Some(out.bytes.as_slice()), want.get(..70));
    }
    Ok(())
}

#[test]
fn a_flush_that_fails_is_a_fault_with_no_bytes(rt: HostRuntime) -> Result<(), Fail> {
    let mut out = Output::new(rt.alloc(), usize::MAX, usize::MAX, Then::Fails);
    out.flushes_fail = true;
    let mut writer = Writer::new(out, &[1], 8);
    for piece in &pieces(rt.alloc())? {
        put(&mut writer, piece)??;
    }
    let Err((fault, out)) = writer.finish() else {
        return Err("a fault".into());
    };
    assert_same!(rt; fault, WriteFault::Output { whole: 4, bytes: 0 });
    assert_same!(rt; (out.bytes.len(), out.flushes), (248, 1));
    Ok(())
}

#[test]
fn a_writer_knows_its_channels(rt: HostRuntime) -> Result<(), Fail> {
    let channels = &[7, 65_535, 1, 300];
    let writer = Writer::new(Vec::new(rt.alloc()), channels, 255);
    for &channel in channels {
        assert!(rt; writer.knows(channel));
    }
    for other in [0, 2, 6, 8, 301, 65_534] {
        assert!(rt; !writer.knows(other));
    }
    Ok(())
}

/// 64 channels: 1, 1,041 and so on up to 65,521.
fn many_channels() -> [u16; MAX_CHANNELS]
    ensures named { All (λ (channel : ℕ). channel ≢ 0) result }
    ensures distinct { AreDistinctChannels result }
{
    let mut channels = [0; MAX_CHANNELS];
    'channels: for at in 0..MAX_CHANNELS {
        channels[at] = at as u16 * 1_040 + 1;
    }
    channels
}

/// Puts a piece; the channel ID and the sequence number of its packet.
fn number_of(writer: &mut Writer<Vec<u8>>, piece: &Piece) -> Result<(u16, u8), Fail> {
    let at = writer.out().len();
    put(writer, piece)??;
    let packet = writer
        .out()
        .get(at..)
        .ok_or("what the piece is written as")?;
    let header = packet.first_chunk::<HEADER_LEN>().ok_or("a header")?;
    let header = Header::decode(header)?;
    Ok((header.channel, header.sequence))
}

#[test]
fn records_of_64_channels_have_one_sequence(rt: HostRuntime) -> Result<(), Fail> {
    let channels = many_channels();
    let mut writer = Writer::new(Vec::new(rt.alloc()), &channels, 8);
    let mut records = 0u8;
    for round in 0..4 {
        for channel in channels {
            if channel == 0 {
                return Err("a channel ID".into());
            }
            let end = Piece::End(EndPiece {
                channel,
                counter: 16,
                offered: 1,
                kept: 1,
            });
            let data = Piece::Data(DataPiece {
                channel,
                body: body(rt.alloc(), 16)?,
            });
            let numbers = [
                number_of(&mut writer, &end)?,
                number_of(&mut writer, &data)?,
            ];
            assert_same!(rt; numbers, [(0, records), (channel, round)]);
            records = records.wrapping_add(1);
        }
    }
    Ok(())
}
