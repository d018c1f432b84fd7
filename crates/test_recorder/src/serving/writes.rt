//! Packets of the greatest length, and the writes in which packets go out.

use crate::serving::frames::{ACCEPT, LONGEST, Lengths, job, recorded};
use crate::serving::signals::Watch;
use crate::writer::{Output, put, wide};
use ch11_packet::{DataBuilder, Limit, MAX_LIMIT};
use eth_frame::Frame;
use rec_lane::{DataPiece, Piece};
use rec_writer::Writer;
use std::alloc::Global;
use std::process::Abort;
use std::sync::Wait;
use std::test::Fail;
use std::thread::Threads;
use test_samples::{all_bytes, assert_same};

/// How many frames fill a packet of the greatest length.
const FILLING: usize = 32;

/// The number of the last of them.
const LAST: usize = FILLING - 1;

/// The length of the last of them; the others are the longest.
const LAST_LEN: usize = 15_968;

/// The header of a packet of the greatest length, of channel 1 at counter 0, and the word that begins
/// its body.
const FULL: &str = "25eb 0100 00000800 e4ff0700 08 00 03 68 000000000000 2453 20000000";

/// The length of the frame of a number among those that fill a packet.
fn filling_len(number: usize) -> usize {
    if number < LAST { LONGEST } else { LAST_LEN }
}

/// The frames that fill a packet.
#[derive(Drop)]
struct Filling {
    given: usize,
}

impl Lengths for Filling {
    fn next_len(&mut self) -> Option<usize> {
        if self.given >= FILLING {
            return None;
        }
        let len = filling_len(self.given);
        self.given += 1;
        Some(len)
    }
}

/// Adds the frame of a number to the packet that they fill.
fn push_filling(builder: &mut DataBuilder, zeros: &[u8], number: usize) -> Result<(), Fail> {
    let bytes = zeros.get(..filling_len(number)).ok_or("a length")?;
    let frame = Frame::new(0, false, false, bytes).ok_or("a frame")?;
    if !builder.fits(bytes.len()) {
        return Err("room for the frame".into());
    }
    builder.push(&frame);
    Ok(())
}

/// The piece of these frames.
fn full_piece(alloc: Global) -> Result<Piece, Fail> {
    let limit = Limit::new(MAX_LIMIT).ok_or("the greatest limit")?;
    let mut builder = DataBuilder::with_limit(alloc, limit, 0, 3)?;
    let zeros = vec![in alloc; 0u8; LONGEST]?;
    for number in 0..FILLING {
        push_filling(&mut builder, zeros.as_slice(), number)?;
    }
    if builder.is_empty() {
        return Err("a packet of frames".into());
    }
    Ok(Piece::Data(DataPiece {
        channel: 1,
        body: builder.seal(),
    }))
}

/// Writes the piece to an output that takes at most `at_once` bytes a call.
fn must_go_out(
    rt: &impl Abort,
    alloc: Global,
    piece: &Piece,
    at_once: usize,
    writes: u32,
) -> Result<(), Fail> {
    let mut writer = Writer::new(wide(alloc, at_once), &[1], 8);
    put(&mut writer, piece)??;
    let out = writer.out();
    let head = all_bytes(alloc, FULL)?;
    assert_same!(rt; out.bytes.get(..head.len()), Some(head.as_slice()));
    assert_same!(rt; (out.bytes.len(), out.writes), (524_288, writes));
    Ok(())
}

#[test]
fn a_full_packet_goes_out_in_three_writes(rt: HostRuntime) -> Result<(), Fail> {
    let piece = full_piece(rt.alloc())?;
    must_go_out(&rt, rt.alloc(), &piece, usize::MAX, 3)?;
    must_go_out(&rt, rt.alloc(), &piece, 1, 524_288)
}

/// Records the frames to an output that takes at most `at_once` bytes a call: its pieces, bytes, and
/// the output.
fn full_recording<R: Threads + Wait + Sync>(
    rt: &R,
    alloc: Global,
    at_once: usize,
) -> Result<(u64, u64, Output), Fail> {
    let mut jobs = Vec::new(alloc);
    jobs.push(job(alloc, 1, ACCEPT, MAX_LIMIT, Filling { given: 0 })?)?;
    let done = recorded(rt, alloc, jobs, 1, wide(alloc, at_once))?;
    Ok((done.report.pieces, done.report.bytes, done.out))
}

/// The packet of the program has 64 bytes, and that of the end 56.
#[test]
fn a_full_packet_is_recorded(rt: HostRuntime) -> Result<(), Fail> {
    for &(at_once, writes) in &[(usize::MAX, 9), (1, 524_408)] {
        let watch = Watch::begin(rt, rt.alloc())?;
        let recording = full_recording(&rt, rt.alloc(), at_once);
        watch.end(&rt);
        let (pieces, bytes, out) = recording?;
        assert_same!(rt; (pieces, bytes), (3, 524_408));
        assert_same!(rt; (out.bytes.len(), out.writes), (524_408, writes));
    }
    Ok(())
}
