//! Tests of pieces and of their order. Where they are cut and which comes next is worked by hand.

use ch11_merge::*;
use ch11_packet::{MAX_ETHERNET_PACKET_LEN, ReadFrame};
use std::alloc::Global;
use std::test::Fail;

/// A frame with this counter and these bytes, of which there are at most 16,383.
fn frame(counter: u32, bytes: &[u8]) -> Option<ReadFrame<'_>> {
    if bytes.len() > 16_383 {
        return None;
    }
    Some(ReadFrame {
        counter: u64::from(counter),
        crc_error: false,
        frame_error: false,
        net: 0,
        speed: 3,
        content: 0,
        bytes,
    })
}

/// Frames with these counters and these bytes.
fn frames<'a>(
    alloc: Global,
    counters: &[u32],
    bytes: &'a [u8],
) -> Result<Vec<ReadFrame<'a>>, Fail> {
    let mut frames = Vec::new(alloc);
    for &counter in counters {
        frames.push(frame(counter, bytes).ok_or("a frame in range")?)?;
    }
    Ok(frames)
}

/// The numbers of frames of the pieces of these.
fn lens(alloc: Global, frames: &[ReadFrame<'_>]) -> Result<Vec<usize>, Fail> {
    let mut lens = Vec::new(alloc);
    let mut piece = PieceSoFar::before(0);
    let mut begin = 0;
    for (at, frame) in frames.iter().enumerate() {
        let is_full = piece.len > MAX_ETHERNET_PACKET_LEN as usize;
        if at == begin || is_full || !piece.goes_on(frame) {
            if at > begin {
                lens.push(at - begin)?;
            }
            begin = at;
            piece = PieceSoFar::before(frame.counter);
        }
        piece = piece.with(frame);
    }
    lens.push(frames.len().saturating_sub(begin))?;
    Ok(lens)
}

/// Counters of frames, and the numbers of frames of their pieces.
const CUTS: [(&[u32], &[usize]); 6] = [
    (&[7], &[1]),
    (&[7, 7, 8], &[3]),
    // 100 ms behind the first frame
    (&[5, 1_000_004], &[2]),
    (&[5, 1_000_005], &[1, 1]),
    (&[5, 600_000, 1_000_005, 1_600_000], &[2, 2]),
    // a step back
    (&[9, 10, 9, 9, 12], &[2, 3]),
];

#[test]
fn frames_are_cut_at_100_ms_and_at_a_step_back(rt: HostRuntime) -> Result<(), Fail> {
    for &(counters, wanted) in &CUTS {
        let frames = frames(rt.alloc(), counters, &[])?;
        let found = lens(rt.alloc(), frames.as_slice())?;
        assert!(rt; found.as_slice() == wanted);
    }
    Ok(())
}

#[test]
fn frames_are_cut_where_the_packet_would_be_over_524288_bytes(rt: HostRuntime) -> Result<(), Fail> {
    // a packet has 32 bytes beside its frames, and a frame 12 beside its own: 32 frames of 16,370 bytes leave
    // room for one of 20
    let bytes = vec![in rt.alloc(); 0u8; 16_370]?;
    for &(last, wanted) in &LAST_FRAMES {
        let short = vec![in rt.alloc(); 0u8; last]?;
        let found = lens_behind(rt.alloc(), bytes.as_slice(), short.as_slice())?;
        assert!(rt; found.as_slice() == wanted);
    }
    Ok(())
}

/// The numbers of frames of the pieces of 32 frames of the same bytes and a last one.
fn lens_behind<'a>(alloc: Global, bytes: &'a [u8], last: &'a [u8]) -> Result<Vec<usize>, Fail> {
    let mut all = frames(alloc, &[1; 32], bytes)?;
    all.push(frame(1, last).ok_or("a frame in range")?)?;
    lens(alloc, all.as_slice())
}

/// Lengths of a frame behind 32 of 16,370 bytes, and the numbers of frames of the pieces.
const LAST_FRAMES: [(usize, &[usize]); 3] = [(19, &[33]), (20, &[33]), (21, &[32, 1])];

/// The greatest tick, which no counter reaches.
const NEVER: u64 = u64::MAX;

/// The tick of the time packet behind that of a tick: there are those of 100 and 200, and no more.
fn tick_behind(tick: u64) -> u64 {
    match tick {
        0..100 => 100,
        100..200 => 200,
        _ => NEVER,
    }
}

/// What has a place: the channel, 0 of a time packet; the tick or the counter, 999 where there is none; the
/// number of frames.
type Row = (u16, u64, usize);

/// A source of the records of one channel, among those of others: channels, each with a counter, if it has
/// one.
#[derive(Drop)]
struct Records<'a> {
    channel: u16,
    head: Head,
    left: &'a [(u16, Option<u64>)],
}

impl<'a> Records<'a> {
    fn new(channel: u16, records: &'a [(u16, Option<u64>)]) -> Records<'a> {
        for at in 0..records.len() {
            let (of, counter) = records[at];
            if of == channel {
                let head = match counter {
                    Some(counter) => Head::At(counter),
                    None => Head::Uncounted,
                };
                let left = &records[at + 1..];
                return Records {
                    channel,
                    head,
                    left,
                };
            }
        }
        Records {
            channel,
            head: Head::End,
            left: &[],
        }
    }
}

impl<'a> PieceSource for Records<'a> {
    ghost use Rattle.std.specs.Prelude.{None, [], Some};
    ghost use Rattle.ch11_merge.specs.Merging.FilePiece.{OfRecord};

    type Piece = Head;

    ghost data_of = { λ _. OfRecord 0 None [] };

    ghost left = { λ _. None };

    ghost stands = { λ s. s.head };

    fn head(&self) -> Head {
        self.head
    }

    fn place(&self) -> u64 {
        0
    }

    fn take(&mut self, _tick: u64) -> Result<Head, PieceFault> {
        let head = self.head;
        *self = Records::new(self.channel, self.left);
        Ok(head)
    }

    ghost stands_first = { λ _. tt };
}

/// What has a place of these records, row by row, until nothing is left.
fn rows_of(alloc: Global, records: &[(u16, Option<u64>)]) -> Result<Vec<Row>, Fail> {
    let mut sources = Vec::new(alloc);
    for channel in [9, 3, 1, 2, 4] {
        let source = Records::new(channel, records);
        sources.push(MergedChannel { channel, source })?;
    }
    let mut channels = MergedChannels::new(alloc, sources)?;
    let mut tick = 100;
    let mut rows = Vec::new(alloc);
    for _ in 0..2 * records.len() + 3 {
        match next_placed(&mut channels, tick)? {
            Some(Placed::Time { tick: time }) => {
                rows.push((0, time, 0))?;
                tick = tick_behind(time);
            }
            Some(Placed::Piece { channel, piece }) => match piece {
                Head::At(counter) => rows.push((channel, counter, 0))?,
                _ => rows.push((channel, 999, 0))?,
            },
            None => return Ok(rows),
        }
    }
    Err("an end of the merge".into())
}

/// The records of channels, and what has a place where time packets stand at 100 and 200.
const MERGES: [(&[(u16, Option<u64>)], &[Row]); 7] = [
    (&[], &[]),
    (&[(3, Some(5)), (3, Some(7))], &[(3, 5, 0), (3, 7, 0)]),
    // ties go by the channel, wherever it stands
    (
        &[
            (9, Some(5)),
            (9, Some(6)),
            (2, Some(5)),
            (2, Some(6)),
            (4, Some(5)),
        ],
        &[(2, 5, 0), (4, 5, 0), (9, 5, 0), (2, 6, 0), (9, 6, 0)],
    ),
    // an end that was offered nothing comes behind all that have a counter, by its channel
    (
        &[(1, None), (3, Some(80)), (3, None), (2, None)],
        &[(3, 80, 0), (1, 999, 0), (2, 999, 0), (3, 999, 0)],
    ),
    // time packets stand ahead of the first counter that reaches them, and none behind the last
    (
        &[(1, Some(99)), (1, Some(100)), (2, Some(250))],
        &[
            (1, 99, 0),
            (0, 100, 0),
            (1, 100, 0),
            (0, 200, 0),
            (2, 250, 0),
        ],
    ),
    // a step back stays in its channel, and no time packet comes twice
    (
        &[
            (1, Some(150)),
            (1, Some(40)),
            (1, Some(160)),
            (2, Some(155)),
        ],
        &[
            (0, 100, 0),
            (1, 150, 0),
            (1, 40, 0),
            (2, 155, 0),
            (1, 160, 0),
        ],
    ),
    // what stands behind a piece without a counter waits for it
    (
        &[(1, None), (1, Some(5)), (2, Some(7))],
        &[(2, 7, 0), (1, 999, 0), (1, 5, 0)],
    ),
];

#[test]
fn records_are_merged_by_counter_and_then_by_channel(rt: HostRuntime) -> Result<(), Fail> {
    for &(records, wanted) in &MERGES {
        let rows = rows_of(rt.alloc(), records)?;
        assert!(rt; rows.as_slice() == wanted);
    }
    Ok(())
}
