//! The lane beside the slow reader, on drawn frames under several versions.

use crate::draws::Draws;
use crate::pieces::{
    Channel, Holds, PlainFrame, PlainVersion, ReadPiece, all_pieces, last_value, pieces_so_far,
};
use crate::shared::{drawn_frame, drawn_length, lane_spec, offer, version};
use eth_frame::MAX_FRAME_LEN;
use rec_channel::Slot;
use rec_lane::{Lane, Piece};
use std::alloc::Global;
use std::process::Abort;
use std::sync::Arc;
use std::test::Fail;
use test_samples::assert_same;

/// The least and the greatest length of a frame, and odd and even ones between.
const LENGTHS: [usize; 16] = [
    18, 18, 19, 20, 21, 64, 65, 300, 1_500, 1_501, 4_000, 4_099, 8_190, 9_001, 16_382, 16_383,
];

/// Accepts each frame.
const ACCEPT: &str = "1,6 0 0 4294967295,";

/// The programs of ten versions.
const PROGRAMS: [&str; 10] = [
    ACCEPT,
    // byte 14 is below 200; in a frame of 18 bytes it is in the check sequence
    "4,48 0 0 14,53 1 0 200,6 0 0 1,6 0 0 0,",
    ACCEPT,
    "1,6 0 0 0,",
    // the length of the view modulo 3
    "3,128 0 0 0,148 0 0 3,22 0 0 0,",
    "1,6 0 0 0,",
    ACCEPT,
    ACCEPT,
    // the byte that is 14 after four times the low half of byte 14 is odd
    "5,177 0 0 14,80 0 0 14,69 0 1 1,6 0 0 7,6 0 0 0,",
    ACCEPT,
];

/// Marks of the ten versions, in sixteenths of the frames: the first, the third, the fourth and the
/// last meet no frame.
const SIXTEENTHS: [usize; 10] = [0, 0, 2, 2, 2, 5, 6, 8, 10, 16];

/// How many versions meet a frame at these marks.
const MET: usize = 6;

#[test]
fn pieces_agree_at_each_limit(rt: HostRuntime) -> Result<(), Fail> {
    let alloc = rt.alloc();
    let frames = drawn_frames(alloc, &mut Draws::from_seed(1), 96, &LENGTHS)?;
    let versions = ten_versions(alloc, sixteenths_of(frames.len()))?;
    for limit in [16_424, 16_427, 20_001, 65_536, 524_284] {
        let (frames, versions) = (frames.as_slice(), versions.as_slice());
        let counts = compare(&rt, alloc, channel(limit), frames, versions)?;
        assert_same!(rt; counts.programs, MET);
        // one of them drops each frame
        assert!(rt; counts.packets >= MET - 1, "packets up to {limit} bytes");
    }
    Ok(())
}

/// Twenty times ten versions, of which about two thirds meet a frame.
#[test]
fn pieces_agree_at_drawn_marks(rt: HostRuntime) -> Result<(), Fail> {
    let alloc = rt.alloc();
    let mut draws = Draws::from_seed(2);
    let mut programs = 0usize;
    for _ in 0..20 {
        let frames = drawn_frames(alloc, &mut draws, 96, &LENGTHS)?;
        let versions = ten_versions(alloc, drawn_marks(&mut draws))?;
        let (frames, versions) = (frames.as_slice(), versions.as_slice());
        let counts = compare(&rt, alloc, channel(16_424), frames, versions)?;
        programs = programs.saturating_add(counts.programs);
    }
    assert!(rt;
        (100..=150).contains(&programs),
        "{programs} versions meet a frame"
    );
    Ok(())
}

/// Of 19 bytes, 512 frames fit the least limit, as each has a filler byte. Of 18 bytes, 547 frames
/// have a packet of 16,438 bytes, which its own filler makes 16,440.
#[test]
fn pieces_of_short_frames_agree(rt: HostRuntime) -> Result<(), Fail> {
    let alloc = rt.alloc();
    let versions = [version(alloc, 0, ACCEPT)?];
    for &(len, limit) in &[(19, 16_424), (18, 16_438), (18, 16_439), (18, 16_440)] {
        let frames = drawn_frames(alloc, &mut Draws::from_seed(3), 600, &[len])?;
        let counts = compare(&rt, alloc, channel(limit), frames.as_slice(), &versions)?;
        assert_same!(rt; counts.packets, 2, "frames of {len} bytes up to {limit}");
    }
    Ok(())
}

/// A frame of 16,383 bytes fills the least packet, two of them one of 32,820 bytes, and 31 of them
/// the greatest as far as it goes.
#[test]
fn pieces_of_the_longest_frames_agree(rt: HostRuntime) -> Result<(), Fail> {
    let alloc = rt.alloc();
    let versions = [version(alloc, 0, ACCEPT)?];
    let cases = &[
        (2, 16_424, 2),
        (2, 32_819, 2),
        (2, 32_820, 1),
        (63, 524_284, 3),
    ];
    for &(count, limit, packets) in cases {
        let frames = drawn_frames(alloc, &mut Draws::from_seed(4), count, &[MAX_FRAME_LEN])?;
        let counts = compare(&rt, alloc, channel(limit), frames.as_slice(), &versions)?;
        assert_same!(rt;
            counts.packets,
            packets,
            "{count} frames up to {limit} bytes"
        );
    }
    Ok(())
}

/// Of these frames no two fit a packet of the least limit.
#[test]
fn more_than_257_packets_agree(rt: HostRuntime) -> Result<(), Fail> {
    let alloc = rt.alloc();
    let lengths = [8_187, 8_188, 8_190, 8_193, 8_200];
    let frames = drawn_frames(alloc, &mut Draws::from_seed(5), 448, &lengths)?;
    let versions = ten_versions(alloc, sixteenths_of(frames.len()))?;
    let (frames, versions) = (frames.as_slice(), versions.as_slice());
    let counts = compare(&rt, alloc, channel(16_424), frames, versions)?;
    assert_same!(rt; counts.programs, MET);
    assert!(rt; counts.packets > 257, "{} packets", counts.packets);
    Ok(())
}

/// A channel to which no frame was offered has its end alone.
#[test]
fn pieces_of_no_frame_agree(rt: HostRuntime) -> Result<(), Fail> {
    let alloc = rt.alloc();
    let versions = ten_versions(alloc, sixteenths_of(0))?;
    let counts = compare(&rt, alloc, channel(16_424), &[], versions.as_slice())?;
    assert_same!(rt; (counts.programs, counts.packets), (0, 0));
    Ok(())
}

/// A channel of this limit.
fn channel(limit: usize) -> Channel {
    Channel {
        id: 300,
        limit,
        net: 0xa7,
        speed: 0xb,
        span: None,
    }
}

/// Marks in sixteenths of so many frames.
fn sixteenths_of(frames: usize) -> [usize; 10] {
    SIXTEENTHS.map(|sixteenths| frames.saturating_mul(sixteenths) / 16)
}

/// Drawn marks that begin with 0 and never fall. Many are equal, and some come after 96 frames.
pub(super) fn drawn_marks(draws: &mut Draws) -> [usize; 10] {
    let mut last = 0usize;
    let mut marks = [0; 10];
    for mark in marks[1..].iter_mut() {
        let further = draws.below(32).saturating_sub(10);
        last = last.saturating_add(usize::from(further));
        *mark = last;
    }
    marks
}

/// The ten programs as versions with these marks.
pub(super) fn ten_versions(alloc: Global, marks: [usize; 10]) -> Result<Vec<PlainVersion>, Fail> {
    let mut versions = Vec::new(alloc);
    for (mark, listing) in marks.iter().zip(PROGRAMS) {
        versions.push(version(alloc, *mark, listing)?)?;
    }
    Ok(versions)
}

/// So many frames whose lengths are drawn from a list.
fn drawn_frames(
    alloc: Global,
    draws: &mut Draws,
    count: usize,
    lengths: &[usize],
) -> Result<Vec<PlainFrame>, Fail> {
    let mut frames = Vec::new(alloc);
    for _ in 0..count {
        let len = drawn_length(draws, lengths)?;
        frames.push(drawn_frame(alloc, draws, len.min(MAX_FRAME_LEN))?)?;
    }
    Ok(frames)
}

/// How many pieces of a channel are programs, and how many are packets of frames.
#[derive(Clone, Copy)]
struct Counts {
    programs: usize,
    packets: usize,
}

/// Offers the frames to a lane one by one, and stops unless its pieces are those that are read,
/// after each frame and at the end.
fn compare(
    rt: &impl Abort,
    alloc: Global,
    channel: Channel,
    frames: &[PlainFrame],
    versions: &[PlainVersion],
) -> Result<Counts, Fail> {
    let mut lane = Lane::new(alloc, lane_spec(channel)?)?;
    let mut slot = new_slot(alloc, versions)?;
    let mut given = Vec::new(alloc);
    for number in 0..frames.len() {
        let before = &frames[..number + 1];
        install_at(&mut slot, versions, number)?;
        let value = offer(&mut lane, &mut slot, &frames[number], &mut given)?;
        assert_same!(rt; Some(value), last_value(before, versions), "frame {number}");
        let read = pieces_so_far(alloc, channel, before, versions)?;
        let difference = first_difference(given.as_slice(), read.as_slice());
        assert_same!(rt; difference, None, "after frame {number}");
    }
    install_at(&mut slot, versions, frames.len())?;
    for piece in lane.end() {
        given.push(piece)?;
    }
    let read = all_pieces(alloc, channel, frames, versions)?;
    let difference = first_difference(given.as_slice(), read.as_slice());
    assert_same!(rt; difference, None, "at the end");
    Ok(counts_of(given.as_slice()))
}

/// A slot whose first version is that of the list.
pub(super) fn new_slot(alloc: Global, versions: &[PlainVersion]) -> Result<Slot, Fail> {
    let first = versions.first().ok_or("a first version")?;
    Ok(Slot::new(alloc, Arc::try_clone(&first.program)?, u64::MAX)?)
}

/// Installs the versions, from the second one on, whose mark is this number of frames.
pub(super) fn install_at(
    slot: &mut Slot,
    versions: &[PlainVersion],
    number: usize,
) -> Result<(), Fail> {
    for version in versions.iter().skip(1) {
        if version.mark == number {
            slot.install(Arc::try_clone(&version.program)?)?;
        }
    }
    Ok(())
}

/// The index of the first piece that isn't the one that is read there, or that one of the two
/// lists lacks.
pub(super) fn first_difference(given: &[Piece], read: &[ReadPiece]) -> Option<usize> {
    let longest = given.len().max(read.len());
    (0..longest).find(|at| match (given.get(*at), read.get(*at)) {
        (Some(piece), Some(read)) => !is_same(piece, read),
        _ => true,
    })
}

/// Whether a piece is the one that is read.
fn is_same(piece: &Piece, read: &ReadPiece) -> bool {
    let same = match (piece, &read.holds) {
        (
            Piece::Program(given),
            Holds::Program {
                version,
                first,
                insns,
            },
        ) => {
            (given.version as usize, given.first as usize) == (*version, *first)
                && given.counter == read.counter
                && given.program.insns() == insns.as_slice()
        }
        (Piece::Data(given), Holds::Data { count, body }) => {
            usize::from(given.body.count()) == *count
                && given.body.counter() == read.counter
                && given.body.bytes() == body.as_slice()
        }
        (Piece::End(given), Holds::End { offered, kept }) => {
            (given.offered as usize, given.kept as usize) == (*offered, *kept)
                && given.counter == read.counter
        }
        _ => false,
    };
    same && piece.channel() == read.channel
}

/// How many pieces are programs and packets.
fn counts_of(pieces: &[Piece]) -> Counts {
    let programs = pieces
        .iter()
        .filter(|piece| matches!(piece, Piece::Program(_)));
    let packets = pieces
        .iter()
        .filter(|piece| matches!(piece, Piece::Data(_)));
    Counts {
        programs: programs.count(),
        packets: packets.count(),
    }
}
