//! The pieces of a recording's channels, read at their places.

use ch11_file::OwnedPiece;
use ch11_merge::{Head, PieceFault, PieceSource};
use rec_pieces::*;
use rec_reader::Reader;
use std::alloc::Global;
use std::io;
use std::io::{ErrorKind, Read};
use std::test::Fail;
use test_samples::{CHECKED, all_bytes, assert_same, joined_bytes};

/// Where the packets of the recording end.
const ENDS: [usize; 4] = [64, 128, 192, 248];

/// The body of its packet of frames as it goes out.
const FRAMES_BODY: &str =
    "01000000 200000000000 0000 12000003 ffffffffffff 020000000001 0806 a1b2c3d4";

/// A packet of another kind, and one of no frames, of channel 7.
const SETUP: &str = "25eb 0000 1c000000 04000000 08 00 00 01 000000000000 4dec 00000000";

const NO_FRAMES: &str = "25eb 0700 1c000000 04000000 08 00 00 68 000000000000 5453 00000000";

/// A file in memory, which gives at most a few bytes a read, and fails from a place on.
#[derive(Drop)]
struct Held<'a> {
    bytes: &'a [u8],
    most: usize,
    fails_from: u64,
}

impl PlacedRead for Held<'_> {
    ghost use Rattle.std.specs.Prelude.{None};

    ghost held = { λ _. None };

    fn read_at(&self, buf: &mut [u8], at: u64) -> io::Result<usize> {
        if at >= self.fails_from {
            return Err(io::Error::from(ErrorKind::Other));
        }
        let start = self.bytes.len().min(at as usize);
        let mut rest = &self.bytes[start..];
        if rest.len() > self.most {
            rest = &rest[..self.most];
        }
        rest.read(buf)
    }
}

fn listing_of(alloc: Global, bytes: &[u8]) -> Result<PieceListing, Fail> {
    let mut reader = Reader::new(alloc, bytes);
    match list_recording(alloc, &mut reader) {
        Ok(listing) => Ok(listing),
        Err(_) => Err("a recording".into()),
    }
}

/// The pieces of a channel up to its end or a fault, and that.
fn pieces_of<F: PlacedRead>(
    alloc: Global,
    file: &F,
    entries: &[PieceEntry],
) -> Result<(Vec<OwnedPiece>, Option<PieceFault>), Fail> {
    let mut pieces = Vec::new(alloc);
    let packets = FilePackets::new(file);
    let mut source = match ChannelPieces::new(alloc, &packets, entries) {
        Ok(source) => source,
        Err(fault) => return Ok((pieces, Some(fault))),
    };
    'pieces: for _ in 0..entries.len() {
        match source.head() {
            Head::End => return Ok((pieces, None)),
            Head::At(counter) if counter >= u64::MAX => return Err("a counter of 48 bits".into()),
            Head::At(_) | Head::Uncounted => {}
        }
        match source.take(u64::MAX) {
            Ok(piece) => pieces.push(piece)?,
            Err(fault) => return Ok((pieces, Some(fault))),
        }
    }
    Ok((pieces, None))
}

#[test]
fn a_listing_names_the_packets_of_each_channel(rt: HostRuntime) -> Result<(), Fail> {
    let alloc = rt.alloc();
    let mut bytes = joined_bytes(alloc, &CHECKED)?;
    bytes.extend_from_slice(all_bytes(alloc, NO_FRAMES)?.as_slice())?;
    bytes.extend_from_slice(all_bytes(alloc, SETUP)?.as_slice())?;
    bytes.extend_from_slice(all_bytes(alloc, SETUP)?.as_slice())?;
    let listing = listing_of(alloc, bytes.as_slice())?;
    assert!(rt; listing.channels(alloc)?.as_slice() == [1, 7].as_slice());
    assert_same!(rt; listing.least(), Some(16));
    assert_same!(rt; listing.other(), Some(276));
    let wanted = [
        PieceEntry {
            at: 0,
            kind: PieceKind::Record,
        },
        PieceEntry {
            at: 64,
            kind: PieceKind::Record,
        },
        PieceEntry {
            at: 128,
            kind: PieceKind::Frames,
        },
        PieceEntry {
            at: 192,
            kind: PieceKind::Record,
        },
    ];
    assert!(rt; listing.packets_of(1) == wanted.as_slice());
    assert!(rt; listing.packets_of(2).is_empty());
    Ok(())
}

#[test]
fn pieces_come_from_their_places_however_few_bytes_a_read_gives(
    rt: HostRuntime,
) -> Result<(), Fail> {
    let alloc = rt.alloc();
    let bytes = joined_bytes(alloc, &CHECKED)?;
    let listing = listing_of(alloc, bytes.as_slice())?;
    for &most in &[1, 7, 1_000] {
        let file = Held {
            bytes: bytes.as_slice(),
            most,
            fails_from: u64::MAX,
        };
        let (pieces, fault) = pieces_of(alloc, &file, listing.packets_of(1))?;
        assert_same!(rt; fault, None);
        let [
            OwnedPiece::Record { .. },
            OwnedPiece::Record { body, .. },
            OwnedPiece::Frames {
                place,
                body: frames,
            },
            OwnedPiece::Record { .. },
        ] = pieces.as_slice()
        else {
            return Err("four pieces".into());
        };
        assert_same!(rt; body.counter(), Some(32));
        assert_same!(rt; body.bytes().len(), 36);
        assert_same!(rt; *place, 128);
        assert_same!(rt; frames.bytes(), all_bytes(alloc, FRAMES_BODY)?.as_slice());
    }
    Ok(())
}

#[test]
fn a_file_that_is_shorter_or_fails_is_a_fault_of_the_device(rt: HostRuntime) -> Result<(), Fail> {
    let alloc = rt.alloc();
    let bytes = joined_bytes(alloc, &CHECKED)?;
    let listing = listing_of(alloc, bytes.as_slice())?;
    'lengths: for length in 0..bytes.len() {
        let whole = ENDS.iter().filter(|end| **end <= length).count();
        let shorter = Held {
            bytes: &bytes[..length],
            most: 1_000,
            fails_from: u64::MAX,
        };
        let failing = Held {
            bytes: bytes.as_slice(),
            most: 1,
            fails_from: length as u64,
        };
        for file in &[shorter, failing] {
            let (pieces, fault) = pieces_of(alloc, file, listing.packets_of(1))?;
            assert_same!(rt; fault, Some(PieceFault::Device));
            assert_same!(rt; pieces.len(), whole.saturating_sub(1));
        }
    }
    Ok(())
}
