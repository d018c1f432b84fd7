//! Where the frames of each channel are.
use rec_reader::*;
use std::alloc::Global;
use std::test::Fail;
use test_samples::{ACCEPTING, END, FRAMES, REJECTING, assert_same, joined_bytes};

/// A packet of no frames of channel 1, and one of a frame of channel 2.
const NO_FRAMES: &str = "25eb 0100 1c000000 04000000 08 00 00 68 000000000000 4e53 00000000";

const OTHER_CHANNEL: &str = "25eb 0200 3c000000 22000000 08 00 00 68 200000000000 ad53 \
    01000000 200000000000 0000 12000003 ffffffffffff 020000000001 0806 a1b2c3d4 0000";

/// The index of the recording of these packets.
fn index_of(alloc: Global, texts: &[&str]) -> Result<Index, Fail> {
    let bytes = joined_bytes(alloc, texts)?;
    match read_recording(alloc, bytes.as_slice()) {
        Ok(recording) => Ok(Index::of(alloc, &recording)?),
        Err(_) => Err("a recording")?,
    }
}

/// The entry of a packet with this number and place, and this number of frames.
fn entry(packet: u64, at: u64, frames: u16) -> Entry {
    Entry { packet, at, frames }
}

#[test]
fn an_index_lists_the_packets_of_frames(rt: HostRuntime) -> Result<(), Fail> {
    let index = index_of(rt.alloc(), &[REJECTING, ACCEPTING, FRAMES, END])?;
    assert_same!(rt; index.packets_of(1), [entry(2, 120, 1)].as_slice());
    assert_same!(rt; index.packets_of(0).len(), 0);
    let mixed = [NO_FRAMES, OTHER_CHANNEL, FRAMES, OTHER_CHANNEL, REJECTING];
    let index = index_of(rt.alloc(), &mixed)?;
    let one = [entry(0, 0, 0), entry(2, 88, 1)];
    assert_same!(rt; index.packets_of(1), one.as_slice());
    let two = [entry(1, 28, 1), entry(3, 148, 1)];
    assert_same!(rt; index.packets_of(2), two.as_slice());
    assert_same!(rt; index.packets_of(3).len(), 0);
    Ok(())
}
