//! Recordings whose rings of pieces fill.

ghost use Rattle.std.specs.Prelude.{◌≤◌};

use super::parts::*;
use super::runs::{plain, recorded};
use rec_reader::{frames_of, read_recording};
use std::alloc::Global;
use std::sync::{Arc, Wait};
use std::test::Fail;
use std::thread::Threads;
use test_samples::{all_bytes, assert_same};

/// The least even number of bytes of which two frames don't fit a packet of the least limit.
const FILLING: usize = 8_188;

/// The stage of a frame of so many bytes.
fn filling(alloc: Global) -> Result<Stage, Fail> {
    let mut record = all_bytes(alloc, "100000000000 00 fc1f")?;
    record.resize(9 + FILLING, 0)?;
    Ok(plain(record))
}

/// Records frames of which each is alone in its packet, while the output takes nothing until the source is
/// asked for the last but one: by then the writer has the program's piece, the ring is full, and
/// the piece after that is still to come. The source is not asked for the last one before the
/// output goes on. The pieces and bytes that went out, and the frames that are read of them.
fn fill_the_ring<R: Threads + Wait + Sync>(
    rt: &R,
    alloc: Global,
    ring: usize,
) -> Result<(u64, usize, usize), Fail>
    requires { (1 ≤ ring) × (ring ≤ 4096) }
{
    const ASKED: usize = 0;
    const ASKED_AGAIN: usize = 1;
    let marks = fresh_marks(alloc)?;
    let mut stages = Vec::new(alloc);
    let mut first = filling(alloc)?;
    first.again = ring;
    stages.push(first)?;
    let mut then = filling(alloc)?;
    then.began = ASKED;
    stages.push(then)?;
    let mut last = filling(alloc)?;
    last.began = ASKED_AGAIN;
    stages.push(last)?;
    let mut jobs = Vec::new(alloc);
    let source = source(Arc::try_clone(&marks)?, stages);
    jobs.push(job(alloc, 1, "1,6 0 0 1,", source)?)?;
    let control = fresh_script(alloc, Arc::try_clone(&marks)?, Vec::new(alloc), NONE);
    let mut out = output(alloc, marks, usize::MAX);
    out.needs = ASKED;
    out.refuses = ASKED_AGAIN;
    let done = recorded(rt, alloc, jobs, ring, control, out)?;
    let bytes = done.out.output.bytes.as_slice();
    let Ok(recording) = read_recording(alloc, bytes) else {
        return Err("a recording that is read".into());
    };
    let mut frames = 0usize;
    for frame in frames_of(alloc, &recording, 1)?.as_slice() {
        if frame.bytes.len() == FILLING {
            frames = frames.saturating_add(1);
        }
    }
    Ok((done.report.pieces, bytes.len(), frames))
}

/// The packets are that of the program, 64 bytes, those of `ring + 3` frames, 8,232 bytes each,
/// and that of the end, 56 bytes.
#[test]
fn a_ring_has_room_for_1_to_4096_pieces(rt: HostRuntime) -> Result<(), Fail> {
    let alloc = rt.alloc();
    assert_same!(rt; fill_the_ring(&rt, alloc, 1)?, (6, 33_048, 4));
    assert_same!(rt; fill_the_ring(&rt, alloc, 2)?, (7, 41_280, 5));
    assert_same!(rt;
        fill_the_ring(&rt, alloc, 4_096)?,
        (4_101, 33_743_088, 4_099)
    );
    Ok(())
}
