//! Single calls at full size.

use crate::lane::{lane, offer};
use crate::world::{core_of, spec_of};
use crate::writer::{put, wide};
use bpf_verify::Verified;
use ch11_packet::MIN_LIMIT;
use eth_frame::{Frame, MAX_FRAME_LEN, MIN_FRAME_LEN, OwnedFrame};
use rec_channel::{Front, MAX_CHANNELS, MAX_VERSIONS, SharedSlot, Slot};
use rec_core::{ChannelSpec, Event, run_world};
use rec_lane::{EndPiece, Lane, Piece};
use rec_writer::Writer;
use std::alloc::Global;
use std::sync::{Arc, Wait};
use std::test::Fail;
use test_samples::{assert_same, program};

/// Accepts each frame.
const ACCEPT: &str = "1,6 0 0 1,";

/// How many frames are drawn from a slot.
const DRAWN: u64 = 70_000;

/// The number of the last version.
const LAST_VERSION: u64 = MAX_VERSIONS as u64 - 1;

/// The version that the frame of a number meets, where each frame but the first comes after an install
/// as long as there is room for a version.
fn version_at(number: u64) -> u64 {
    number.min(LAST_VERSION)
}

/// Whether the frame of a number comes after an install.
fn is_installed_at(number: u64) -> bool {
    number > 0 && version_at(number) == number
}

/// Draws the frame of a number from a slot, after its install: its number and its version.
fn draw(slot: &mut Slot, accept: &Arc<Verified, Global>, number: u64) -> Result<(u64, u64), Fail> {
    if is_installed_at(number) {
        slot.install(Arc::try_clone(accept)?)?;
    }
    let drawn = slot.draw()?;
    Ok((drawn.number, u64::from(drawn.version)))
}

#[test]
fn a_slot_draws_70000_frames_under_1024_versions(rt: HostRuntime) -> Result<(), Fail> {
    let accept = program(rt.alloc(), ACCEPT)?;
    let mut slot = Slot::new(rt.alloc(), Arc::try_clone(&accept)?, DRAWN)?;
    for number in 0..DRAWN {
        let drawn = draw(&mut slot, &accept, number)?;
        assert_same!(rt; drawn, (number, version_at(number)));
    }
    Ok(())
}

/// Draws the frame of a number from a shared slot, after its install. Each other frame is drawn by the
/// call that tells of new versions alone. The front is that of the draws, so each version is new to
/// it.
fn draw_shared<R: Wait>(
    rt: &R,
    slot: &SharedSlot,
    accept: &Arc<Verified, Global>,
    front: &mut Front,
    number: u64,
) -> Result<(), Fail> {
    if is_installed_at(number) {
        slot.install(rt, Arc::try_clone(accept)?, &Front::START)?;
    }
    if number % 2 == 0 {
        (_, *front) = slot.draw(rt, front)?;
    } else {
        slot.draw_since(rt, front)?;
    }
    Ok(())
}

#[test]
fn a_shared_slot_draws_70000_frames_under_1024_versions(rt: HostRuntime) -> Result<(), Fail> {
    let accept = program(rt.alloc(), ACCEPT)?;
    let slot = SharedSlot::new(Slot::new(rt.alloc(), Arc::try_clone(&accept)?, DRAWN)?);
    let mut front = Front::START;
    for number in 0..DRAWN {
        draw_shared(&rt, &slot, &accept, &mut front, number)?;
        let version = version_at(number).saturating_add(1);
        assert_same!(rt;
            (u64::from(front.versions), front.offered),
            (version, number + 1)
        );
    }
    Ok(())
}

/// Gives a lane its buffer, and offers it the next frame of the slot.
fn fill(lane: &mut Lane, slot: &mut Slot, frame: &Frame<'_>) -> Result<(), Fail> {
    lane.ready()?;
    offer(lane, slot, frame)?;
    Ok(())
}

/// Each frame fills a packet, so that the lane takes a buffer for each.
#[test]
fn a_lane_takes_1500_buffers(rt: HostRuntime) -> Result<(), Fail> {
    let zeros = vec![in rt.alloc(); 0u8; MAX_FRAME_LEN]?;
    let frame = Frame::new(0, false, false, zeros.as_slice()).ok_or("a frame")?;
    let mut slot = Slot::new(rt.alloc(), program(rt.alloc(), ACCEPT)?, u64::MAX)?;
    let mut lane = lane(rt.alloc(), MIN_LIMIT)?;
    for kept in 1..1_501 {
        fill(&mut lane, &mut slot, &frame)?;
        assert_same!(rt; (lane.kept(), lane.is_ready()), (kept, kept == 1));
    }
    Ok(())
}

#[test]
fn a_writer_puts_100001_pieces(rt: HostRuntime) -> Result<(), Fail> {
    let mut writer = Writer::new(wide(rt.alloc(), usize::MAX), &[1], 8);
    let end = Piece::End(EndPiece {
        channel: 1,
        counter: 0,
        offered: 0,
        kept: 0,
    });
    for _ in 0..100_001 {
        put(&mut writer, &end)??;
    }
    assert_same!(rt; (writer.whole(), writer.out().writes), (100_001, 300_003));
    assert_same!(rt; writer.out().bytes.len(), 5_600_056);
    Ok(())
}

/// The channels of a core, as many as it may have.
fn all_specs(alloc: Global) -> Result<Vec<ChannelSpec>, Fail> {
    let mut specs = Vec::new(alloc);
    for channel in 1..=MAX_CHANNELS as u16 {
        specs.push(spec_of(alloc, channel, u64::MAX, ACCEPT)?)?;
    }
    Ok(specs)
}

/// A frame of zeros.
fn frame_of(alloc: Global, len: usize) -> Result<OwnedFrame, Fail> {
    let zeros = vec![in alloc; 0u8; len]?;
    let frame = Frame::new(0, false, false, zeros.as_slice()).ok_or("a frame")?;
    Ok(frame.to_owned(alloc)?)
}

/// How many frames channel 1 takes before any of its pieces is sent.
const WAITING: usize = 300;

/// How many frames each other channel takes.
const FRAMES: usize = 60;

/// Adds the events of a channel that takes frames of this length.
fn push_frames(
    events: &mut Vec<Event>,
    alloc: Global,
    channel: u16,
    frames: usize,
    len: usize,
) -> Result<(), Fail> {
    for _ in 0..frames {
        let frame = frame_of(alloc, len)?;
        events.push(Event::Take { channel, frame })?;
    }
    Ok(())
}

/// Adds the events of a channel that takes frames, is closed, and then sends and writes its pieces.
fn push_events(events: &mut Vec<Event>, alloc: Global, channel: u16) -> Result<(), Fail> {
    // the last packet comes with the end
    let (frames, len, pieces) = if channel == 1 {
        (WAITING, MAX_FRAME_LEN, WAITING + 2)
    } else {
        (FRAMES, MIN_FRAME_LEN, 3)
    };
    push_frames(events, alloc, channel, frames, len)?;
    events.push(Event::Close { channel })?;
    for _ in 0..pieces {
        events.push(Event::Send { channel })?;
        events.push(Event::Write { channel })?;
    }
    Ok(())
}

/// The events of all channels.
fn all_events(alloc: Global) -> Result<Vec<Event>, Fail> {
    let mut events = Vec::new(alloc);
    for channel in 1..=MAX_CHANNELS as u16 {
        push_events(&mut events, alloc, channel)?;
    }
    Ok(events)
}

/// Of channel 1 there go out a program, 300 packets of a frame each, and an end: 64 bytes, 300 times
/// 16,428, and 56. Of each of the others a program, a packet of 60 frames, and an end: 64 bytes, 1,832
/// and 56.
#[test]
fn a_core_of_64_channels_does_thousands_of_events(rt: HostRuntime) -> Result<(), Fail> {
    let specs = all_specs(rt.alloc())?;
    let out = wide(rt.alloc(), usize::MAX);
    let mut world = core_of(rt.alloc(), specs.as_slice(), 64, out)?;
    let events = all_events(rt.alloc())?;
    let answers = run_world(rt.alloc(), &mut world, events.as_slice())?;
    assert!(rt; answers.iter().all(|answer| answer.is_ok()));
    assert_same!(rt; answers.len(), 5_126);
    assert_same!(rt; world.out().bytes.len(), 5_051_496);
    Ok(())
}
