//! A turn of a worker: one frame, or one time mark.

ghost use Rattle.std.specs.Prelude.{◌≡◌, ◌-◌, ◌^◌, ◌<◌, true};
ghost use Rattle.rtrb.specs.Ring.{SameProducer};
ghost use Rattle.eth_frame.specs.Views.{frame_data};
ghost use Rattle.rec_run.specs.WorkerSteps.{RecordsFrame, RecordsTime, StepsOn};

use crate::ending::{Ending, WorkerEnd};
use crate::pause::Pause;
use crate::stop::is_stopped;
use crate::worker::Worker;
use crate::worker::versions::{MetVersion, last_version, meet};
use crate::worker::waits::{make_ready, send, send_all};
use ch11_packet::Blank;
use eth_frame::{Frame, FrameBuf, FrameSource, Next};
use rec_channel::{DrawFault, Drawn, DrawnSince, Front, SharedSlot};
use rec_lane::{Lane, OfferedKnown, Piece};
use rtrb::{Consumer, Producer};
use std::sync::Wait;
use std::sync::atomic::AtomicU64;

/// Takes one frame or time mark from the source, and sends the pieces that are certain then; or tells
/// why the worker does not go on.
#[tactic(auto, using(crate::proofs::Sources::times_first, crate::proofs::Sources::times_all))]
pub(crate) fn step<S: FrameSource + Drop, R: Wait>(
    worker: &mut Worker<S>,
    buffer: &mut FrameBuf,
    rt: &R,
    slot: &SharedSlot,
    stop: &AtomicU64,
) -> Option<WorkerEnd>
    ensures ring { SameProducer worker.old.ring worker.new.ring }
    ensures max { worker.new.max ≡ worker.old.max }
    ensures settings { worker.new.lane.settings ≡ worker.old.lane.settings }
    ensures steps { StepsOn S.left S.failures S.ending worker.old worker.new result }
{
    if is_stopped(stop) {
        return Some(WorkerEnd::Ended(Ending::Stopped));
    }
    if let Some(end) = make_ready(rt, stop, &mut worker.blanks, &mut worker.lane) {
        return Some(end);
    }
    if worker.lane.offered() == worker.max {
        return Some(WorkerEnd::Ended(Ending::CountFull));
    }
    match worker.source.next(buffer) {
        Ok(Next::Frame) => {}
        Ok(Next::Time(counter)) => return record_time(worker, counter, rt, stop),
        Ok(Next::End) => return Some(WorkerEnd::Ended(Ending::SourceEnd)),
        Err(fault) => return Some(WorkerEnd::Ended(Ending::SourceFault(fault))),
    }
    let Some(frame) = buffer.frame() else {
        unreachable!()
    };
    record_frame(worker, &frame, rt, slot, stop)
}

/// Gives a time mark to the lane, and sends the packet that is certain then.
// rare, and apart so that frames pay nothing for it
#[cold]
#[inline(never)]
fn record_time<S: Drop, R: Wait>(
    worker: &mut Worker<S>,
    counter: u64,
    rt: &R,
    stop: &AtomicU64,
) -> Option<WorkerEnd>
    requires { worker.old.lane.ready ≡ true }
    ensures ring { SameProducer worker.old.ring worker.new.ring }
    ensures max { worker.new.max ≡ worker.old.max }
    ensures source { worker.new.source ≡ worker.old.source }
    ensures settings { worker.new.lane.settings ≡ worker.old.lane.settings }
    ensures records { RecordsTime worker.old worker.new counter result }
{
    let packet = worker.lane.at(counter);
    match packet {
        None => None,
        Some(packet) => {
            if send(rt, stop, &mut worker.ring, Piece::Data(packet)) {
                None
            } else {
                Some(WorkerEnd::Ended(Ending::Stopped))
            }
        }
    }
}

/// Draws for a frame, offers it to the lane, and sends the pieces that are certain then.
fn record_frame<S: Drop, R: Wait>(
    worker: &mut Worker<S>,
    frame: &Frame<'_>,
    rt: &R,
    slot: &SharedSlot,
    stop: &AtomicU64,
) -> Option<WorkerEnd>
    requires { worker.old.lane.ready ≡ true }
    ensures ring { SameProducer worker.old.ring worker.new.ring }
    ensures max { worker.new.max ≡ worker.old.max }
    ensures source { worker.new.source ≡ worker.old.source }
    ensures settings { worker.new.lane.settings ≡ worker.old.lane.settings }
    ensures records { RecordsFrame worker.old worker.new (frame_data frame.now) result }
{
    let mut pause = Pause::new();
    'turns: for _ in rt.forever() {
        match slot.draw_since(rt, &mut worker.front) {
            Ok(DrawnSince::NoVersion(number)) => {
                return record_known(worker, frame, number, rt, stop);
            }
            Ok(DrawnSince::LaterVersion(drawn)) => {
                return record_later(worker, frame, drawn, rt, stop);
            }
            // a program has too many shares just now
            Err(DrawFault::Memory) => {}
            Err(_) => return Some(WorkerEnd::History),
        }
        if is_stopped(stop) {
            return Some(WorkerEnd::Ended(Ending::Stopped));
        }
        pause.wait(rt);
    }
    unreachable!()
}

/// Offers a frame that was drawn, and meets the version which the frame before it met.
#[inline(always)]
fn record_known<S: Drop, R: Wait>(
    worker: &mut Worker<S>,
    frame: &Frame<'_>,
    number: u64,
    rt: &R,
    stop: &AtomicU64,
) -> Option<WorkerEnd>
    requires ready { worker.old.lane.ready ≡ true }
    requires few { number < 2 ^ 64 - 1 }
    ensures ring { SameProducer worker.old.ring worker.new.ring }
    ensures max { worker.new.max ≡ worker.old.max }
    ensures source { worker.new.source ≡ worker.old.source }
    ensures settings { worker.new.lane.settings ≡ worker.old.lane.settings }
    ensures records { RecordsFrame worker.old worker.new (frame_data frame.now) result }
{
    let Some(version) = last_version(worker.met.as_slice()) else {
        return Some(WorkerEnd::History);
    };
    if number != worker.lane.offered() || !worker.lane.is_current(version) {
        return Some(WorkerEnd::History);
    }
    let OfferedKnown { packet, .. } = worker.lane.offer_known(frame);
    match packet {
        None => None,
        Some(packet) => {
            if send(rt, stop, &mut worker.ring, Piece::Data(packet)) {
                None
            } else {
                Some(WorkerEnd::Ended(Ending::Stopped))
            }
        }
    }
}

/// Offers a frame that was drawn, and meets a later version than the frame before it.
// rare, and apart so that the frames of one version pay nothing for it
#[cold]
#[inline(never)]
fn record_later<S: Drop, R: Wait>(
    worker: &mut Worker<S>,
    frame: &Frame<'_>,
    drawn: Drawn,
    rt: &R,
    stop: &AtomicU64,
) -> Option<WorkerEnd>
    requires ready { worker.old.lane.ready ≡ true }
    requires few { drawn.number < 2 ^ 64 - 1 }
    ensures ring { SameProducer worker.old.ring worker.new.ring }
    ensures max { worker.new.max ≡ worker.old.max }
    ensures source { worker.new.source ≡ worker.old.source }
    ensures settings { worker.new.lane.settings ≡ worker.old.lane.settings }
    ensures records { RecordsFrame worker.old worker.new (frame_data frame.now) result }
{
    if drawn.number != worker.lane.offered() || !meet(rt, &mut worker.met, &drawn) {
        return Some(WorkerEnd::History);
    }
    let offered = worker.lane.offer(frame, drawn);
    if send_all(rt, stop, &mut worker.ring, offered.pieces) {
        None
    } else {
        Some(WorkerEnd::Ended(Ending::Stopped))
    }
}
