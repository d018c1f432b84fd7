//! A worker's thread: what it starts with, what it promises, and what it gives back.

ghost use Rattle.std.specs.Prelude.{ℕ, ◌≡◌, List, [], IfOk};
ghost use Rattle.rtrb.specs.Ring.{sent, SameProducer};
ghost use Rattle.rec_lane.specs.Settings.{spec_data};
ghost use Rattle.rec_lane.specs.Lanes.{new_lane};
ghost use Rattle.rec_lane.specs.Views.{pieces_data};
ghost use Rattle.rec_run.specs.WorkerRuns.{versions_met, RanAs};
ghost use Rattle.rec_run.specs.WorkerThread.{StartsWith, SendsLast, KeepsWorker};
ghost use Rattle.rec_run.specs.WorkerSteps.{ComesTo};

use crate::ending::{Ending, WorkerEnd};
use crate::job::Job;
use crate::stop::set_stop;
use crate::worker::Worker;
use crate::worker::step::step;
use crate::worker::versions::MetVersion;
use crate::worker::waits::send_all;
use bpf_verify::Verified;
use ch11_packet::Blank;
use eth_frame::{FrameBuf, FrameSource};
use rec_channel::{Front, SharedSlot};
use rec_lane::{Lane, Piece};
use rtrb::{Consumer, Producer};
use std::alloc::{AllocError, Global};
use std::snapshot::Snapshot;
use std::sync::atomic::AtomicU64;
use std::sync::{Arc, Wait};
use std::thread::{Promise, PromisedHandle, Scope, Threads};

/// What a worker works with, beside its job: all of it is made before it starts.
#[derive(Drop)]
pub(crate) struct Tools {
    pub(crate) lane: Lane,
    pub(crate) ring: Producer<Piece>,
    pub(crate) blanks: Consumer<Blank>,
    pub(crate) met: Vec<MetVersion>,
}

/// What a worker gives back.
#[derive(Drop)]
pub(crate) struct WorkerDone<S: Drop> {
    pub(crate) program: Arc<Verified, Global>,
    pub(crate) source: S,
    pub(crate) ring: Producer<Piece>,
    pub(crate) met: Vec<MetVersion>,
    pub(crate) offered: u64,
    pub(crate) kept: u64,
    pub(crate) end: WorkerEnd,
}

/// Records the frames of a job until its source ends, it has all frames that it may have, or the
/// recording stops.
pub(crate) fn work<S: FrameSource + Drop, R: Wait>(
    rt: &R,
    job: Job<S>,
    slot: &SharedSlot,
    stop: &AtomicU64,
    tools: Tools,
) -> WorkerDone<S>
    requires { StartsWith tools (spec_data job.spec) }
    ensures program { result.program ≡ job.program }
    ensures ring { SameProducer tools.ring result.ring }
    ensures ran { RanAs S.left S.failures S.ending (spec_data job.spec) job.max result.end
        job.source result.source (versions_met result.met.items) (pieces_data (sent result.ring))
        result.offered result.kept }
{
    let Job {
        program,
        max,
        source,
        ..
    } = job;
    let Tools {
        lane,
        ring,
        blanks,
        met,
    } = tools;
    let mut worker = Worker {
        source,
        lane,
        met,
        ring,
        blanks,
        front: Front::START,
        max,
    };
    let mut buffer = FrameBuf::new();
    'frames: for _ in rt.forever() {
        if let Some(end) = step(&mut worker, &mut buffer, rt, slot, stop) {
            return finish(rt, stop, program, worker, end);
        }
    }
    unreachable!()
}

/// Sends the last pieces of a channel that is over; another one stops the recording.
fn finish<S: FrameSource + Drop, R: Wait>(
    rt: &R,
    stop: &AtomicU64,
    program: Arc<Verified, Global>,
    worker: Worker<S>,
    end: WorkerEnd,
) -> WorkerDone<S>
    ensures program { result.program ≡ program }
    ensures ring { SameProducer worker.ring result.ring }
    ensures ran { (before : S) → ComesTo S.left S.failures S.ending before worker end
        → RanAs S.left S.failures S.ending worker.lane.settings worker.max result.end before
        result.source (versions_met result.met.items) (pieces_data (sent result.ring))
        result.offered result.kept }
{
    let Worker {
        source,
        lane,
        met,
        mut ring,
        ..
    } = worker;
    let offered = lane.offered();
    let kept = lane.kept();
    let end = last_pieces(rt, stop, &mut ring, lane, end);
    WorkerDone {
        program,
        source,
        ring,
        met,
        offered,
        kept,
        end,
    }
}

/// Sends the last pieces of a lane if its channel is over; else stops the recording.
fn last_pieces<R: Wait>(
    rt: &R,
    stop: &AtomicU64,
    ring: &mut Producer<Piece>,
    lane: Lane,
    end: WorkerEnd,
) -> WorkerEnd
    ensures ring { SameProducer ring.old ring.new }
    ensures last { SendsLast lane end result
        (pieces_data (sent ring.old)) (pieces_data (sent ring.new)) }
{
    match end {
        WorkerEnd::Ended(ending) if ending.is_over() => {
            if send_all(rt, stop, ring, lane.end()) {
                end
            } else {
                WorkerEnd::Ended(Ending::Stopped)
            }
        }
        _ => {
            set_stop(stop);
            end
        }
    }
}

/// The job that a worker's thread got, and the end of its ring.
#[derive(Drop)]
pub(crate) struct Works<S: Drop> {
    pub(crate) job: Snapshot<Job<S>>,
    pub(crate) ring: Snapshot<Producer<Piece>>,
}

impl<S: FrameSource + Drop> Promise<WorkerDone<S>> for Works<S> {
    ghost kept_by = { λ p done.
        KeepsWorker S.left S.failures S.ending p.job.value p.ring.value done };
}

/// Starts the thread of a worker.
pub(crate) fn start<'s, E, S: FrameSource + Send + Drop + 's, R: Threads + Wait + Sync>(
    scope: &Scope<'s, E>,
    rt: &'s R,
    job: Job<S>,
    slot: &'s SharedSlot,
    stop: &'s AtomicU64,
    tools: Tools,
) -> Result<PromisedHandle<WorkerDone<S>, Works<S>>, AllocError>
    requires { StartsWith tools (spec_data job.spec) }
    ensures { IfOk result (λ h. (h.promise.job.value ≡ job) × (h.promise.ring.value ≡ tools.ring)) }
{
    let promise = Works {
        job: Snapshot::of(&job),
        ring: Snapshot::of(&tools.ring),
    };
    let handle = scope.spawn_with(
        promise,
        move || -> WorkerDone<S>
            requires { StartsWith tools (spec_data job.spec) }
            ensures { KeepsWorker S.left S.failures S.ending job tools.ring result }
        { work(rt, job, slot, stop, tools) },
    )?;
    Ok(handle)
}
