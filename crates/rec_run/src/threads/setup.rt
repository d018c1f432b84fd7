//! What is made for each job before the first thread starts, and the start of the workers.

ghost use Rattle.std.specs.Prelude.{ℕ, ◌≡◌, ◌⊎◌, [], length, List, All, Some, slice_get, ◌+◌, ◌^◌, ◌<◌, ◌≤◌, vec_len, vec_capacity, IfOk, OnOk};
ghost use Rattle.rtrb.specs.Ring.{IsPair, sent, received, known_free, producer_capacity};
ghost use Rattle.rec_lane.specs.Settings.{spec_data};
ghost use Rattle.rec_core.specs.Buffers.{Move, FlowState, FlowSpec, FlowWorld, LeadTo, CanStep, IsMoving, IsAnyMoving, buffers_of, return_places, without_buffers, is_without_frames, work_left, most_steps};
ghost use Rattle.rec_core.specs.Buffers.Stage.{NeedsBuffer};
ghost use Rattle.rec_core.specs.Written.{AreEnded};
ghost use Rattle.rec_run.specs.WorkerThread.{StartsWith};
ghost use Rattle.rec_run.specs.Jobs.{IsJob};
ghost use Rattle.rec_run.specs.Threads.{jobs_in, job_at, jobs_of, IsUnread, AreUnread, IsSized, AreSized};

use crate::job::Job;
use crate::ranges::a_job_is_in_range;
use crate::threads::prepared::PreparedChannel;
use crate::worker::thread::{Tools, start};
use crate::writer::line::WriterLine;
use ch11_packet::{Blank, Limit};
use eth_frame::FrameSource;
use rec_channel::{MAX_VERSIONS, SharedSlot, Slot};
use rec_core::{
    a_recorder_comes_to_its_end, buffers_are_neither_lost_nor_doubled, no_channel_stands_still,
};
use rec_lane::{Lane, LaneSpec, Piece};
use rtrb::{Consumer, Producer, RingBuffer};
use std::alloc::{AllocError, Global};
use std::sync::atomic::AtomicU64;
use std::sync::{Arc, Wait};
use std::thread::{Scope, Threads};

/// How many empty buffers stand in a return ring at the start, beyond those for a full ring of
/// pieces: one for the open packet's successor, and one that is on its way.
const SPARE_BUFFERS: usize = 2;

/// Law: as many buffers are enough, in the model. With rings of any size from 1 on no channel stands
/// still; a worker that needs a buffer finds one; no buffer is lost, so the return ring has a place
/// for each one that comes back; and the steps are few and lead to the end.
pub fn the_spare_buffers_are_enough()
    ensures each { (ring : ℕ) (specs : List FlowSpec) (moves : List Move) (new : FlowWorld)
        → 0 < ring → LeadTo ring SPARE_BUFFERS specs moves new
        → (at : ℕ) (f : FlowState) → slice_get new.flows at ≡ Some f
        → IsMoving ring (return_places ring SPARE_BUFFERS) new at f }
    ensures moves { (ring : ℕ) (specs : List FlowSpec) (moves : List Move) (new : FlowWorld)
        → 0 < ring → LeadTo ring SPARE_BUFFERS specs moves new
        → IsAnyMoving ring (return_places ring SPARE_BUFFERS) new }
    ensures ready { (ring : ℕ) (specs : List FlowSpec) (moves : List Move) (new : FlowWorld)
        → LeadTo ring SPARE_BUFFERS specs moves new
        → All (λ (f : FlowState). f.stage ≡ NeedsBuffer → f.held ≡ 1 → 0 < f.returned) new.flows }
    ensures room { (ring : ℕ) (specs : List FlowSpec) (moves : List Move) (new : FlowWorld)
        → LeadTo ring SPARE_BUFFERS specs moves new
        → All (λ (f : FlowState). f.returned + f.hand < return_places ring SPARE_BUFFERS)
        new.flows }
    ensures count { (ring : ℕ) (specs : List FlowSpec) (moves : List Move) (new : FlowWorld)
        → LeadTo ring SPARE_BUFFERS specs moves new
        → All (λ (f : FlowState). buffers_of f ≡ return_places ring SPARE_BUFFERS) new.flows }
    ensures few { (ring : ℕ) (specs : List FlowSpec) (moves : List Move) (new : FlowWorld)
        → LeadTo ring SPARE_BUFFERS specs moves new
        → length moves + work_left new ≤ most_steps specs }
    ensures end { (ring : ℕ) (specs : List FlowSpec) (moves : List Move) (new : FlowWorld)
        → 0 < ring → LeadTo ring SPARE_BUFFERS specs moves new
        → AreEnded (without_buffers new)
        ⊎ ((at : ℕ) × CanStep ring (return_places ring SPARE_BUFFERS) new at is_without_frames) }
{
    no_channel_stands_still();
    buffers_are_neither_lost_nor_doubled();
    a_recorder_comes_to_its_end();
}

/// Makes the ring on which empty buffers come back: `ring + 2` of them are in it, and there is room
/// for one more.
fn return_ring(
    alloc: Global,
    ring: usize,
    limit: Limit,
) -> Result<(Producer<Blank>, Consumer<Blank>), AllocError>
    ensures pair { IfOk result (λ r. IsPair r.0 r.1) }
    ensures many { IfOk result (λ r. (length (sent r.0) ≡ ring + SPARE_BUFFERS)
        × (ring + SPARE_BUFFERS < 2 ^ 64)) }
    ensures places { IfOk result (λ r.
        producer_capacity r.0 ≡ return_places ring SPARE_BUFFERS) }
{
    let Some(places) = ring.checked_add(SPARE_BUFFERS + 1) else {
        return Err(AllocError);
    };
    let (mut returns, blanks) = RingBuffer::new(alloc, places)?;
    'buffers: for k in 0..ring + SPARE_BUFFERS {
        returns.push_reserved(Blank::with_limit(alloc, limit)?);
    }
    Ok((returns, blanks))
}

/// Makes what a worker with a lane of these settings needs, and the writer's ends of its rings.
fn make_tools(
    alloc: Global,
    ring: usize,
    spec: LaneSpec,
) -> Result<(Tools, Consumer<Piece>, Producer<Blank>), AllocError>
    ensures starts { IfOk result (λ r. StartsWith r.0 (spec_data spec)) }
    ensures pair { IfOk result (λ r. IsPair r.0.ring r.1 × (received r.1 ≡ [])) }
    ensures filled { IfOk result (λ r. (length (sent r.2) ≡ ring + SPARE_BUFFERS)
        × (ring + SPARE_BUFFERS < 2 ^ 64)) }
    ensures places { IfOk result (λ r.
        producer_capacity r.2 ≡ return_places ring SPARE_BUFFERS) }
    ensures ring { IfOk result (λ r. producer_capacity r.0.ring ≡ ring) }
{
    let limit = spec.limit;
    let lane = Lane::new(alloc, spec)?;
    let (sender, pieces) = RingBuffer::new(alloc, ring)?;
    let (returns, blanks) = return_ring(alloc, ring, limit)?;
    let met = Vec::with_capacity(alloc, MAX_VERSIONS)?;
    let tools = Tools {
        lane,
        ring: sender,
        blanks,
        met,
    };
    Ok((tools, pieces, returns))
}

/// Makes what a job's worker needs.
fn prepare_one<S: Drop>(
    alloc: Global,
    ring: usize,
    job: Job<S>,
) -> Result<PreparedChannel<S>, AllocError>
    ensures job { IfOk result (λ p. p.job ≡ job) }
    ensures sized { IfOk result (IsSized ring) }
{
    a_job_is_in_range(&job);
    let (tools, pieces, returns) = make_tools(alloc, ring, job.spec)?;
    Ok(PreparedChannel {
        job,
        tools,
        pieces,
        returns,
        buffers: ring + SPARE_BUFFERS,
    })
}

/// Makes what the workers of all jobs need.
pub(crate) fn prepare_all<S: Drop>(
    alloc: Global,
    ring: usize,
    jobs: Vec<Job<S>>,
) -> Result<Vec<PreparedChannel<S>>, AllocError>
    ensures jobs { IfOk result (λ p. jobs_in p.items ≡ jobs.items) }
    ensures sized { IfOk result (λ p. AreSized ring p.items) }
    ensures len { IfOk result (λ p. vec_len p ≡ vec_len jobs) }
{
    let mut all = Vec::new(alloc);
    'jobs: for job in jobs {
        all.push(prepare_one(alloc, ring, job)?)?;
    }
    Ok(all)
}

/// A slot for each job.
pub(crate) fn slots_of<S: Drop>(
    alloc: Global,
    jobs: &[Job<S>],
) -> Result<Vec<SharedSlot>, AllocError>
    ensures { IfOk result (λ v. vec_len v ≡ length jobs.now) }
{
    let mut all = Vec::new(alloc);
    'jobs: for job in jobs {
        let slot = Slot::new(alloc, Arc::try_clone(&job.program)?, job.max)?;
        all.push(SharedSlot::new(slot))?;
    }
    Ok(all)
}

/// Starts the worker of a job.
fn start_one<'s, E, S: FrameSource + Send + Drop + 's, R: Threads + Wait + Sync>(
    scope: &Scope<'s, E>,
    rt: &'s R,
    slot: &'s SharedSlot,
    stop: &'s AtomicU64,
    prepared: PreparedChannel<S>,
) -> Result<WriterLine<S>, AllocError>
    ensures job { IfOk result (λ l. job_at l ≡ prepared.job) }
    ensures unread { IfOk result IsUnread }
{
    let PreparedChannel {
        job,
        tools,
        pieces,
        returns,
        buffers,
    } = prepared;
    let channel = job.spec.channel;
    let handle = start(scope, rt, job, slot, stop, tools)?;
    Ok(WriterLine {
        channel,
        handle,
        pieces,
        returns,
        buffers,
        open_yet: true,
    })
}

/// Starts one worker after the other. At `Err` the lines are those that run.
pub(crate) fn start_all<'s, E, S: FrameSource + Send + Drop + 's, R: Threads + Wait + Sync>(
    scope: &Scope<'s, E>,
    rt: &'s R,
    slots: &'s [SharedSlot],
    stop: &'s AtomicU64,
    prepared: Vec<PreparedChannel<S>>,
    lines: &mut Vec<WriterLine<S>>,
) -> Result<(), AllocError>
    requires slots { length slots.now ≡ vec_len prepared }
    requires room { (lines.old.items ≡ []) × (vec_len prepared ≤ vec_capacity lines.old) }
    ensures jobs { OnOk result (jobs_of lines.new.items ≡ jobs_in prepared.items) }
    ensures unread { OnOk result (AreUnread lines.new.items) }
    ensures len { vec_len lines.new ≤ vec_len prepared }
{
    'workers: for one in prepared {
        let slot = &slots[lines.len()];
        let line = start_one(scope, rt, slot, stop, one)?;
        lines.push_reserved(line);
    }
    Ok(())
}
