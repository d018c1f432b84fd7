//! What is known of a channel once its worker has ended.

ghost use Rattle.std.specs.Prelude.{◌≡◌, ◌≤◌, List, vec_len, vec_capacity, true};
ghost use Rattle.std.specs.List.{AllZip};
ghost use Rattle.rec_lane.specs.Pieces.{PieceData};
ghost use Rattle.rec_run.specs.Threads.{job_at, jobs_of, JoinedOf, AreOver, AreEnded};
ghost use Rattle.rec_run.specs.Writer.{CameFrom, AllCame};

use crate::worker::thread::WorkerDone;
use crate::writer::line::WriterLine;
use eth_frame::FrameSource;
use std::thread::Threads;

/// What a worker's thread gave back, and how many pieces are still in its ring.
#[derive(Drop)]
pub(crate) struct Joined<S: Drop> {
    pub(crate) channel: u16,
    pub(crate) done: WorkerDone<S>,
    pub(crate) remaining: usize,
}

/// Waits for the workers' ends, one after the other.
pub(crate) fn join_all<S: FrameSource + Drop, R: Threads>(
    rt: &R,
    lines: Vec<WriterLine<S>>,
    joined: Vec<Joined<S>>,
) -> Vec<Joined<S>>
    requires { (vec_len joined ≡ 0) × (vec_len lines ≤ vec_capacity joined) }
    ensures { (pieces : List PieceData) → AllCame pieces lines.items
        → AllZip (JoinedOf S.left S.failures S.ending pieces) (jobs_of lines.items) result.items }
{
    let mut joined = joined;
    'workers: for line in lines {
        joined.push_reserved(join_one(rt, line));
    }
    joined
}

/// Waits for a worker's end, and looks what it has left in its ring.
fn join_one<S: FrameSource + Drop, R: Threads>(rt: &R, line: WriterLine<S>) -> Joined<S>
    ensures { (pieces : List PieceData) → CameFrom pieces line
        → JoinedOf S.left S.failures S.ending pieces (job_at line) result }
{
    let WriterLine {
        channel,
        handle,
        mut pieces,
        ..
    } = line;
    let mut done = handle.join(rt);
    let remaining = pieces.slots_beside(&mut done.ring);
    Joined {
        channel,
        done,
        remaining,
    }
}

/// Whether each channel is over, and nothing was left in its ring.
pub(crate) fn are_over<S: Drop>(joined: &[Joined<S>]) -> bool
    ensures { result ≡ true → AreOver joined.now }
{
    'channels: for one in joined {
        if one.remaining != 0 || !one.done.end.is_over() {
            return false;
        }
    }
    true
}

/// Whether each channel has an ending.
pub(crate) fn are_ended<S: Drop>(joined: &[Joined<S>]) -> bool
    ensures { result ≡ true → AreEnded joined.now }
{
    'channels: for one in joined {
        if !one.done.end.is_ended() {
            return false;
        }
    }
    true
}
