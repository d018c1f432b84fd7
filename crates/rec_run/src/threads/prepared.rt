//! What is made for a channel before its worker starts.

ghost use Rattle.std.specs.Prelude.{◌≡◌, [], length};
ghost use Rattle.rtrb.specs.Ring.{IsPair, sent, received};
ghost use Rattle.rec_lane.specs.Settings.{spec_data};
ghost use Rattle.rec_run.specs.WorkerThread.{StartsWith};
ghost use Rattle.rec_run.specs.Jobs.{IsJob};

use crate::job::Job;
use crate::worker::thread::Tools;
use ch11_packet::Blank;
use rec_lane::Piece;
use rtrb::{Consumer, Producer};

/// A job with all that its worker needs, and the writer's ends of its rings.
#[derive(Drop)]
pub(crate) struct PreparedChannel<S: Drop> {
    pub(crate) job: Job<S>,
    pub(crate) tools: Tools,
    pub(crate) pieces: Consumer<Piece>,
    pub(crate) returns: Producer<Blank>,
    pub(crate) buffers: usize,
    ghost in_range: { IsJob job },
    ghost starts: { StartsWith tools (spec_data job.spec) },
    ghost pair: { IsPair tools.ring pieces },
    ghost unread: { received pieces ≡ [] },
    ghost filled: { length (sent returns) ≡ buffers },
}
