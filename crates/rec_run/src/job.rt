//! What is to be recorded of a channel, and what jobs a recording may have.

ghost use Rattle.std.specs.Prelude.{ℕ, ◌≡◌, ◌≢◌, ◌≤◌, ◌↔◌, length, IsTrue, All};
ghost use Rattle.rec_run.specs.Jobs.{channels_of_jobs, AreJobs};

use arrayvec::ArrayVec;
use bpf_verify::Verified;
use rec_channel::MAX_CHANNELS;
use rec_core::are_distinct;
use rec_lane::LaneSpec;
use std::alloc::Global;
use std::sync::Arc;

/// What is to be recorded of a channel.
#[derive(Debug, Drop)]
pub struct Job<S: Drop> {
    /// What the channel's lane is set to.
    pub spec: LaneSpec,
    /// The filter's first program.
    pub program: Arc<Verified, Global>,
    /// How many frames may be taken.
    pub max: u64,
    /// Where the frames come from.
    pub source: S,
}

/// Whether these jobs may be recorded: 1 to [`MAX_CHANNELS`] of them, each with a channel of its own.
pub fn jobs_ok<S: Drop>(jobs: &[Job<S>]) -> bool
    ensures { IsTrue result ↔ AreJobs jobs.now }
{
    if jobs.is_empty() || jobs.len() > MAX_CHANNELS {
        return false;
    }
    are_distinct(channels_of(jobs).as_slice())
}

/// The channels of jobs.
pub(crate) fn channels_of<S: Drop>(jobs: &[Job<S>]) -> ArrayVec<u16, MAX_CHANNELS>
    requires { length jobs.now ≤ MAX_CHANNELS }
    ensures channels { result.items ≡ channels_of_jobs jobs.now }
    ensures named { All (λ (channel : ℕ). channel ≢ 0) result.items }
{
    let mut channels = ArrayVec::new();
    'jobs: for k in 0..jobs.len() {
        channels.push(jobs[k].spec.channel);
    }
    channels
}
