//! What is to be recorded of each channel.

ghost use Rattle.std.specs.Prelude.{IfSome};
ghost use Rattle.rec_run.specs.Jobs.{AreJobs};

use crate::channel::{Channel, Channels};
use crate::feed::Feed;
use crate::filters::first_program;
use crate::steps::Shared;
use ch11_packet::Limit;
use eth_frame::FeedSource;
use rec_lane::LaneSpec;
use rec_run::{Job, jobs_ok};

/// The jobs of channels: `None` if there is no memory for them, or they may not be recorded.
pub(crate) fn jobs_of(
    rt: HostRuntime,
    steps: &Shared,
    channels: Channels,
) -> Option<Vec<Job<FeedSource<Feed>>>>
    ensures { IfSome result (λ jobs. AreJobs jobs.items) }
{
    let mut jobs = Vec::new(rt.alloc());
    for index in channels.first..channels.end {
        jobs.push(job(rt, steps, Channel::at(index))?).ok()?;
    }
    if jobs_ok(jobs.as_slice()) {
        Some(jobs)
    } else {
        None
    }
}

/// The job of a channel.
fn job(rt: HostRuntime, steps: &Shared, channel: Channel) -> Option<Job<FeedSource<Feed>>> {
    let limit = Limit::new(channel.limit)?;
    let spec = LaneSpec::new(channel.id, 0, 3, limit)?;
    let program = first_program(rt.alloc(), channel.kind)?;
    let feed = Feed::new(rt, steps, channel)?;
    Some(Job {
        spec,
        program,
        max: u64::MAX,
        source: FeedSource::new(feed),
    })
}
