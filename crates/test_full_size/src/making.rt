//! Makes a recording.

ghost use Rattle.std.specs.Prelude.{◌≤◌};
ghost use Rattle.rec_channel.specs.declared.limits.TheConstants.{MAX_RING};

use crate::changes::Changes;
use crate::channel::{Channel, Channels};
use crate::feed::Feed;
use crate::jobs::jobs_of;
use crate::steps::Steps;
use eth_frame::FeedSource;
use rec_run::Done;
use std::sync::Wait;
use std::thread::Threads;
use test_theorem::record_and_find;

/// A recording that ended.
pub(crate) type Made = Done<FeedSource<Feed>, Changes, Vec<u8>>;

/// Records channels, each through a ring for this many pieces: `None` if that did not end.
pub(crate) fn recorded<R: Threads + Wait + Sync>(
    threads: &R,
    rt: HostRuntime,
    channels: Channels,
    ring: usize,
) -> Option<Made>
    requires { (1 ≤ ring) × (ring ≤ MAX_RING) }
{
    let alloc = rt.alloc();
    let steps = Steps::shared(alloc)?;
    let jobs = jobs_of(rt, &steps, channels)?;
    let control = Changes::new(rt, steps, Channel::at(channels.first));
    record_and_find(threads, alloc, jobs, ring, 8, control, Vec::new(alloc)).ok()
}
