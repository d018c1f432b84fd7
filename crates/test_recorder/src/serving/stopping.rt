//! Recordings that never end by themselves, and stop when their output fails.

ghost use Rattle.std.specs.Prelude.{◌≡◌, [], false};

use crate::serving::endless::{COUNTS, Calls, Endless, EndlessChanges, Failing};
use crate::serving::frames::{ACCEPT, Frames, REJECT, job};
use crate::serving::signals::{Shared, Signals, Watch};
use ch11_packet::MIN_LIMIT;
use rec_run::{ChannelReport, Ending, Job, RunFault, jobs_ok, record};
use std::alloc::Global;
use std::process::Abort;
use std::sync::Wait;
use std::test::Fail;
use std::thread::Threads;
use std::time::Clock;

/// How many pieces a ring has room for.
const RING: usize = 1;

/// For how many frames a source may be asked once the output has failed. Each of them fills a packet.
const MOST_FRAMES: u64 = RING as u64 + 3;

/// How often the control may be asked once the output has failed.
const MOST_CHANGES: u64 = 1;

/// The channel ID in the header of a program's packet.
const PROGRAM: u16 = 0;

/// A channel that isn't recorded.
const OTHER: u16 = 999;

/// The jobs of a channel from 1 on with each of these filters, from sources that never end.
fn endless_jobs(
    rt: HostRuntime,
    signals: &Shared,
    filters: &[&str],
) -> Result<Vec<Job<Frames<Endless>>>, Fail> {
    let mut jobs = Vec::new(rt.alloc());
    let mut channel = 0u16;
    for filter in filters {
        channel = channel.saturating_add(1);
        let calls = Calls::new(rt, signals, MOST_FRAMES)?;
        jobs.push(job(rt.alloc(), channel, filter, MIN_LIMIT, Endless { calls })?)?;
    }
    Ok(jobs)
}

/// Whether each channel was stopped, and its source then asked no more.
fn all_stopped(channels: &[ChannelReport<Frames<Endless>>]) -> bool {
    for channel in channels {
        let is_stopped = matches!(channel.ending, Ending::Stopped);
        if !is_stopped || !channel.source.lengths.calls.are_few() {
            return false;
        }
    }
    true
}

/// Records these jobs to an output that fails. Then all stop.
fn must_end_stopped<R: Threads + Wait + Sync>(
    threads: &R,
    alloc: Global,
    jobs: Vec<Job<Frames<Endless>>>,
    control: EndlessChanges,
    out: Failing,
) -> Result<(), &'static str>
    requires given { control.log.given ≡ [] }
    requires told { control.log.answered ≡ [] }
    requires goes_on { control.log.ended ≡ false }
{
    if !jobs_ok(jobs.as_slice()) {
        return Err("jobs that may be recorded");
    }
    let ended = record(threads, alloc, jobs, RING, 8, control, out);
    let Err(
        RunFault::Write {
            report,
            control,
            ..
        },
    ) = ended
    else {
        return Err("a recording whose output failed");
    };
    if !all_stopped(report.channels.as_slice()) {
        return Err("a source that is asked no more");
    }
    if !control.calls.are_few() {
        return Err("a control that is asked no more");
    }
    Ok(())
}

/// Records a channel from 1 on with each of these filters, from sources that never end, and with a
/// control that doesn't either. The output fails in the first packet with this channel ID, once the
/// sources were asked for so many frames. Then all stop.
fn must_stop<R: Threads + Wait + Sync>(
    threads: &R,
    rt: HostRuntime,
    filters: &[&str],
    fails_in: u16,
    asked: u64,
) -> Result<(), Fail> {
    let signals = Signals::shared(rt.alloc(), COUNTS)?;
    let jobs = endless_jobs(rt, &signals, filters)?;
    let calls = Calls::new(rt, &signals, MOST_CHANGES)?;
    let control = EndlessChanges::new(rt.alloc(), OTHER, calls)?;
    let out = Failing::new(rt, signals, fails_in, asked);
    Ok(must_end_stopped(threads, rt.alloc(), jobs, control, out)?)
}

/// The same for each case, which has the filters, the channel ID of the packet in which the output
/// fails, and for how many frames the sources were asked by then.
fn all_must_stop<R: Threads + Wait + Sync>(
    threads: &R,
    rt: HostRuntime,
    cases: &[(&[&str], u16, u64)],
) -> Result<(), Fail> {
    for (filters, fails_in, asked) in cases {
        must_stop(threads, rt, filters, *fails_in, *asked)?;
    }
    Ok(())
}

/// The same under a watch.
fn each_must_stop<R: Threads + Wait + Abort + Clock + Copy + Send + Sync + 'static>(
    threads: R,
    rt: HostRuntime,
    cases: &[(&[&str], u16, u64)],
) -> Result<(), Fail> {
    let watch = Watch::begin(threads, rt.alloc())?;
    let outcome = all_must_stop(&threads, rt, cases);
    watch.end(&threads);
    outcome
}

#[test]
fn a_failed_output_stops_sources_and_a_control_without_an_end(rt: HostRuntime) -> Result<(), Fail> {
    each_must_stop(rt, rt, &[(&[ACCEPT], PROGRAM, 0), (&[ACCEPT], 1, 0)])
}

/// The writer has the program's piece, the ring another one, and the worker waits with a third.
#[test]
fn a_worker_that_waits_for_room_is_stopped(rt: HostRuntime) -> Result<(), Fail> {
    each_must_stop(rt, rt, &[(&[ACCEPT], PROGRAM, RING as u64 + 2)])
}

#[test]
fn a_worker_whose_frames_are_all_dropped_is_stopped(rt: HostRuntime) -> Result<(), Fail> {
    each_must_stop(
        rt,
        rt,
        &[(&[REJECT], PROGRAM, 0), (&[REJECT, ACCEPT], 2, 0)],
    )
}

/// The output fails in a packet of one of them; each fourth drops all its frames.
#[test]
fn sixty_four_channels_are_stopped(rt: HostRuntime) -> Result<(), Fail> {
    let mut filters = Vec::new(rt.alloc());
    for _ in 0..16 {
        filters.extend_from_slice(&[ACCEPT, ACCEPT, REJECT, ACCEPT])?;
    }
    let all = filters.as_slice();
    each_must_stop(rt, rt, &[(all, 1, 0), (all, 34, 0), (all, 64, 0)])
}
