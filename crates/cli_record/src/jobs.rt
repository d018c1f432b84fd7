//! What is to be recorded, by the settings.

ghost use Rattle.std.specs.Prelude.{◌≡◌, map, IfOk};
ghost use Rattle.std.specs.List.{AllZip};
ghost use Rattle.cli_record.specs.Jobs.{IsJobOf, asked_numbers, job_numbers, numbers_of_jobs};

use crate::files::ChannelFiles;
use ch11_packet::Limit;
use cli_streams::Inputs;
use rec_lane::LaneSpec;
use rec_run::Job;
use rec_words::ChannelSettings;
use std::alloc::{AllocError, Global};
use std::sync::Arc;

/// The jobs of the channels: for each its filter is read, and then its feed opened. What was opened
/// is added to the inputs.
pub(crate) fn jobs_of<C: ChannelFiles>(
    alloc: Global,
    files: &C,
    limit: Limit,
    channels: Vec<ChannelSettings>,
    inputs: &mut Inputs,
) -> Result<Vec<Job<C::Feed>>, C::Fault>
    ensures asked { IfOk result (λ jobs.
        numbers_of_jobs jobs.items ≡ map (asked_numbers limit) channels.items) }
    ensures named { IfOk result (λ jobs. AllZip (IsJobOf C.listed C.fed C.Feed.left files.now)
        channels.items jobs.items) }
{
    let mut jobs = Vec::with_capacity(alloc, channels.len())?;
    let mut feeds = Inputs::new(alloc);
    'channels: for channel in channels {
        let job = job_of(alloc, files, limit, channel, inputs, &mut feeds)?;
        if let Err(failed) = jobs.push(job) {
            return Err(AllocError::from(failed).into());
        }
    }
    Ok(jobs)
}

/// The job of a channel.
fn job_of<C: ChannelFiles>(
    alloc: Global,
    files: &C,
    limit: Limit,
    channel: ChannelSettings,
    inputs: &mut Inputs,
    feeds: &mut Inputs,
) -> Result<Job<C::Feed>, C::Fault>
    ensures asked { IfOk result (λ job. job_numbers job ≡ asked_numbers limit channel) }
    ensures named { IfOk result (IsJobOf C.listed C.fed C.Feed.left files.now channel) }
{
    let ChannelSettings {
        id,
        feed,
        filter,
        net,
        speed,
        max,
        span,
        ..
    } = channel;
    let program = Arc::new(alloc, files.filter(filter, inputs)?)?;
    Ok(Job {
        spec: LaneSpec {
            channel: id,
            net,
            speed,
            limit,
            span: if span == 0 { None } else { Some(span) },
        },
        program,
        max,
        source: files.feed(feed, max, span != 0, inputs, feeds)?,
    })
}
