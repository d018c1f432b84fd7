//! Laws of jobs, whose types are the ranges of their numbers.

ghost use Rattle.std.specs.Prelude.{◌<◌, ◌^◌};
ghost use Rattle.rec_lane.specs.Settings.{spec_data};
ghost use Rattle.rec_run.specs.Jobs.{AreLaneSettings, IsJob};

use crate::job::Job;
use rec_lane::LaneSpec;

/// Law: what a lane is set to is in range by its type.
pub fn a_lane_is_in_range(spec: LaneSpec)
    ensures { AreLaneSettings (spec_data spec) }
{
    let _limit = spec.limit.get();
}

/// Law: a count of 64 bits is less than 2^64.
pub fn a_count_is_in_range(count: u64)
    ensures { count < 2 ^ 64 }
{
    let _count = count;
}

/// Law: the numbers of a job are in range by their types.
pub fn a_job_is_in_range<S: Drop>(job: &Job<S>)
    ensures { IsJob job.now }
{
    a_lane_is_in_range(job.spec);
    a_count_is_in_range(job.max);
}
