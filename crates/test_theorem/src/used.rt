//! A caller of `record` that concludes what a reader finds.

ghost use Rattle.std.specs.Prelude.{◌≤◌, IfOk, IfErr};
ghost use Rattle.rec_channel.specs.declared.limits.TheConstants.{MAX_RING};
ghost use Rattle.rec_run.specs.Control.{MayBeAsked};
ghost use Rattle.rec_run.specs.Jobs.{AreJobs};
ghost use Rattle.test_theorem.specs.Used.{FindsAll, FindsPart};

use eth_frame::FrameSource;
use rec_run::{Control, Done, Job, RunFault, record};
use rec_theorem::what_is_recorded_is_found;
use std::alloc::Global;
use std::io::Write;
use std::sync::Wait;
use std::thread::Threads;

/// Records. If the output said what it held, it says what it took since, and in that a reader finds
/// of each job exactly the frames that the program in force accepted; where the output failed, the
/// first of these.
///
/// # Errors
///
/// Those of [`record`].
pub fn record_and_find<
    S: FrameSource + Send + Drop,
    C: Control + Send + Drop,
    W: Write + Drop,
    R: Threads + Wait + Sync,
>(
    rt: &R,
    alloc: Global,
    jobs: Vec<Job<S>>,
    ring: usize,
    version: u8,
    control: C,
    out: W,
) -> Result<Done<S, C, W>, RunFault<S, C, W>>
    requires jobs { AreJobs jobs.items }
    requires ring { (1 ≤ ring) × (ring ≤ MAX_RING) }
    requires control { MayBeAsked C.given C.answered C.ended control }
    ensures found { IfOk result (FindsAll S.left C.given W.contents jobs.items control out) }
    ensures cut { IfErr result (FindsPart S.left W.contents jobs.items out) }
{
    what_is_recorded_is_found::<S, C, W>();
    record(rt, alloc, jobs, ring, version, control, out)
}
