//! A caller of `rec_run`, as its page has it.

ghost use Rattle.rec_run.specs.Control.{MayBeAsked};

use eth_frame::FrameSource;
use rec_run::{Control, Done, Job, RunFault, jobs_ok, record};
use std::alloc::Global;
use std::io::Write;
use std::sync::Wait;
use std::thread::Threads;

/// Records jobs, with room for 64 pieces in each ring, and gives the output back.
pub fn run<
    R: Threads + Wait + Sync,
    S: FrameSource + Send + Drop,
    C: Control + Send + Drop,
    W: Write + Drop,
>(rt: &R, alloc: Global, jobs: Vec<Job<S>>, control: C, out: W) -> Option<W>
    requires { MayBeAsked C.given C.answered C.ended control }
{
    if !jobs_ok(jobs.as_slice()) {
        return None;
    }
    match record(rt, alloc, jobs, 64, 8, control, out) {
        Ok(Done { out, .. }) => Some(out),
        Err(RunFault::Write { out, .. }) => Some(out),
        Err(_) => None,
    }
}
