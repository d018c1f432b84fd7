//! A recording from its start to its end.

ghost use Rattle.std.specs.Prelude.{◌≡◌, ◌≤◌, [], IfOk, IfErr, IfSome, vec_len, vec_capacity, length};
ghost use Rattle.std.specs.List.{AllZip};
ghost use Rattle.rec_run.specs.Control.{MayBeAsked};
ghost use Rattle.rec_run.specs.Jobs.{AreJobs};
ghost use Rattle.rec_run.specs.Recorded.{IsRecorded, IsRecordedRun, IsControlled};
ghost use Rattle.rec_run.specs.Verdicts.{CutsShort, Concludes, ConcludesControl, ConcludesCut, TellsOf, EndsWell, EndsAtFlush};
ghost use Rattle.std.specs.Io.KnownBytes.{Keeps};
ghost use Rattle.rec_channel.specs.declared.limits.TheConstants.{MAX_RING};

use crate::control::Control;
use crate::control::agreement::are_of_some;
use crate::control::change::Logged;
use crate::control::thread::Controlled;
use crate::job::{Job, channels_of};
use crate::report::{ChannelReport, Done, Report, RunFault, report_of};
use crate::threads::joins::{Joined, are_ended, are_over};
use crate::threads::setup::{prepare_all, slots_of};
use crate::threads::{ThreadsOutcome, run_threads};
use crate::writer::Wrote;
use crate::writer::tape::Tape;
use eth_frame::FrameSource;
use rec_channel::SharedSlot;
use rec_core::a_recording_is_a_run;
use rec_writer::Writer;
use std::alloc::Global;
use std::io::Write;
use std::sync::Wait;
use std::sync::atomic::AtomicU64;
use std::thread::Threads;

/// Records the channels of the jobs until every source and the control have ended. Each job has a
/// thread, the control another one, and what they make is written on the caller's. A channel's
/// ring has room for `ring` pieces, 1 to [`MAX_RING`](crate::MAX_RING); `version` is the data type
/// version of the packets.
///
/// # Errors
///
/// [`RunFault`] tells what each means. Several are answered in the order History, Link, Write.
pub fn record<
    S: FrameSource + Send + Drop,
    C: Control + Send + Drop,
    W: Write + Drop,
    R: Threads + Wait + Sync,
>(
    rt: &R,
    alloc: Global,
    jobs: Vec<Job<S>>,
    ring: usize,
    version: u8,
    control: C,
    out: W,
) -> Result<Done<S, C, W>, RunFault<S, C, W>>
    requires jobs { AreJobs jobs.items }
    requires ring { (1 ≤ ring) × (ring ≤ MAX_RING) }
    requires control { MayBeAsked C.given C.answered C.ended control }
    ensures recorded { IfOk result (λ done. IsRecorded S.left S.failures S.ending jobs.items version
        (W.contents out) (W.contents done.out) done.report) }
    ensures controlled { IfOk result (λ done. IsControlled C.given C.answered C.ended control
        done.control jobs.items done.report.channels.items) }
    ensures run { IfOk result (λ done. IsRecordedRun S.left S.failures S.ending jobs.items version
        ring (W.contents out) (W.contents done.out) done.report) }
    ensures cut { IfErr result
        (CutsShort S.left S.failures S.ending W.contents jobs.items version (W.contents out)) }
{
    let channels = channels_of(jobs.as_slice());
    let slots = slots_of(alloc, jobs.as_slice())?;
    let prepared = prepare_all(alloc, ring, jobs)?;
    let count = prepared.len();
    let lines = Vec::with_capacity(alloc, count)?;
    let joined = Vec::with_capacity(alloc, count)?;
    let reports = Vec::with_capacity(alloc, count)?;
    let log = Vec::new(alloc);
    let stop = AtomicU64::new(0);
    let tape = Tape {
        writer: Writer::new(out, channels.as_slice(), version),
        bytes: 0,
    };
    let outcome = run_threads(
        rt,
        slots.as_slice(),
        &stop,
        prepared,
        (lines, joined),
        control,
        channels.as_slice(),
        log,
        tape,
    )?;
    a_recording_is_a_run();
    conclude(outcome, slots, channels.as_slice(), reports)
}

/// What the recording comes to, once all threads have ended.
fn conclude<S: FrameSource + Drop, C: Control + Drop, W: Write + Drop>(
    outcome: ThreadsOutcome<S, C, W>,
    slots: Vec<SharedSlot>,
    channels: &[u16],
    reports: Vec<ChannelReport<S>>,
) -> Result<Done<S, C, W>, RunFault<S, C, W>>
    requires { reports.items ≡ [] }
    ensures recorded { IfOk result (λ done.
        Concludes S.left S.failures S.ending W.contents outcome done) }
    ensures controlled { IfOk result (λ done. ConcludesControl S.left S.failures S.ending C.given
        C.answered C.ended outcome channels.now done) }
    ensures cut { IfErr result (ConcludesCut S.left S.failures S.ending W.contents outcome) }
{
    let ThreadsOutcome {
        joined,
        controlled,
        tape,
        wrote,
    } = outcome;
    let Controlled {
        control,
        log,
        ended,
    } = controlled;
    let over = are_over(joined.as_slice());
    let with_endings = are_ended(joined.as_slice());
    let Some(told) = reports_of(joined, slots, log.as_slice(), reports) else {
        return Err(RunFault::History);
    };
    if !are_of_some(channels, log.as_slice()) {
        return Err(RunFault::History);
    }
    let Tape { writer, bytes } = tape;
    let report = Report {
        channels: told,
        pieces: writer.whole(),
        bytes,
    };
    match wrote {
        Wrote::Nothing | Wrote::Piece if over && ended => end_well(writer, report, control),
        Wrote::Failed(fault) if with_endings => Err(RunFault::Write {
            fault,
            report,
            control,
            out: out_of(writer),
        }),
        _ => Err(RunFault::Link),
    }
}

/// The report of each channel; `None` where a worker, its slot and the log don't agree.
fn reports_of<S: Drop>(
    joined: Vec<Joined<S>>,
    slots: Vec<SharedSlot>,
    log: &[Logged],
    reports: Vec<ChannelReport<S>>,
) -> Option<Vec<ChannelReport<S>>>
    requires { reports.items ≡ [] }
    ensures { IfSome result (λ told. AllZip (TellsOf log.now) joined.items told.items) }
{
    if joined.len() > reports.capacity() {
        return None;
    }
    let mut reports = reports;
    let mut slots = slots.into_iter();
    'workers: for one in joined {
        let slot = slots.next()?;
        reports.push_reserved(report_of(one, slot.into_slot(), log)?);
    }
    Some(reports)
}

/// Flushes the output of a recording that is whole.
fn end_well<S: Drop, C: Drop, W: Write + Drop>(
    writer: Writer<W>,
    report: Report<S>,
    control: C,
) -> Result<Done<S, C, W>, RunFault<S, C, W>>
    ensures whole { IfOk result (EndsWell W.contents writer report control) }
    ensures cut { IfErr result (EndsAtFlush W.contents writer report) }
{
    match writer.finish() {
        Ok(out) => Ok(Done {
            report,
            control,
            out,
        }),
        Err((fault, out)) => Err(RunFault::Write {
            fault,
            report,
            control,
            out,
        }),
    }
}

/// The output of a writer whose output failed.
fn out_of<W: Write + Drop>(writer: Writer<W>) -> W
    ensures { Keeps writer.held (W.contents result) }
{
    match writer.finish() {
        Ok(out) => out,
        Err((_, out)) => out,
    }
}
