//! What is known of a recording once it has ended.

ghost use Rattle.std.specs.Prelude.{IfSome};
ghost use Rattle.rec_run.specs.Reports.{Tells};

use crate::control::agreement::are_answered;
use crate::control::change::Logged;
use crate::ending::{Ending, WorkerEnd};
use crate::threads::joins::Joined;
use crate::worker::served::are_served;
use crate::worker::thread::WorkerDone;
use bpf_verify::Verified;
use rec_channel::{Parts, Slot};
use rec_writer::WriteFault;
use std::alloc::{AllocError, Global};
use std::sync::Arc;

/// A channel, as it was recorded.
#[derive(Drop)]
pub struct ChannelReport<S: Drop> {
    /// The channel ID.
    pub channel: u16,
    /// The programs of its filter, in the order in which they were installed; the first is the job's.
    pub versions: Vec<Arc<Verified, Global>>,
    /// The mark of each program: the number of the first frame that it may have met.
    pub marks: Vec<u64>,
    /// How many frames were taken from the source.
    pub offered: u64,
    /// How many of them the filter accepted.
    pub kept: u64,
    /// How the channel ended.
    pub ending: Ending,
    /// The source.
    pub source: S,
}

/// A recording, channel by channel.
#[derive(Drop)]
pub struct Report<S: Drop> {
    /// Its channels, in the order of the jobs.
    pub channels: Vec<ChannelReport<S>>,
    /// How many pieces went out whole; it stays at 2^64 - 1.
    pub pieces: u64,
    /// How many bytes their packets have; it stays at 2^64 - 1.
    pub bytes: u64,
}

/// A recording that ended.
#[derive(Drop)]
pub struct Done<S: Drop, C: Drop, W: Drop> {
    /// Its channels and its numbers.
    pub report: Report<S>,
    /// The control, which has ended.
    pub control: C,
    /// The output.
    pub out: W,
}

/// Why a recording did not end.
#[derive(Drop)]
pub enum RunFault<S: Drop, C: Drop, W: Drop> {
    /// There was no memory at the start, or a thread did not start. Nothing was written, and the
    /// control was not asked.
    Memory,
    /// The output failed. The channels whose workers saw that in time have the ending
    /// [`Ending::Stopped`].
    Write {
        /// What failed, and how much went out.
        fault: WriteFault,
        /// The channels as far as they were recorded, and the numbers of what went out.
        report: Report<S>,
        /// The control.
        control: C,
        /// The output.
        out: W,
    },
    /// A piece or a buffer came on another ring than its own, a ring took no buffer back, a ring's
    /// ends did not agree, or a thread was stopped though the output had not failed.
    Link,
    /// A number, a version or an answer was not that of the slot's history.
    History,
}

impl<S: Drop, C: Drop, W: Drop> From<AllocError> for RunFault<S, C, W> {
    ghost use Rattle.std.specs.Prelude.{◌≡◌};
    ghost use Rattle.rec_run.specs.declared.report.RunFault.TheVariants.{Memory};

    ghost from_gives = { λ _ fault. fault ≡ Memory };

    fn from(_: AllocError) -> RunFault<S, C, W> {
        RunFault::Memory
    }
}

/// The report of a channel; `None` where the worker, the slot and the log don't agree.
pub(crate) fn report_of<S: Drop>(
    joined: Joined<S>,
    slot: Slot,
    log: &[Logged],
) -> Option<ChannelReport<S>>
    ensures { IfSome result (Tells joined log.now) }
{
    let Parts {
        versions,
        marks,
        offered,
    } = slot.into_parts();
    let (programs, numbers) = (versions.as_slice(), marks.as_slice());
    let Joined { channel, done, .. } = joined;
    if done.end == WorkerEnd::History || done.offered != offered {
        return None;
    }
    if !are_served(done.met.as_slice(), programs, numbers, offered) {
        return None;
    }
    if !are_answered(channel, &done.program, programs, numbers, log) {
        return None;
    }
    let WorkerDone {
        source,
        kept,
        end,
        ..
    } = done;
    Some(ChannelReport {
        channel,
        versions,
        marks,
        offered,
        kept,
        ending: end.ending(),
        source,
    })
}
