//! Sources and a control that never end by themselves, and an output that fails.

use crate::serving::frames::{ACCEPT, LONGEST, Lengths};
use crate::serving::packet::OpenPacket;
use crate::serving::signals::Shared;
use rec_run::{Change, Control, ControlLog, Told};
use std::alloc::Global;
use std::io::{ErrorKind, Write};
use std::sync::Arc;
use std::test::Fail;
use std::time::Duration;
use std::{io, thread};
use test_samples::program;

/// The count of frames that sources were asked for.
const ASKED: usize = 0;

/// The count of writes that failed.
const FAILED: usize = 1;

/// How many counts there are.
pub(super) const COUNTS: usize = 2;

/// After how many times as many calls as it may have a source or a control ends, so that no test goes
/// on for ever.
const TIMES: u64 = 10;

/// How long a call takes before the output has failed, in milliseconds.
const BEFORE: u64 = 1;

/// How long a call takes after that, in milliseconds: the writer has time to stop the others.
const SINCE: u64 = 50;

/// The calls of a source or of a control.
#[derive(Drop)]
pub(super) struct Calls {
    rt: HostRuntime,
    signals: Shared,
    /// How many it may have once the output has failed.
    most: u64,
    /// How many it had since then.
    since: u64,
}

impl Calls {
    /// No call yet.
    pub(super) fn new(rt: HostRuntime, signals: &Shared, most: u64) -> Result<Calls, Fail> {
        Ok(Calls {
            rt,
            signals: Arc::try_clone(signals)?,
            most,
            since: 0,
        })
    }

    /// Whether there were no more than there may be.
    pub(super) fn are_few(&self) -> bool {
        self.since <= self.most
    }

    /// One call more; `false` if there were far too many.
    fn take(&mut self) -> bool {
        if self.signals.get(FAILED) == 0 {
            thread::sleep(&self.rt, Duration::from_millis(BEFORE));
            return true;
        }
        self.since = self.since.saturating_add(1);
        thread::sleep(&self.rt, Duration::from_millis(SINCE));
        self.since < self.most.saturating_mul(TIMES)
    }
}

/// The longest frame, again and again.
#[derive(Drop)]
pub(super) struct Endless {
    pub(super) calls: Calls,
}

impl Lengths for Endless {
    fn next_len(&mut self) -> Option<usize> {
        self.calls.signals.count(ASKED);
        if self.calls.take() {
            Some(LONGEST)
        } else {
            None
        }
    }
}

/// A control that gives one change again and again.
#[derive(Drop)]
pub(super) struct EndlessChanges {
    pub(super) calls: Calls,
    change: Change,
    log: ControlLog,
}

impl EndlessChanges {
    ghost use Rattle.std.specs.Prelude.{◌≡◌, [], false, IfOk};

    /// A control that gives changes of this channel.
    pub(super) fn new(alloc: Global, channel: u16, calls: Calls) -> Result<EndlessChanges, Fail>
        ensures given { IfOk result (λ c. c.log.given ≡ []) }
        ensures told { IfOk result (λ c. c.log.answered ≡ []) }
        ensures goes_on { IfOk result (λ c. c.log.ended ≡ false) }
    {
        let program = program(alloc, ACCEPT)?;
        Ok(EndlessChanges {
            calls,
            change: Change { channel, program },
            log: ControlLog::new(alloc),
        })
    }

    /// The change once more; `None` after far too many calls.
    fn share(&mut self) -> Option<Change>
        ensures log { self.new.log ≡ self.old.log }
    {
        if !self.calls.take() {
            return None;
        }
        Some(Change {
            channel: self.change.channel,
            program: Arc::try_clone(&self.change.program).ok()?,
        })
    }
}

impl Control for EndlessChanges {
    ghost given = { λ c. c.log.given };

    ghost answered = { λ c. c.log.answered };

    ghost ended = { λ c. c.log.ended };

    fn next(&mut self) -> Option<Change> {
        match self.share() {
            Some(change) => self.log.give(change),
            None => self.log.end(),
        }
    }

    fn told(&mut self, told: &Told) {
        self.log.tell(told);
    }
}

/// An output that fails in the first packet with this channel ID in its header, once the sources were
/// asked for so many frames.
#[derive(Drop)]
pub(super) struct Failing {
    rt: HostRuntime,
    signals: Shared,
    packet: OpenPacket,
    channel: u16,
    asked: u64,
}

impl Failing {
    /// An output that has taken nothing.
    pub(super) fn new(rt: HostRuntime, signals: Shared, channel: u16, asked: u64) -> Failing {
        Failing {
            rt,
            signals,
            packet: OpenPacket::new(rt.alloc()),
            channel,
            asked,
        }
    }
}

impl Write for Failing {
    fn write(&mut self, buf: &[u8]) -> io::Result<usize> {
        let whole = self.packet.add(buf)?;
        if whole.is_some() || self.packet.channel() != self.channel {
            return Ok(buf.len());
        }
        if self.signals.wait(&self.rt, ASKED, self.asked) {
            // the worker goes on to where it waits
            thread::sleep(&self.rt, Duration::from_millis(SINCE));
        }
        self.signals.count(FAILED);
        Err(io::Error::from(ErrorKind::StorageFull))
    }

    fn flush(&mut self) -> io::Result<()> {
        Ok(())
    }
}
