//! The control: it gives a channel one version after the other, each once the source was asked for the
//! frame that is to meet it.

use crate::channel::Channel;
use crate::filters::version;
use crate::steps::Shared;
use rec_run::{Change, Control, ControlLog, Told};
use std::alloc::Global;

/// The control.
#[derive(Drop)]
pub(crate) struct Changes {
    rt: HostRuntime,
    alloc: Global,
    steps: Shared,
    channel: Channel,
    /// The version of the next change.
    next: u32,
    pub(crate) log: ControlLog,
}

impl Changes {
    ghost use Rattle.std.specs.Prelude.{◌≡◌, [], false};

    /// A control that has given and was told nothing, over the later versions of a channel.
    pub(crate) fn new(rt: HostRuntime, steps: Shared, channel: Channel) -> Changes
        ensures given { result.log.given ≡ [] }
        ensures told { result.log.answered ≡ [] }
        ensures goes_on { result.log.ended ≡ false }
    {
        let alloc = rt.alloc();
        Changes {
            rt,
            alloc,
            steps,
            channel,
            next: 1,
            log: ControlLog::new(alloc),
        }
    }

    /// Whether there is a next change, once the source was asked for its frame.
    fn is_due(&self) -> bool {
        self.next < self.channel.versions() && self.steps.is_asked(&self.rt, u64::from(self.next))
    }

    /// The next change, if there is one.
    fn change(&mut self) -> Option<Change>
        ensures log { self.new.log ≡ self.old.log }
    {
        if !self.is_due() {
            return None;
        }
        let program = version(self.alloc, self.next)?;
        self.next = self.next.saturating_add(1);
        Some(Change {
            channel: self.channel.id,
            program,
        })
    }
}

impl Control for Changes {
    ghost given = { λ c. c.log.given };

    ghost answered = { λ c. c.log.answered };

    ghost ended = { λ c. c.log.ended };

    fn next(&mut self) -> Option<Change> {
        match self.change() {
            Some(change) => self.log.give(change),
            None => self.log.end(),
        }
    }

    fn told(&mut self, told: &Told) {
        self.log.tell(told);
        self.steps.tell(self.log.told().len() as u64);
    }
}
