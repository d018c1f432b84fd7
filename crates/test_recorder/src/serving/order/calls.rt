//! A source and a control that note how they are called, and stall.

use crate::serving::frames::{LONGEST, Lengths};
use crate::serving::order::notes::{Note, Numbered, Order};
use bpf_verify::Verified;
use rec_run::{Answer, Change, Control, ControlLog, Told};
use std::alloc::Global;
use std::sync::Arc;
use std::sync::atomic::Ordering;
use std::test::Fail;
use std::thread;

/// How often a call that waits for the others yields before it takes them to stand still.
const STILL: u32 = 150;

/// How often it yields at most.
const MOST_YIELDS: u32 = 20_000;

/// Who is called: it notes what it sees, and stalls now and then.
#[derive(Drop)]
pub(super) struct Caller {
    order: Order,
    notes: Vec<Numbered>,
    /// The state of a linear congruential generator.
    drawn: u64,
}

impl Caller {
    pub(super) fn new(alloc: Global, order: &Order, seed: u64) -> Result<Caller, Fail> {
        Ok(Caller {
            order: Arc::try_clone(order)?,
            notes: Vec::new(alloc),
            drawn: seed,
        })
    }

    /// What it noted.
    pub(super) fn notes(&self) -> &[Numbered] {
        self.notes.as_slice()
    }

    /// Notes what it sees. A note that finds no memory is missing in the list.
    pub(super) fn note(&mut self, note: Note) {
        let number = self.order.fetch_add(1, Ordering::SeqCst);
        let _ = self.notes.push((number, note));
    }

    /// Goes on at once, yields a few times, or waits until the others stand still.
    pub(super) fn stall(&mut self) {
        self.drawn = self
            .drawn
            .wrapping_mul(6364136223846793005)
            .wrapping_add(1442695040888963407);
        match (self.drawn >> 33) % 8 {
            0 => self.wait(STILL),
            1 => self.wait(3),
            _ => {}
        }
    }

    /// Waits until nothing was noted for so many turns.
    fn wait(&self, turns: u32) {
        let mut last = self.order.load(Ordering::SeqCst);
        let mut still = 0u32;
        for _ in 0..MOST_YIELDS {
            if still >= turns {
                return;
            }
            thread::yield_now();
            let now = self.order.load(Ordering::SeqCst);
            still = if now == last {
                still.saturating_add(1)
            } else {
                0
            };
            last = now;
        }
    }
}

/// The frames of a channel. Each has its number as what its length lacks of the longest, so that it
/// is alone in its packet.
#[derive(Drop)]
pub(super) struct NotedFrames {
    pub(super) caller: Caller,
    pub(super) channel: usize,
    pub(super) frames: usize,
    pub(super) given: usize,
}

impl Lengths for NotedFrames {
    fn asked(&mut self) {
        self.caller.note(Note::Asked(self.channel));
    }

    fn next_len(&mut self) -> Option<usize> {
        self.caller.stall();
        if self.given >= self.frames {
            self.caller.note(Note::Ended(self.channel));
            return None;
        }
        let len = LONGEST.saturating_sub(self.given);
        self.given = self.given.saturating_add(1);
        self.caller.note(Note::Gave(self.channel));
        Some(len)
    }
}

/// A control that gives changes, the last one first. A channel's ID is its index and one.
#[derive(Drop)]
pub(super) struct NotedControl {
    pub(super) caller: Caller,
    changes: Vec<(u16, bool)>,
    /// A filter that keeps no frame, and one that keeps each.
    filters: [Arc<Verified, Global>; 2],
    log: ControlLog,
}

impl NotedControl {
    ghost use Rattle.std.specs.Prelude.{◌≡◌, [], false};

    /// A control that has given and was told nothing.
    pub(super) fn new(
        alloc: Global,
        caller: Caller,
        changes: Vec<(u16, bool)>,
        filters: [Arc<Verified, Global>; 2],
    ) -> NotedControl
        ensures given { result.log.given ≡ [] }
        ensures told { result.log.answered ≡ [] }
        ensures goes_on { result.log.ended ≡ false }
    {
        NotedControl {
            caller,
            changes,
            filters,
            log: ControlLog::new(alloc),
        }
    }

    /// The next change, which is noted, or the end.
    fn step(&mut self) -> Option<Change>
        ensures log { self.new.log ≡ self.old.log }
    {
        self.caller.note(Note::ControlAsked);
        self.caller.stall();
        let change = self.change();
        if change.is_none() {
            self.caller.note(Note::ControlEnded);
        }
        change
    }

    fn change(&mut self) -> Option<Change>
        ensures log { self.new.log ≡ self.old.log }
    {
        let (index, keeps) = self.changes.pop()?;
        let [none, each] = &self.filters;
        let program = Arc::try_clone(if keeps { each } else { none }).ok()?;
        let channel = index.checked_add(1)?;
        self.caller.note(Note::Changed(usize::from(index), keeps));
        Some(Change { channel, program })
    }
}

impl Control for NotedControl {
    ghost given = { λ c. c.log.given };

    ghost answered = { λ c. c.log.answered };

    ghost ended = { λ c. c.log.ended };

    fn next(&mut self) -> Option<Change> {
        match self.step() {
            Some(change) => self.log.give(change),
            None => self.log.end(),
        }
    }

    fn told(&mut self, told: &Told) {
        if let Answer::Installed { version, mark } = told.answer {
            self.caller.note(Note::Told {
                version,
                mark: u32::try_from(mark).unwrap_or(u32::MAX),
            });
        }
        self.log.tell(told);
    }
}
