//! A control of the tests.

use super::parts::{Shared, Step};
use rec_run::{Change, Control, ControlLog, Told};

/// A control that gives the changes of its steps, the last one first, and keeps what it is told.
#[derive(Drop)]
pub(super) struct Script {
    pub(super) marks: Shared,
    pub(super) steps: Vec<Step>,
    pub(super) log: ControlLog,
    pub(super) told_mark: usize,
    /// Whether a wait was given up.
    pub(super) late: bool,
}

impl Script {
    ghost use Rattle.std.specs.Prelude.{◌≡◌};

    /// The change of the next step.
    fn step(&mut self) -> Option<Change>
        ensures log { self.new.log ≡ self.old.log }
    {
        let Step {
            change,
            began,
            needs,
        } = self.steps.pop()?;
        self.marks.set(began);
        if !self.marks.wait(needs) {
            self.late = true;
            return None;
        }
        change
    }
}

impl Control for Script {
    ghost given = { λ s. s.log.given };

    ghost answered = { λ s. s.log.answered };

    ghost ended = { λ s. s.log.ended };

    fn next(&mut self) -> Option<Change> {
        match self.step() {
            Some(change) => self.log.give(change),
            None => self.log.end(),
        }
    }

    fn told(&mut self, told: &Told) {
        self.log.tell(told);
        self.marks.set(self.told_mark);
    }
}
