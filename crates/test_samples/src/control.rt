//! A control without changes.

use rec_run::{Change, Control, ControlLog, Told};
use std::alloc::Global;

/// A control that gives no change.
#[derive(Drop)]
pub struct NoChanges {
    log: ControlLog,
}

impl NoChanges {
    ghost use Rattle.std.specs.Prelude.{◌≡◌, [], false};

    /// A control that has given and was told nothing.
    pub fn new(alloc: Global) -> NoChanges
        ensures given { result.log.given ≡ [] }
        ensures told { result.log.answered ≡ [] }
        ensures goes_on { result.log.ended ≡ false }
    {
        NoChanges {
            log: ControlLog::new(alloc),
        }
    }
}

impl Control for NoChanges {
    ghost given = { λ c. c.log.given };

    ghost answered = { λ c. c.log.answered };

    ghost ended = { λ c. c.log.ended };

    fn next(&mut self) -> Option<Change> {
        self.log.end()
    }

    fn told(&mut self, told: &Told) {
        self.log.tell(told);
    }
}
