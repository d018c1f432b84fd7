//! Who gives changes and is told the answers.
pub(crate) mod agreement;
pub(crate) mod change;
pub(crate) mod log;
pub(crate) mod promise;
pub(crate) mod thread;

use crate::control::change::{Change, Told};

/// Gives the changes of the filters while a recording goes on, and is told what became of each.
pub trait Control {
    ghost use Rattle.std.specs.Prelude.{ℕ, ◌≡◌, ◌+◌, List, [], ◌∷◌, ◌++◌, length, Bool, true, false, IfSome, IfNone};
    ghost use Rattle.rec_run.specs.Control.{Given, Answered, given_of, answered_of, IsOfLast, MayBeAsked};

    // The changes that it gave, in order.
    ghost given: { Self → List Given };

    // The answers that it was told, in order.
    ghost answered: { Self → List Answered };

    // Whether it has ended.
    ghost ended: { Self → Bool };

    /// The next change: `None` if there is none any more. It may wait for one. It is asked only
    /// after it was told the answer of each change that it gave, and not after it has ended; room
    /// for the answer is made here.
    fn next(&mut self) -> Option<Change>
        requires { MayBeAsked given answered ended self.old }
        ensures change { IfSome result (λ change. (ended self.new ≡ false)
            × (given self.new ≡ given self.old ++ given_of change ∷ [])) }
        ensures end { IfNone result ((ended self.new ≡ true) × (given self.new ≡ given self.old)) }
        ensures same { answered self.new ≡ answered self.old };

    /// The answer of the change that it gave last.
    fn told(&mut self, told: &Told)
        requires one { length (answered self.old) + 1 ≡ length (given self.old) }
        requires last { IsOfLast (given self.old) told.now.channel }
        ensures told { answered self.new ≡ answered self.old ++ answered_of told.now ∷ [] }
        ensures given { given self.new ≡ given self.old }
        ensures ended { ended self.new ≡ ended self.old };
}
