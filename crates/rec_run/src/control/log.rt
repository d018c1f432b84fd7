//! What a control gave and was told.

ghost use Rattle.std.specs.Prelude.{◌≡◌, ◌+◌, ◌≤◌, IfSome, vec_len, vec_capacity};
ghost use Rattle.rec_run.specs.Control.{given_of};

use crate::control::change::{Change, Told};
use std::alloc::Global;
use std::marker::Model;
use std::sync::Arc;

/// What a control gave and was told, and whether it has ended: whoever implements
/// [`Control`](crate::Control) keeps one, and takes its ghost members from it.
#[derive(Drop)]
pub struct ControlLog {
    given: Vec<Change>,
    told: Vec<Told>,
    ended: bool,
}

impl Model for ControlLog {
    ghost use Rattle.std.specs.Prelude.{◌≤◌, map, vec_len, vec_capacity};
    ghost use Rattle.rec_run.specs.Control.{ControlState, given_of, answered_of};

    ghost Value = { ControlState };

    ghost view = { λ l. record {
      given = map given_of l.given.items;
      answered = map answered_of l.told.items;
      ended = l.ended;
    } };

    // there is room for the answer of each change
    ghost invariant = { λ l. vec_len l.given ≤ vec_capacity l.told };
}

impl ControlLog {
    ghost use Rattle.std.specs.Prelude.{◌≡◌, ◌+◌, [], ◌∷◌, ◌++◌, length, map, None, true, false, IfSome, IfNone};
    ghost use Rattle.rec_run.specs.Control.{given_of, answered_of};

    /// A log of a control that has given and was told nothing, and goes on. It takes no memory.
    pub fn new(alloc: Global) -> ControlLog
        ensures given { result.given ≡ [] }
        ensures answered { result.answered ≡ [] }
        ensures goes_on { result.ended ≡ false }
    {
        ControlLog {
            given: Vec::new(alloc),
            told: Vec::new(alloc),
            ended: false,
        }
    }

    /// The change as the control gives it: a share of its program is kept, with room for its answer.
    /// `None` if there is no memory for that; then the control has ended.
    pub fn give(&mut self, change: Change) -> Option<Change>
        requires even { length self.old.answered ≡ length self.old.given }
        ensures given { IfSome result (λ same. (given_of same ≡ given_of change)
            × (self.new ≡ record self.old { given = self.old.given ++ given_of change ∷ [] })) }
        ensures end { IfNone result (self.new ≡ record self.old { ended = true }) }
    {
        match share_of(&change, &mut self.given, &mut self.told) {
            Some(share) => {
                self.given.push_reserved(share);
                Some(change)
            }
            None => self.end(),
        }
    }

    /// No change: the control has ended.
    pub fn end(&mut self) -> Option<Change>
        ensures none { result ≡ None }
        ensures end { self.new ≡ record self.old { ended = true } }
    {
        self.ended = true;
        None
    }

    /// Keeps the answer of the change that was given last.
    pub fn tell(&mut self, told: &Told)
        requires one { length self.old.answered + 1 ≡ length self.old.given }
        ensures told { self.new ≡ record self.old
            { answered = self.old.answered ++ answered_of told.now ∷ [] } }
    {
        self.told.push_reserved(*told);
    }

    /// The answers that it was told, in order.
    pub fn told(&self) -> &[Told]
        ensures told { map answered_of result.now ≡ self.now.answered }
    {
        self.told.as_slice()
    }
}

/// A further share of a change, with room for it and for its answer.
fn share_of(change: &Change, given: &mut Vec<Change>, told: &mut Vec<Told>) -> Option<Change>
    ensures same { IfSome result (λ share. given_of share ≡ given_of change.now) }
    ensures given { given.new.items ≡ given.old.items }
    ensures told { told.new.items ≡ told.old.items }
    ensures grown { vec_capacity told.old ≤ vec_capacity told.new }
    ensures room { IfSome result (λ _. (vec_len given.new + 1 ≤ vec_capacity given.new)
        × (vec_len told.new + 1 ≤ vec_capacity told.new)) }
{
    let program = Arc::try_clone(&change.program).ok()?;
    given.reserve(1).ok()?;
    told.reserve(1).ok()?;
    Some(Change {
        channel: change.channel,
        program,
    })
}
