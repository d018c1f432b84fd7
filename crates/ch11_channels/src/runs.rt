//! The runs of recordings: those that follow one another.

ghost use Rattle.std.specs.Prelude.{ℕ, ◌≡◌, ◌<◌, List, IfOk, length};
ghost use Rattle.ch11_channels.specs.Runs.{AreRunsOf, FollowEarlier};

use std::alloc::{AllocError, Global};

/// The run of each recording, of which is said which earlier one it follows, if it follows one: the place of the
/// run's first.
pub fn runs_of(alloc: Global, afters: &[Option<usize>]) -> Result<Vec<usize>, AllocError>
    requires { FollowEarlier afters.now }
    ensures { IfOk result (λ runs. AreRunsOf afters.now runs.items) }
{
    let mut runs = Vec::new(alloc);
    'afters: for at in 0..afters.len() {
        let run = match afters[at] {
            None => at,
            Some(place) => runs[place],
        };
        runs.push(run)?;
    }
    Ok(runs)
}
