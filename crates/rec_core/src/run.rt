//! Runs of a core.

ghost use Rattle.std.specs.Prelude.{◌≡◌, true, IfOk, OnErr};
ghost use Rattle.rec_core.specs.Worlds.{RunsWorld, RunsCut};
ghost use Rattle.rec_core.specs.Views.{events_data};

use crate::event::Event;
use crate::fault::CoreFault;
use crate::reply::Reply;
use crate::world::World;
use std::alloc::{AllocError, Global};
use std::io::Write;

/// Does events, one after the other, and gives the answers, one for each.
///
/// # Errors
///
/// [`AllocError`] if there is no memory for the answers; then no event was done.
pub fn run_world<W: Write + Drop>(
    alloc: Global,
    world: &mut World<W>,
    events: &[Event],
) -> Result<Vec<Result<Reply, CoreFault>>, AllocError>
    // A run of each world that the core stood for.
    ensures run { IfOk result (λ answers.
        RunsWorld world.old world.new (events_data events.now) answers.items) }
    // An output that fails is cut in a piece of the channel that is answered so first.
    ensures cut { IfOk result (λ answers.
        RunsCut world.old world.new (events_data events.now) answers.items) }
    // An output that had failed is not written.
    ensures silent { (world.old.writer.failed ≡ true) → world.new.writer ≡ world.old.writer }
    ensures version { world.new.writer.version ≡ world.old.writer.version }
    ensures refused { OnErr result (world.new ≡ world.old) }
{
    let mut answers = Vec::with_capacity(alloc, events.len())?;
    'events: for event in events {
        answers.push_reserved(world.step(event));
    }
    Ok(answers)
}
