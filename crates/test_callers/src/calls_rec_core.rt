//! A caller of `rec_core`, as its page has it.

use bpf_verify::Verified;
use rec_core::{ChannelSpec, CoreFault, Event, Reply, World, run_world, specs_ok};
use std::alloc::{AllocError, Global};
use std::io::Write;

/// Does events on new channels with rings of 4 pieces; the answers.
pub fn replay<W: Write + Drop>(
    alloc: Global,
    specs: &[ChannelSpec],
    events: &[Event],
    out: W,
) -> Result<Vec<Result<Reply, CoreFault>>, AllocError> {
    if !specs_ok(specs) {
        return Ok(Vec::new(alloc));
    }
    let mut world = World::new(alloc, specs, 4, 8, out)?;
    run_world(alloc, &mut world, events)
}
