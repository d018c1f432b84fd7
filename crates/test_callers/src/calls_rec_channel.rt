//! A caller of `rec_channel`, as its page has it.

use bpf_verify::Verified;
use rec_channel::{Front, SharedSlot};
use std::alloc::Global;
use std::sync::{Arc, Wait};

/// Draws a frame, installs a filter, and draws the next frame under it.
pub fn replace_filter<R: Wait>(
    rt: &R,
    slot: &SharedSlot,
    program: Arc<Verified, Global>,
) -> Result<u32, anyhow::Error> {
    let (first, front) = slot.draw(rt, &Front::START)?;
    let (installed, front) = slot.install(rt, program, &front)?;
    prove!(first.number < installed.mark);
    let (second, _) = slot.draw(rt, &front)?;
    prove!(installed.version <= second.version);
    Ok(second.version)
}
