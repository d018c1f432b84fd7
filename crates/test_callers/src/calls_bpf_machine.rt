//! A caller of `bpf_machine`, as its page has it.

use bpf_machine::{MAX_VIEW, Prepared, run};
use bpf_verify::Verified;
use std::alloc::{AllocError, Global};

/// Whether a program keeps a frame with this view, and after how many instructions.
pub fn keeps(program: &Verified, view: &[u8]) -> Option<(bool, u32)> {
    if view.len() > MAX_VIEW {
        return None;
    }
    let outcome = run(program, view);
    Some((outcome.value != 0, outcome.steps))
}

/// How many of these views a program keeps, laid out once for all of them.
pub fn kept_of(alloc: Global, program: &Verified, views: &[&[u8]]) -> Result<u64, AllocError> {
    let mut prepared = Prepared::with_room(alloc)?;
    prepared.prepare(program);
    let mut kept = 0u64;
    for view in views {
        if view.len() <= MAX_VIEW && prepared.value(view) != 0 {
            kept = kept.saturating_add(1);
        }
    }
    Ok(kept)
}
