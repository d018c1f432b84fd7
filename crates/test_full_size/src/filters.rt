//! The filters of the channels.

use crate::channel::{FeedKind, is_keeping};
use bpf_insn::{Insn, MAX_INSNS, parse_listing};
use bpf_verify::{Verified, verify};
use rec_channel::MAX_VERSIONS;
use std::alloc::Global;
use std::sync::Arc;

/// Accepts each frame.
const KEEPS: &str = "1,6 0 0 1,";

/// Accepts a frame whose view's length is no multiple of 3.
const BY_LENGTH: &str = "3,128 0 0 0,148 0 0 3,22 0 0 0,";

/// Accepts a frame whose first byte is odd.
const BY_FIRST_BYTE: &str = "4,48 0 0 0,69 0 1 1,6 0 0 1,6 0 0 0,";

/// How many instructions each version of a channel with many has more than the one before; the last
/// has the greatest program.
const MORE_INSNS: usize = MAX_INSNS / MAX_VERSIONS;

/// A load of 1.
const LOAD: Insn = Insn {
    code: 0,
    jt: 0,
    jf: 0,
    k: 1,
};

/// The first program of a channel.
pub(crate) fn first_program(alloc: Global, kind: FeedKind) -> Option<Arc<Verified, Global>> {
    match kind {
        FeedKind::Versions => version(alloc, 0),
        FeedKind::Many => listed(alloc, BY_LENGTH),
        FeedKind::Varied => listed(alloc, BY_FIRST_BYTE),
        FeedKind::Shortest | FeedKind::Longest | FeedKind::Silent => listed(alloc, KEEPS),
    }
}

/// The program of a version of a channel with many: loads of 1, and a return.
pub(crate) fn version(alloc: Global, version: u32) -> Option<Arc<Verified, Global>> {
    let mut insns = Vec::new(alloc);
    insns.resize(loads_of(version), LOAD).ok()?;
    insns.push(returning(is_keeping(version))).ok()?;
    verified(alloc, insns)
}

/// How many loads the program of a version has.
fn loads_of(version: u32) -> usize {
    (version as usize)
        .saturating_add(1)
        .saturating_mul(MORE_INSNS)
        .saturating_sub(1)
}

/// The return that accepts a frame, or drops it.
fn returning(is_accepted: bool) -> Insn {
    Insn {
        code: 6,
        jt: 0,
        jf: 0,
        k: u32::from(is_accepted),
    }
}

fn listed(alloc: Global, listing: &str) -> Option<Arc<Verified, Global>> {
    verified(alloc, parse_listing(alloc, listing).ok()?)
}

fn verified(alloc: Global, insns: Vec<Insn>) -> Option<Arc<Verified, Global>> {
    let program = verify(insns).ok()?;
    Arc::new(alloc, program).ok()
}
