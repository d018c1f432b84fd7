//! What a slot was, taken apart.

use bpf_verify::Verified;
use std::alloc::Global;
use std::sync::Arc;

/// What a slot was, taken apart.
#[derive(Debug, Drop)]
pub struct Parts {
    /// The program of each version, in the order in which they were installed.
    pub versions: Vec<Arc<Verified, Global>>,
    /// The mark of each version: the number of the first frame that it may have met.
    pub marks: Vec<u64>,
    /// How many frames were drawn.
    pub offered: u64,
}
