//! The version of the filter that a lane met last.

use bpf_verify::Verified;
use std::alloc::Global;
use std::sync::Arc;

/// A version, and the program that came with its first frame, which runs for all of them.
#[derive(Debug, Drop)]
pub(crate) struct Current {
    pub(crate) version: u32,
    pub(crate) program: Arc<Verified, Global>,
}
