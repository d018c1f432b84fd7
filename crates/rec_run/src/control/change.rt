//! Changes of filters, and what is answered to them.

use bpf_verify::Verified;
use std::alloc::Global;
use std::sync::Arc;

/// A change: a channel gets a new program.
#[derive(Debug, Drop)]
pub struct Change {
    /// The channel ID.
    pub channel: u16,
    /// The program that comes into force.
    pub program: Arc<Verified, Global>,
}

/// What became of a change.
#[derive(Clone, Copy, Debug, PartialEq, Eq)]
pub enum Answer {
    /// The program came into force.
    Installed {
        /// Its version: its index in the channel's history.
        version: u32,
        /// Its mark: the number of the first frame that it may meet.
        mark: u64,
    },
    /// The channel has [`MAX_VERSIONS`](rec_channel::MAX_VERSIONS) versions.
    VersionsFull,
    /// No job has this channel.
    NoChannel,
}

/// An answer, with the channel that the change was for.
#[derive(Clone, Copy, Debug, PartialEq, Eq)]
pub struct Told {
    /// The channel ID of the change.
    pub channel: u16,
    /// What became of it.
    pub answer: Answer,
}

/// A change as it was answered, with a share of its program.
#[derive(Drop)]
pub(crate) struct Logged {
    pub(crate) program: Arc<Verified, Global>,
    pub(crate) told: Told,
}
