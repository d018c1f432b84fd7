//! What a whole file says beside what its recording holds.

use ch11_setup::{Attribute, SetupChannel};

/// The names in the setup record of a whole file, and who held its clock.
#[derive(Clone, Copy, Debug)]
pub struct FileNames<'a> {
    /// The name of the recorder.
    pub host: &'a str,
    /// The name of the test.
    pub program: &'a str,
    /// Whether an outside source held the clock.
    pub is_external: bool,
    /// The names of channels, no two of one ID. A channel that the recording doesn't have is left out; one that
    /// isn't named here is `channel`, of the network 0.
    pub channels: &'a [SetupChannel<'a>],
    /// What a user adds.
    pub attributes: &'a [Attribute<'a>],
}
