//! Channels by their recordings, and by the file.

/// A channel of a run, which is recordings that follow one another: they have their channels in common.
#[derive(Clone, Copy, Debug, PartialEq, Eq)]
pub struct RunChannel {
    /// The run: a number of its own.
    pub run: usize,
    /// The channel's ID in its recordings.
    pub channel: u16,
}

/// A channel of a file.
#[derive(Clone, Copy, Debug, PartialEq, Eq)]
pub struct FileChannel {
    /// Whose frames it has.
    pub of: RunChannel,
    /// Its ID in the file.
    pub id: u16,
}
