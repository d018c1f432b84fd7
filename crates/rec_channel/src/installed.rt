//! What an install gives: a version and its mark.

/// Where a program that was installed stands in its channel's history.
#[derive(Clone, Copy, Debug, PartialEq, Eq)]
pub struct Installed {
    /// Its version: its index in the history.
    pub version: u32,
    /// Its mark: the number of the first frame that it may meet, which is the count of the frames
    /// drawn before it was installed.
    pub mark: u64,
}
