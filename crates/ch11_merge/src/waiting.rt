//! Where a channel of a merge stands.

use crate::source::Head;

/// Where the source of a channel stands: the least comes next.
#[derive(Clone, Copy, Debug, PartialEq, Eq, PartialOrd, Ord)]
pub(crate) struct Waiting {
    pub(crate) head: Head,
    pub(crate) channel: u16,
    // the channel's index
    pub(crate) at: usize,
}
