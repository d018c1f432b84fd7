//! The sequence numbers of the packets to come.

/// A channel ID, and the sequence number of its next packet.
#[derive(Clone, Copy, Debug, Default)]
pub(crate) struct Numbered {
    pub(crate) channel: u16,
    pub(crate) next: u8,
}
