//! The bytes of a body of Ethernet data that is written.
use crate::limit::Limit;

/// The bytes of a body that is written, with what is known of them: a builder has them while frames
/// are added, and then the body.
#[derive(Debug, Drop)]
pub(crate) struct BodyBytes {
    pub(crate) bytes: Vec<u8>,
    /// The number of the frames in them.
    pub(crate) count: u16,
    /// The network identifier and the speed of each frame.
    pub(crate) net: u8,
    pub(crate) speed: u8,
    /// The limit up to which there is room.
    pub(crate) limit: Limit,
}
