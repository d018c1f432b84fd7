//! Where pieces come from.

/// The packet that pieces come from: the channel that it names, and whether it is the channel's end.
#[derive(Clone, Copy, Debug, PartialEq, Eq)]
pub(crate) struct PieceOrigin {
    pub(crate) channel: u16,
    pub(crate) is_end: bool,
}
