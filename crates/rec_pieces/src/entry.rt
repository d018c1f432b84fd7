//! Where a packet of a channel stands, and what it is in a whole file.

/// What a packet is in a whole file.
#[derive(Clone, Copy, Debug, PartialEq, Eq)]
pub enum PieceKind {
    /// Frames, which are cut into pieces.
    Frames,
    /// A record with a counter: a program, or the end of a channel that was offered a frame.
    Record,
    /// A record without a counter: the end of a channel that was offered none.
    Uncounted,
}

/// A packet of a channel.
#[derive(Clone, Copy, Debug, PartialEq, Eq)]
pub struct PieceEntry {
    /// The place of its first byte in the recording, counted from 0.
    pub at: u64,
    /// What it is.
    pub kind: PieceKind,
}
