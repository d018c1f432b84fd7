//! What the offer of a frame gives.

use crate::piece::{DataPiece, Piece};
use arrayvec::ArrayVec;

/// What the offer of a frame gives.
#[derive(Debug, Drop)]
pub struct Offered {
    /// What the program in force returned on the frame's view; 0 drops the frame.
    pub value: u32,
    /// The pieces that are certain now and were not before.
    pub pieces: ArrayVec<Piece, 2>,
}

/// What the offer of a frame gives whose version the lane met before.
#[derive(Debug, Drop)]
pub struct OfferedKnown {
    /// What the version's program returned on the frame's view; 0 drops the frame.
    pub value: u32,
    /// The packet that is certain now, since the frame did not fit any more.
    pub packet: Option<DataPiece>,
}
