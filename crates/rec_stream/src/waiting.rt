//! Ends that wait.

ghost use Rattle.ch11_file.specs.OwnedPieces.{owned_data};
ghost use Rattle.rec_stream.specs.WholePieces.{IsOnePart};

use crate::origin::PieceOrigin;
use ch11_file::OwnedPiece;

/// An end without a counter, ahead of the first packet that has one.
#[derive(Debug, Drop)]
pub(crate) struct WaitingEnd {
    pub origin: PieceOrigin,
    pub piece: OwnedPiece,
    pub ghost whole: { IsOnePart (owned_data piece) },
}
