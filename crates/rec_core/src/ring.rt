//! A channel's ring: the pieces that were sent and are not written yet.

ghost use Rattle.std.specs.Prelude.{◌≡◌, ◌<◌, ◌≤◌, ◌↔◌, [], ◌∷◌, ◌++◌, length, drop, Some, slice_get, IsTrue, IfSome, IfNone, IfOk};
ghost use Rattle.rec_lane.specs.Views.{piece_data};

use rec_lane::Piece;
use std::alloc::{AllocError, Global};
use std::collections::VecDeque;
use std::marker::Model;

/// A queue of pieces with room for a fixed number, which is taken when it is made.
#[derive(Debug, Drop)]
pub(crate) struct Ring {
    pieces: VecDeque<Piece>,
    places: usize,
}

impl Model for Ring {
    ghost use Rattle.std.specs.VecDeque.{deque_len, deque_capacity};
    ghost use Rattle.rec_lane.specs.Views.{pieces_data};
    ghost use Rattle.rec_core.specs.Rings.{RingState, IsRing};

    ghost Value = { RingState };

    ghost view = { λ r. record { places = r.places; pieces = pieces_data r.pieces.items } };

    ghost invariant = { λ r. IsRing r.places (deque_len r.pieces) (deque_capacity r.pieces) };
}

impl Ring {
    ghost use Rattle.rec_core.specs.Rings.{empty_ring, with_piece, without_first};

    /// An empty ring with room for this many pieces.
    pub(crate) fn new(alloc: Global, places: usize) -> Result<Ring, AllocError>
        ensures empty { IfOk result (λ ring. ring ≡ empty_ring places) }
    {
        let pieces = VecDeque::with_capacity(alloc, places)?;
        Ok(Ring { pieces, places })
    }

    /// Whether there is no room for a piece more.
    pub(crate) fn is_full(&self) -> bool
        ensures { IsTrue result ↔ (self.now.places ≤ length self.now.pieces) }
    {
        self.pieces.len() >= self.places
    }

    /// Adds a piece behind the others.
    pub(crate) fn push(&mut self, piece: Piece)
        requires { length self.old.pieces < self.old.places }
        ensures { self.new ≡ with_piece self.old (piece_data piece) }
    {
        self.pieces.push_back_reserved(piece);
    }

    /// The first piece.
    pub(crate) fn front(&self) -> Option<&Piece>
        ensures some { IfSome result (λ piece. slice_get self.now.pieces 0
            ≡ Some (piece_data piece.now)) }
        ensures none { IfNone result (self.now.pieces ≡ []) }
    {
        self.pieces.front()
    }

    /// Drops the first piece.
    pub(crate) fn pop(&mut self)
        ensures { self.new ≡ without_first self.old }
    {
        let _written = self.pieces.pop_front();
    }
}
