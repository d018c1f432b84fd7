//! What a source of pieces is.

use std::alloc::{AllocError, AllocFailed};

/// Where a source stands. A lesser one comes first.
#[derive(Clone, Copy, Debug, PartialEq, Eq, PartialOrd, Ord)]
pub enum Head {
    /// Its next piece has this counter.
    At(u64),
    /// Its next piece has no counter.
    Uncounted,
    /// It has no piece left.
    End,
}

/// Why a source gives no more pieces.
#[derive(Clone, Copy, Debug, PartialEq, Eq)]
pub enum PieceFault {
    /// The device failed.
    Device,
    /// Out of memory.
    Memory,
}

impl From<AllocError> for PieceFault {
    ghost use Rattle.std.specs.Prelude.{◌≡◌};
    ghost use Rattle.ch11_merge.specs.declared.source.PieceFault.TheVariants.{Memory};

    ghost from_gives = { λ _ fault. fault ≡ Memory };

    fn from(_error: AllocError) -> PieceFault {
        PieceFault::Memory
    }
}

impl<T: Drop> From<AllocFailed<T>> for PieceFault {
    ghost use Rattle.std.specs.Prelude.{◌≡◌};
    ghost use Rattle.ch11_merge.specs.declared.source.PieceFault.TheVariants.{Memory};

    ghost from_gives = { λ _ fault. fault ≡ Memory };

    fn from(_error: AllocFailed<T>) -> PieceFault {
        PieceFault::Memory
    }
}

/// Gives the pieces of a channel, one after the other.
pub trait PieceSource {
    ghost use Rattle.std.specs.Prelude.{ℕ, ◌≡◌, ◌≢◌, false, List, Option, IfSome, IsSomeAnd, IfOk};
    ghost use Rattle.ch11_merge.specs.declared.source.Head.TheVariants.{End};
    ghost use Rattle.ch11_merge.specs.declared.source.Head.{Head};
    ghost use Rattle.ch11_merge.specs.Merging.{FilePiece, StandsFirst, head_of, is_due, TakesPart};

    /// A piece, as it is given.
    type Piece;

    // What a piece holds.
    ghost data_of: { Self.Piece → FilePiece };

    // The pieces that are left: `None` if the source doesn't say.
    ghost left: { Self → Option (List FilePiece) };

    // Where it stands.
    ghost stands: { Self → Head };

    /// Where the source stands.
    fn head(&self) -> Head
        ensures { result ≡ stands self.now };

    /// Where the packet of the next piece stands in the recording.
    fn place(&self) -> u64
        requires { stands self.now ≢ Head.End }
        ensures { IfSome (left self.now) (λ pieces. StandsFirst pieces result) };

    /// Takes the next piece, up to the first frame that doesn't lie before the tick. The rest is the
    /// next piece then.
    fn take(&mut self, tick: u64) -> Result<Self::Piece, PieceFault>
        requires some { stands self.old ≢ Head.End }
        requires early { is_due tick (stands self.old) ≡ false }
        ensures taken { IfOk result (λ piece. IfSome (left self.old) (λ old.
            IsSomeAnd (left self.new) (TakesPart tick old (data_of piece)))) };

    // A source that says its pieces stands at the first of them.
    ghost stands_first: { (s : Self) → IfSome (left s) (λ pieces. stands s ≡ head_of pieces) };
}
