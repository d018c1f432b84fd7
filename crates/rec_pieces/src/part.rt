//! The part of a packet's frames that goes out in one piece.

ghost use Rattle.std.specs.Prelude.{◌≡◌, ◌≢◌, ◌-◌, ◌<◌, [], length, drop, IfOk};
ghost use Rattle.ch11_packet.specs.FramesRead.{AreFrames};
ghost use Rattle.ch11_merge.specs.Merging.FilePiece.{OfFrames};
ghost use Rattle.ch11_file.specs.OwnedPieces.{owned_data};
ghost use Rattle.rec_pieces.specs.BodiesSoFar.{IsBodySoFar};
ghost use Rattle.rec_pieces.specs.Parts.{IsPartTaken};

use ch11_file::{OwnedPiece, PieceBuilder, a_frame_that_goes_on_fits};
use ch11_merge::PieceSoFar;
use ch11_packet::first_frame;
use std::alloc::{AllocError, Global};

/// How many bytes a piece gets room for at first.
const FIRST_ROOM: usize = 4_096;

/// A piece of the first frames of some bytes, and what is left of these.
#[derive(Debug, Drop)]
pub(crate) struct PartTaken {
    /// The piece.
    pub(crate) piece: OwnedPiece,
    /// How many frames are left.
    pub(crate) count: u16,
    /// How many bytes they have.
    pub(crate) len: usize,
    /// The piece so far that the next frame belongs to.
    pub(crate) ahead: PieceSoFar,
}

/// Takes of the frames in these bytes, of the packet at a place, the first ones that go out in one piece
/// ahead of the tick. The first of them belongs to the piece behind `ahead`.
pub(crate) fn take_part(
    alloc: Global,
    place: u64,
    count: u16,
    bytes: &[u8],
    ahead: PieceSoFar,
    tick: u64,
) -> Result<PartTaken, AllocError>
    requires held { ∥ AreFrames count bytes.now ∥₁ }
    requires some { 0 < count }
    requires body { IsBodySoFar ahead }
    ensures part { IfOk result (IsPartTaken tick place ahead count bytes.now) }
    ensures held { IfOk result (λ part.
        ∥ AreFrames part.count (drop (length bytes.now - part.len) bytes.now) ∥₁) }
    ensures body { IfOk result (λ part. IsBodySoFar part.ahead) }
{
    a_frame_that_goes_on_fits();
    let mut builder = PieceBuilder::new(alloc, FIRST_ROOM)?;
    let Some((first, mut rest)) = first_frame(count, bytes) else {
        unreachable!()
    };
    builder.push(&first)?;
    let mut piece = ahead.with(&first);
    let mut left = count - 1;
    'frames: while let Some((frame, after)) = first_frame(left, rest) {
        if !piece.goes_on(&frame) {
            let next = PieceSoFar::before(frame.counter);
            return Ok(sealed(builder, place, left, rest, next));
        }
        if frame.counter >= tick {
            return Ok(sealed(builder, place, left, rest, piece));
        }
        builder.push(&frame)?;
        piece = piece.with(&frame);
        left -= 1;
        rest = after;
    }
    Ok(sealed(builder, place, left, rest, ahead))
}

/// The part of the frames that were added, where this many are left in these bytes.
fn sealed(
    builder: PieceBuilder,
    place: u64,
    count: u16,
    rest: &[u8],
    ahead: PieceSoFar,
) -> PartTaken
    requires { builder ≢ [] }
    ensures piece { owned_data result.piece ≡ OfFrames place builder }
    ensures left { (result.count ≡ count) × (result.len ≡ length rest.now)
        × (result.ahead ≡ ahead) }
{
    PartTaken {
        piece: builder.seal(place),
        count,
        len: rest.len(),
        ahead,
    }
}
