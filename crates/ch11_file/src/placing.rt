//! All packets of a file behind the first time packet, in order.

ghost use Rattle.std.specs.Prelude.{ℕ, ◌≡◌, ◌<◌, ◌^◌, ◌↔◌, true, false, List, Option, IfOk, IfSome, IfNone, IsSomeAnd, IsTrue, MatchResult};
ghost use Rattle.ch11_merge.specs.declared.source.Head.{Head};
ghost use Rattle.ch11_file.specs.declared.owned.OwnedPiece.{OwnedPiece};
ghost use Rattle.ch11_file.specs.OwnedPieces.{owned_data};
ghost use Rattle.ch11_file.specs.WholeFile.{FileFacts, IsFarAhead};
ghost use Rattle.ch11_file.specs.FileEnds.{FileFails};
ghost use Rattle.ch11_file.specs.Sending.{HasPlaced, HasMerged};

use crate::end::{FileEnd, Refusal};
use crate::limits::MAX_TICKS_AHEAD;
use crate::owned::OwnedPiece;
use crate::piece_block::put_piece;
use crate::sent::Sent;
use crate::setup::FileSetup;
use crate::time_block::put_time;
use crate::times::FileTimes;
use ch11_merge::{Head, MergedChannels, NextPiece, PieceSource, Placed, next_piece, next_placed};
use std::alloc::Global;
use std::io::Write;

/// Sends all pieces that are left of channels, with the time packets ahead of them.
pub(crate) fn place_all<S: PieceSource<Piece = OwnedPiece>, W: Write>(
    alloc: Global,
    channels: &mut MergedChannels<S>,
    setup: &FileSetup<'_>,
    times: &mut FileTimes<'_>,
    sent: &mut Sent,
    out: &mut W,
) -> Result<(), FileEnd>
    requires owned { (piece : OwnedPiece) → S.data_of piece ≡ owned_data piece }
    requires fits { IfSome times.old.next (λ point. point.tick < 2 ^ 48) }
    ensures { (facts : FileFacts) (before : Option (List ℕ)) → facts.setup ≡ setup.now
        → HasPlaced S.left facts before (W.contents out.old) sent.old times.old.next
        times.old.points channels.old
        → MatchResult result (λ _. HasMerged facts before (W.contents out.new) sent.new)
        (FileFails facts before (W.contents out.new)) }
{
    'places: loop {
        match place_next(alloc, channels, setup, times, sent, out) {
            Ok(true) => {}
            Ok(false) => return Ok(()),
            Err(end) => return Err(end),
        }
    }
}

/// Sends what comes next: a time packet, or a piece. At `false` nothing is left.
fn place_next<S: PieceSource<Piece = OwnedPiece>, W: Write>(
    alloc: Global,
    channels: &mut MergedChannels<S>,
    setup: &FileSetup<'_>,
    times: &mut FileTimes<'_>,
    sent: &mut Sent,
    out: &mut W,
) -> Result<bool, FileEnd>
    requires owned { (piece : OwnedPiece) → S.data_of piece ≡ owned_data piece }
    requires fits { IfSome times.old.next (λ point. point.tick < 2 ^ 48) }
    ensures placed { (facts : FileFacts) (before : Option (List ℕ)) → facts.setup ≡ setup.now
        → HasPlaced S.left facts before (W.contents out.old) sent.old times.old.next
        times.old.points channels.old
        → MatchResult result (λ more. (more ≡ true → HasPlaced S.left facts before
        (W.contents out.new) sent.new times.new.next times.new.points channels.new)
        × (more ≡ false → HasMerged facts before (W.contents out.new) sent.new))
        (FileFails facts before (W.contents out.new)) }
    ensures grows { IfOk result (λ more. more ≡ true
        → (sent.old.index.place < sent.new.index.place) × (sent.new.index.place < 2 ^ 64)) }
    ensures fits { IfOk result (λ _. IfSome times.new.next (λ point. point.tick < 2 ^ 48)) }
{
    if let Some(at) = gap_of(sent.greatest(), next_piece(channels)) {
        return Err(FileEnd::Refused(Refusal::Gap { at }));
    }
    match next_placed(channels, times.tick()) {
        Ok(Some(Placed::Time { .. })) => {
            put_time(alloc, setup, times, sent, out)?;
            Ok(true)
        }
        Ok(Some(Placed::Piece { channel, piece })) => {
            put_piece(alloc, channel, &piece, sent, out)?;
            Ok(true)
        }
        Ok(None) => Ok(false),
        Err(fault) => Err(FileEnd::Pieces(fault)),
    }
}

/// Where the packet of the next piece stands, if that lies over a week ahead of the greatest counter that went
/// out.
fn gap_of(greatest: u64, next: Option<NextPiece>) -> Option<u64>
    requires { greatest < 2 ^ 48 }
    ensures some { IfSome result (λ place. IsSomeAnd next (λ piece.
        IsFarAhead greatest piece.head × (piece.place ≡ place))) }
    ensures none { IfNone result (IfSome next (λ piece. ¬ IsFarAhead greatest piece.head)) }
{
    match next {
        Some(piece) if is_far_ahead(greatest, piece.head) => Some(piece.place),
        _ => None,
    }
}

/// Whether a piece lies over a week ahead of the greatest counter that went out.
fn is_far_ahead(greatest: u64, head: Head) -> bool
    requires { greatest < 2 ^ 48 }
    ensures { IsTrue result ↔ IsFarAhead greatest head }
{
    match head {
        Head::At(counter) => greatest + MAX_TICKS_AHEAD < counter,
        Head::Uncounted | Head::End => false,
    }
}
