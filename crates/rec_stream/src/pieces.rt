//! The packets of pieces.

ghost use Rattle.std.specs.Prelude.{ℕ, ◌≡◌, ◌≢◌, ◌<◌, ◌∷◌, ◌++◌, ◌^◌, List, [], OnOk, MatchResult, length};
ghost use Rattle.ch11_merge.specs.declared.source.Head.TheVariants.{At};
ghost use Rattle.ch11_merge.specs.Merging.{head_of_piece};
ghost use Rattle.ch11_file.specs.OwnedPieces.{owned_data};
ghost use Rattle.rec_pieces.specs.Sources.{pieces_held};
ghost use Rattle.rec_stream.specs.StreamPieces.{StreamPiece, head_counter};
ghost use Rattle.rec_stream.specs.StreamBlocks.{StreamState, StreamPieceGoes};
ghost use Rattle.rec_stream.specs.StreamEnds.{StreamPast, GoingFails};
ghost use Rattle.rec_stream.specs.WholePieces.{IsOnePart};
ghost use Rattle.rec_stream.specs.Sending.{HasCome, HasGone, origin_piece, origin_pieces, pieces_size};

use crate::course::Course;
use crate::end::StreamEnd;
use crate::origin::PieceOrigin;
use crate::sent::Sent;
use ch11_file::{FileSetup, OwnedPiece, piece_body, piece_head};
use ch11_merge::Head;
use rec_pieces::{FramesInHand, InHand};
use std::alloc::Global;
use std::io::Write;

/// Sends the pieces of a packet in hand.
pub(crate) fn put_hand<W: Write>(
    alloc: Global,
    setup: &FileSetup<'_>,
    origin: PieceOrigin,
    hand: Option<InHand>,
    course: &mut Course<'_>,
    sent: &mut Sent,
    out: &mut W,
) -> Result<(), StreamEnd>
    requires number { length setup.now.channels.now < 2 ^ 16 }
    ensures gone { (past : StreamPast) (others : List StreamPiece) → past.facts.setup ≡ setup.now
        → HasCome past (W.contents out.old) sent.old course.old
        (origin_pieces origin (pieces_held hand) ++ others)
        → MatchResult result (λ _. HasCome past (W.contents out.new) sent.new course.new others)
        (GoingFails past (W.contents out.new)) }
    ensures other { OnOk result (sent.new.counts.other ≡ sent.old.counts.other) }
{
    match hand {
        None => Ok(()),
        Some(InHand::Record { place, body }) => {
            let piece = OwnedPiece::Record { place, body };
            put_record(alloc, setup, origin, &piece, course, sent, out)
        }
        Some(InHand::Frames(frames)) => {
            put_frames(alloc, setup, origin, frames, course, sent, out)
        }
    }
}

/// Sends the pieces of a packet of frames.
fn put_frames<W: Write>(
    alloc: Global,
    setup: &FileSetup<'_>,
    origin: PieceOrigin,
    frames: FramesInHand,
    course: &mut Course<'_>,
    sent: &mut Sent,
    out: &mut W,
) -> Result<(), StreamEnd>
    requires number { length setup.now.channels.now < 2 ^ 16 }
    ensures gone { (past : StreamPast) (others : List StreamPiece) → past.facts.setup ≡ setup.now
        → HasCome past (W.contents out.old) sent.old course.old (origin_pieces origin frames
        ++ others)
        → MatchResult result (λ _. HasCome past (W.contents out.new) sent.new course.new others)
        (GoingFails past (W.contents out.new)) }
    ensures other { OnOk result (sent.new.counts.other ≡ sent.old.counts.other) }
{
    let mut left = frames;
    'pieces: while !left.is_over() {
        put_next(alloc, setup, origin, &mut left, course, sent, out)?;
    }
    Ok(())
}

/// Sends the next piece of a packet of frames.
fn put_next<W: Write>(
    alloc: Global,
    setup: &FileSetup<'_>,
    origin: PieceOrigin,
    frames: &mut FramesInHand,
    course: &mut Course<'_>,
    sent: &mut Sent,
    out: &mut W,
) -> Result<(), StreamEnd>
    requires some { frames.old ≢ [] }
    requires number { length setup.now.channels.now < 2 ^ 16 }
    ensures gone { (past : StreamPast) (others : List StreamPiece) → past.facts.setup ≡ setup.now
        → HasCome past (W.contents out.old) sent.old course.old (origin_pieces origin frames.old
        ++ others)
        → MatchResult result (λ _. HasCome past (W.contents out.new) sent.new course.new
        (origin_pieces origin frames.new ++ others))
        (GoingFails past (W.contents out.new)) }
    ensures other { OnOk result (sent.new.counts.other ≡ sent.old.counts.other) }
    ensures smaller { OnOk result (pieces_size frames.new < pieces_size frames.old) }
{
    let counter = counter_of(sent.greatest(), origin.is_end, frames.head());
    course.put_due(alloc, setup, counter, sent, out)?;
    // A time packet that is still to come isn't due, so this is its tick.
    let tick = course.tick().max(counter + 1);
    let piece = frames.take(alloc, tick)?;
    put_piece(origin, &piece, counter, sent, out)
}

/// Sends a record.
pub(crate) fn put_record<W: Write>(
    alloc: Global,
    setup: &FileSetup<'_>,
    origin: PieceOrigin,
    piece: &OwnedPiece,
    course: &mut Course<'_>,
    sent: &mut Sent,
    out: &mut W,
) -> Result<(), StreamEnd>
    requires whole { IsOnePart (owned_data piece.now) }
    requires number { length setup.now.channels.now < 2 ^ 16 }
    ensures gone { (past : StreamPast) (others : List StreamPiece) → past.facts.setup ≡ setup.now
        → HasCome past (W.contents out.old) sent.old course.old
        (origin_piece origin (owned_data piece.now) ∷ others)
        → MatchResult result (λ _. HasCome past (W.contents out.new) sent.new course.new others)
        (GoingFails past (W.contents out.new)) }
    ensures other { OnOk result (sent.new.counts.other ≡ sent.old.counts.other) }
{
    let counter = counter_of(sent.greatest(), origin.is_end, head_of(piece));
    course.put_due(alloc, setup, counter, sent, out)?;
    put_piece(origin, piece, counter, sent, out)
}

/// Where a piece stands.
fn head_of(piece: &OwnedPiece) -> Head
    ensures is { result ≡ head_of_piece (owned_data piece.now) }
    ensures fits { (counter : ℕ) → result ≡ At counter → counter < 2 ^ 48 }
{
    match piece {
        OwnedPiece::Frames { body, .. } => Head::At(body.counter()),
        OwnedPiece::Record { body, .. } => match body.counter() {
            Some(counter) => Head::At(counter),
            None => Head::Uncounted,
        },
    }
}

/// The counter of the packet of a piece that stands here, behind headers of which this is the greatest counter.
fn counter_of(greatest: u64, is_end: bool, head: Head) -> u64
    requires greatest { greatest < 2 ^ 48 }
    requires head { (counter : ℕ) → head ≡ At counter → counter < 2 ^ 48 }
    ensures is { result ≡ head_counter greatest is_end head }
    ensures fits { result < 2 ^ 48 }
{
    match head {
        Head::At(counter) if is_end => counter.max(greatest),
        Head::At(counter) => counter,
        Head::Uncounted | Head::End => greatest,
    }
}

/// Sends a piece, whose packet has this counter.
fn put_piece<W: Write>(
    origin: PieceOrigin,
    piece: &OwnedPiece,
    counter: u64,
    sent: &mut Sent,
    out: &mut W,
) -> Result<(), StreamEnd>
    requires counter { counter < 2 ^ 48 }
    ensures gone { (past : StreamPast) (old next : StreamState)
        → HasGone past (W.contents out.old) sent.old old
        → StreamPieceGoes past.facts old origin.channel (owned_data piece.now) counter next
        → MatchResult result (λ _. HasGone past (W.contents out.new) sent.new next)
        (GoingFails past (W.contents out.new)) }
    ensures other { OnOk result (sent.new.counts.other ≡ sent.old.counts.other) }
{
    let mut head = piece_head(origin.channel, piece, sent.greatest());
    head.counter = counter;
    match sent.put(out, head, piece_body(piece)) {
        Ok(()) => Ok(()),
        Err(fault) => Err(StreamEnd::from(fault)),
    }
}
