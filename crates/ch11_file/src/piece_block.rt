//! The packet of a piece.

ghost use Rattle.std.specs.Prelude.{ℕ, ◌≡◌, ◌+◌, ◌<◌, ◌≤◌, ◌^◌, List, Option, OnOk, MatchResult, IsTrue, ◌↔◌, length};
ghost use Rattle.ch11_packet.specs.declared.header.TheConstants.{MAX_ETHERNET_PACKET_LEN};
ghost use Rattle.ch11_packet.specs.PacketLen.{written_len};
ghost use Rattle.ch11_packet.specs.Profiles.Profile.{WithSum};
ghost use Rattle.ch11_merge.specs.Merging.{ChannelLeft, PieceIsNext, head_of_piece};
ghost use Rattle.ch11_file.specs.OwnedPieces.{owned_data};
ghost use Rattle.ch11_file.specs.declared.kind.BlockKind.TheVariants.{Frames};
ghost use Rattle.ch11_file.specs.FileBlocks.{kind_of, block_body};
ghost use Rattle.ch11_file.specs.FileBlocks.BlockContent.{PieceBlock};
ghost use Rattle.ch11_file.specs.WholeFile.{FileFacts, block_channel, counter_of, merge_state, IsBehind, IsFarAhead};
ghost use Rattle.ch11_file.specs.WholeFile.FileStage.{Merging};
ghost use Rattle.ch11_file.specs.FileEnds.{FileFails};
ghost use Rattle.ch11_file.specs.Sending.{HasSent, IsContent};
ghost use Rattle.ch11_file.specs.declared.setup.FileSetup.{FileSetup};

use crate::end::{FileEnd, Refusal};
use crate::kind::{BlockHead, BlockKind};
use crate::limits::MAX_TICKS_BACK;
use crate::owned::OwnedPiece;
use crate::sent::Sent;
use ch11_packet::RECORD_CHANNEL;
use std::alloc::Global;
use std::io::Write;

/// Sends a piece of a channel, which comes next, if it isn't over a second behind.
pub(crate) fn put_piece<W: Write>(
    alloc: Global,
    channel: u16,
    piece: &OwnedPiece,
    sent: &mut Sent,
    out: &mut W,
) -> Result<(), FileEnd>
    ensures put { (facts : FileFacts) (before : Option (List ℕ)) (tick : ℕ)
        (old new : List ChannelLeft)
        → HasSent facts before (W.contents out.old) sent.old (merge_state Merging tick old)
        → PieceIsNext tick old channel (owned_data piece.now) new
        → ¬ IsFarAhead sent.old.index.greatest (head_of_piece (owned_data piece.now))
        → MatchResult result (λ _. HasSent facts before (W.contents out.new) sent.new
        (merge_state Merging tick new))
        (FileFails facts before (W.contents out.new)) }
    ensures grows { OnOk result ((sent.old.index.place < sent.new.index.place)
        × (sent.new.index.place < 2 ^ 64)) }
{
    let greatest = sent.greatest();
    let head = piece_head(channel, piece, greatest);
    if is_behind(greatest, head.counter) {
        return Err(FileEnd::Refused(Refusal::Disorder { at: piece.place() }));
    }
    match sent.put(alloc, out, head, piece_body(piece)) {
        Ok(()) => Ok(()),
        Err(fault) => Err(FileEnd::Write(fault)),
    }
}

/// What the header of a piece's packet says. A piece without a counter has the greatest that went out.
pub fn piece_head(channel: u16, piece: &OwnedPiece, greatest: u64) -> BlockHead
    requires { greatest < 2 ^ 48 }
    ensures kind { result.kind ≡ kind_of (PieceBlock channel (owned_data piece.now)) }
    ensures channel { (setup : FileSetup)
        → result.channel ≡ block_channel setup (PieceBlock channel (owned_data piece.now)) }
    ensures counter { result.counter ≡ counter_of greatest (owned_data piece.now) }
    ensures fits { result.counter < 2 ^ 48 }
{
    match piece {
        OwnedPiece::Frames { body, .. } => BlockHead {
            kind: BlockKind::Frames,
            channel,
            counter: body.counter(),
        },
        OwnedPiece::Record { body, .. } => BlockHead {
            kind: BlockKind::Record,
            channel: RECORD_CHANNEL,
            counter: body.counter().unwrap_or(greatest),
        },
    }
}

/// The body of a piece's packet.
pub fn piece_body(piece: &OwnedPiece) -> &[u8]
    ensures body { (channel : ℕ)
        → result.now ≡ block_body (PieceBlock channel (owned_data piece.now)) }
    ensures fits { written_len WithSum (length result.now) < 2 ^ 32 }
    ensures frames { (channel : ℕ) → kind_of (PieceBlock channel (owned_data piece.now)) ≡ Frames
        → written_len WithSum (length result.now) ≤ MAX_ETHERNET_PACKET_LEN }
{
    match piece {
        OwnedPiece::Frames { body, .. } => body.bytes(),
        OwnedPiece::Record { body, .. } => body.bytes(),
    }
}

/// Whether a counter lies over a second behind the greatest that went out.
fn is_behind(greatest: u64, counter: u64) -> bool
    requires { counter < 2 ^ 48 }
    ensures { IsTrue result ↔ IsBehind greatest counter }
{
    counter + MAX_TICKS_BACK < greatest
}
