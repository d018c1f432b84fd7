//! A caller of `ch11_file`, as its page has it.

ghost use Rattle.std.specs.Prelude.{◌≡◌, ◌<◌, ◌^◌, length};
ghost use Rattle.ch11_file.specs.declared.owned.OwnedPiece.{OwnedPiece};
ghost use Rattle.ch11_file.specs.OwnedPieces.{owned_data};

use ch11_clock::Clock;
use ch11_file::{FileEnd, FileSetup, OwnedPiece, write_file};
use ch11_index::MOST_NAMED;
use ch11_merge::{MergedChannels, PieceSource};
use std::alloc::Global;

/// The whole file of the pieces that these sources give, in memory. It has the time packets of a recording
/// with this least counter.
pub fn file_in_memory<S: PieceSource<Piece = OwnedPiece>>(
    alloc: Global,
    sources: &mut MergedChannels<S>,
    setup: &FileSetup<'_>,
    clock: &Clock,
    least: u64,
) -> Result<Vec<u8>, FileEnd>
    requires owned { (piece : OwnedPiece) → S.data_of piece ≡ owned_data piece }
    requires least { least < 2 ^ 48 }
    requires number { length setup.now.channels.now < 2 ^ 16 }
{
    let mut bytes = Vec::new(alloc);
    write_file(alloc, sources, setup, clock, least, MOST_NAMED, &mut bytes)?;
    Ok(bytes)
}
