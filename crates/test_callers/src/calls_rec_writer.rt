//! A caller of `rec_writer`, as its page has it.

use rec_lane::Piece;
use rec_writer::{WriteFault, Writer};
use std::io::Write;

/// Writes the pieces of channel 1, and gives the output back.
pub fn write<W: Write>(out: W, pieces: &[Piece]) -> Result<W, (WriteFault, W)> {
    let mut writer = Writer::new(out, &[1], 8);
    for piece in pieces {
        if writer.knows(piece.channel()) && writer.put(piece).is_err() {
            break;
        }
    }
    writer.finish()
}
