//! The output of a recording, with the count of its bytes.

ghost use Rattle.std.specs.Prelude.{◌≡◌, Contains, IfOk, IfErr, OnErr};
ghost use Rattle.rec_lane.specs.Pieces.{channel_of};
ghost use Rattle.rec_lane.specs.Views.{piece_data};
ghost use Rattle.rec_writer.specs.Numbers.{numbered_channels};
ghost use Rattle.rec_writer.specs.Writers.{PutsWhole, PutFails};
ghost use Rattle.rec_run.specs.Writer.{CountsPacket};

use rec_lane::Piece;
use rec_writer::{WriteFault, Writer, packet_len};
use std::io::Write;

/// The writer of a recording, and how many bytes the packets have that went out whole.
#[derive(Drop)]
pub(crate) struct Tape<W: Write + Drop> {
    pub(crate) writer: Writer<W>,
    pub(crate) bytes: u64,
}

impl<W: Write + Drop> Tape<W> {
    /// Writes a piece.
    pub(crate) fn put(&mut self, piece: &Piece) -> Result<(), WriteFault>
        requires { Contains (numbered_channels self.old.writer.numbers)
            (channel_of (piece_data piece.now)) }
        ensures whole { IfOk result (λ _.
            PutsWhole self.old.writer self.new.writer (piece_data piece.now)) }
        ensures counted { IfOk result (λ _.
            CountsPacket self.old.bytes self.new.bytes (piece_data piece.now)) }
        ensures fault { IfErr result
            (PutFails self.old.writer self.new.writer (piece_data piece.now)) }
        ensures count { OnErr result (self.new.bytes ≡ self.old.bytes) }
        ensures version { self.new.writer.version ≡ self.old.writer.version }
        ensures channels { numbered_channels self.new.writer.numbers
            ≡ numbered_channels self.old.writer.numbers }
    {
        let _ = piece.channel();
        match self.writer.put(piece) {
            Ok(()) => {}
            Err(fault) => return Err(fault),
        }
        self.bytes = self.bytes.saturating_add(u64::from(packet_len(piece)));
        Ok(())
    }
}
