//! Laws of old recordings, which are brought up to date.

ghost use Rattle.std.specs.Prelude.{ℕ, ◌≡◌, ◌^◌, ◌<◌, true, List, All, length, count_by, None};
ghost use Rattle.rec_lane.specs.Pieces.{PieceData};
ghost use Rattle.rec_writer.specs.Encoding.{writer_output};
ghost use Rattle.rec_reader.specs.Packets.{PacketData};
ghost use Rattle.rec_reader.specs.Reading.{Reads};
ghost use Rattle.rec_reader.specs.Upgrades.{is_old, upgrade_bytes};
ghost use Rattle.rec_theorem.specs.OldRecordings.{IsOldPiece, old_output};

use rec_reader::bytes_have_one_reading;

/// Law: what was written of pieces in the first profile, without data checksums, is read to its end;
/// and the upgrade of what is read is what is written of these pieces now. The pieces are of channels
/// over 0, and their packets in the first profile have at most 524,284 bytes.
pub fn an_old_recording_becomes_a_new_one()
    ensures read { (version : ℕ) (pieces : List PieceData) → version < 2 ^ 8
        → All IsOldPiece pieces
        → (packets : List PacketData) × Reads (old_output version pieces) packets None }
    ensures upgrade { (version : ℕ) (pieces : List PieceData) (packets : List PacketData)
        → version < 2 ^ 8 → All IsOldPiece pieces
        → Reads (old_output version pieces) packets None
        → upgrade_bytes packets ≡ writer_output version pieces }
    ensures each { (version : ℕ) (pieces : List PieceData) (packets : List PacketData)
        → version < 2 ^ 8 → All IsOldPiece pieces
        → Reads (old_output version pieces) packets None
        → All (λ (packet : PacketData). is_old packet ≡ true) packets }
{
    bytes_have_one_reading();
}
