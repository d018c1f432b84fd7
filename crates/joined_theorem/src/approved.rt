//! The law of the audit, with nothing to run.

ghost use Rattle.std.specs.Prelude.{ℕ, ◌≡◌, List, None, Ok};
ghost use Rattle.std.specs.List.{AllByRecursion};
ghost use Rattle.ch11_clock.specs.declared.origin.Origin.{Origin};
ghost use Rattle.ch11_file.specs.declared.setup.FileSetup.{FileSetup};
ghost use Rattle.ch11_file.specs.FileBlocks.{FileBlock, file_bytes};
ghost use Rattle.ch11_file.specs.WholeFile.{IsWholeFile};
ghost use Rattle.rec_reader.specs.declared.audits.answer.Audit.{Audit};
ghost use Rattle.rec_reader.specs.Audits.{Audits};
ghost use Rattle.rec_reader.specs.Packets.{PacketData};
ghost use Rattle.rec_reader.specs.Reading.{Reads};
ghost use Rattle.rec_pieces.specs.Listings.{other_of};
ghost use Rattle.rec_joined.specs.declared.joined.Part.{Part};
ghost use Rattle.rec_joined.specs.JoinedPackets.{AreParts, joined_packets, joined_told};
ghost use Rattle.rec_whole.specs.FilesFound.{AreApprovedAs};
ghost use Rattle.rec_whole.specs.WholeRecordings.{facts_with};
ghost use Rattle.joined_theorem.specs.RunMoves.{AreAllApproved, AreMovedInRuns, HaveOwnIds};

use crate::files::a_joined_file_is_read_back;
use rec_pieces::PacketsAt;

/// Law: where the audit says yes of each recording, it says yes of what their packets become together, and of what is
/// read of their whole file, with the same lines. That is so if each ID is that of one channel of one run, and if
/// programs and ends become what the recordings of their run make of them.
pub fn approved_recordings_have_an_approved_file<P: PacketsAt>()
    ensures told { (parts : List (Part P)) (read : List (List PacketData))
        → AreParts P.there 0 parts read
        → HaveOwnIds parts → AreMovedInRuns parts read → AreAllApproved read
        → (audit : Audit) × Audits (joined_told parts read) (Ok audit) }
    ensures file { (parts : List (Part P)) (read : List (List PacketData))
        → AreParts P.there 0 parts read
        → HaveOwnIds parts → AreMovedInRuns parts read → AreAllApproved read
        → (rules : List Origin) (most : ℕ) (setup : FileSetup) (blocks : List FileBlock)
        → IsWholeFile (facts_with (joined_packets parts read) rules most setup) blocks
        → other_of (joined_packets parts read) ≡ None
        → (found : List PacketData) → Reads (file_bytes blocks) found None
        → (audit : Audit) × Audits (joined_told parts read) (Ok audit) × AreApprovedAs found audit }
{
    a_joined_file_is_read_back::<P>();
}
