//! Laws of what is in the file, with nothing to run.

ghost use Rattle.std.specs.Prelude.{ℕ, ◌≡◌, ◌≢◌, ◌<◌, ◌^◌, true, List, Option, None, Ok};
ghost use Rattle.ch11_clock.specs.declared.origin.Origin.{Origin};
ghost use Rattle.ch11_file.specs.declared.setup.FileSetup.{FileSetup};
ghost use Rattle.ch11_file.specs.FileBlocks.{FileBlock, file_bytes};
ghost use Rattle.ch11_file.specs.WholeFile.{IsWholeFile};
ghost use Rattle.rec_reader.specs.declared.audits.answer.Audit.{Audit};
ghost use Rattle.rec_reader.specs.declared.fault.ReadFaultKind.{ReadFaultKind};
ghost use Rattle.rec_reader.specs.Audits.{Audits};
ghost use Rattle.rec_reader.specs.ChannelFrames.{channel_frames};
ghost use Rattle.rec_reader.specs.Packets.{PacketData};
ghost use Rattle.rec_reader.specs.Reading.{Reads};
ghost use Rattle.rec_pieces.specs.Listings.{other_of};
ghost use Rattle.rec_pieces.specs.PieceListings.{is_named};
ghost use Rattle.rec_joined.specs.declared.joined.Part.{Part};
ghost use Rattle.rec_joined.specs.JoinedFrames.{frames_of_parts};
ghost use Rattle.rec_joined.specs.JoinedPackets.{AreParts, joined_packets, joined_told};
ghost use Rattle.rec_whole.specs.FilesFound.{AreApprovedAs, TellTheSame};
ghost use Rattle.rec_whole.specs.WholeFrames.{file_frames};
ghost use Rattle.rec_whole.specs.WholeRecordings.{facts_with};

use rec_joined::{joined_recordings_are_listed_as_they_tell, joined_recordings_keep_each_channel};
use rec_pieces::PacketsAt;
use rec_whole::{a_whole_file_is_read_as_it_is_told, a_whole_file_keeps_the_frames};

/// Law: of each channel ID that is named, the whole file of recordings that are joined has the frames of the channels
/// that get it, recording by recording, in order and once each, with their counters in the file and else as they were.
/// So of a run it has those of all its recordings, one list behind the other.
pub fn a_joined_file_keeps_each_channel<P: PacketsAt>()
    ensures { (parts : List (Part P)) (read : List (List PacketData))
        → AreParts P.there 0 parts read
        → (rules : List Origin) (most : ℕ) (setup : FileSetup) (blocks : List FileBlock)
        → IsWholeFile (facts_with (joined_packets parts read) rules most setup) blocks
        → (id : ℕ) → id ≢ 0 → id < 2 ^ 16 → is_named (joined_packets parts read) id ≡ true
        → file_frames id blocks ≡ frames_of_parts id parts read }
{
    a_whole_file_keeps_the_frames();
    joined_recordings_keep_each_channel::<P>();
}

/// Law: the bytes of that file are read to their end, and what is read tells of each channel ID, in order and once each,
/// the frames, the programs and the ends that the recordings' packets become in it: its frames are those of all
/// recordings, one list behind the other. Where the audit of those packets says yes, that of the file does too, with
/// the same lines.
pub fn a_joined_file_is_read_back<P: PacketsAt>()
    ensures read { (parts : List (Part P)) (read : List (List PacketData))
        → AreParts P.there 0 parts read
        → (rules : List Origin) (most : ℕ) (setup : FileSetup) (blocks : List FileBlock)
        → IsWholeFile (facts_with (joined_packets parts read) rules most setup) blocks
        → (found : List PacketData) × Reads (file_bytes blocks) found None }
    ensures same { (parts : List (Part P)) (read : List (List PacketData))
        → AreParts P.there 0 parts read
        → (rules : List Origin) (most : ℕ) (setup : FileSetup) (blocks : List FileBlock)
        → IsWholeFile (facts_with (joined_packets parts read) rules most setup) blocks
        → (found : List PacketData) (fault : Option ReadFaultKind)
        → Reads (file_bytes blocks) found fault
        → (fault ≡ None) × TellTheSame (joined_told parts read) found }
    ensures frames { (parts : List (Part P)) (read : List (List PacketData))
        → AreParts P.there 0 parts read
        → (rules : List Origin) (most : ℕ) (setup : FileSetup) (blocks : List FileBlock)
        → IsWholeFile (facts_with (joined_packets parts read) rules most setup) blocks
        → other_of (joined_packets parts read) ≡ None
        → (found : List PacketData) → Reads (file_bytes blocks) found None
        → (id : ℕ) → channel_frames id found ≡ frames_of_parts id parts read }
    ensures approved { (parts : List (Part P)) (read : List (List PacketData))
        → AreParts P.there 0 parts read
        → (rules : List Origin) (most : ℕ) (setup : FileSetup) (blocks : List FileBlock)
        → IsWholeFile (facts_with (joined_packets parts read) rules most setup) blocks
        → other_of (joined_packets parts read) ≡ None
        → (found : List PacketData) → Reads (file_bytes blocks) found None
        → (audit : Audit) → Audits (joined_told parts read) (Ok audit) → AreApprovedAs found audit }
{
    a_whole_file_is_read_as_it_is_told();
    joined_recordings_are_listed_as_they_tell::<P>();
}
