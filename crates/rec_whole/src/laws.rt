//! Laws of the whole file of a recording, with nothing to run.

ghost use Rattle.std.specs.Prelude.{ℕ, ◌≡◌, ◌≢◌, ◌<◌, ◌^◌, true, false, List, [], Option, None, Ok};
ghost use Rattle.std.specs.List.{AllByRecursion};
ghost use Rattle.ch11_clock.specs.declared.origin.Origin.{Origin};
ghost use Rattle.ch11_clock.specs.Clock.{IsClock};
ghost use Rattle.ch11_file.specs.declared.setup.FileSetup.{FileSetup};
ghost use Rattle.ch11_merge.specs.Kept.{IsSteady, held_of};
ghost use Rattle.ch11_file.specs.FilesRead.{LieBehindFurtherTimes};
ghost use Rattle.ch11_file.specs.FileBlocks.{FileBlock, file_bytes, merged_in};
ghost use Rattle.ch11_file.specs.WholeFile.{IsWholeFile};
ghost use Rattle.rec_reader.specs.declared.audits.answer.Audit.{Audit};
ghost use Rattle.rec_reader.specs.Audits.{Audits};
ghost use Rattle.rec_pieces.specs.Listings.{other_of};
ghost use Rattle.rec_reader.specs.declared.fault.ReadFaultKind.{ReadFaultKind};
ghost use Rattle.rec_reader.specs.Packets.{PacketData};
ghost use Rattle.rec_reader.specs.Reading.{Reads};
ghost use Rattle.rec_reader.specs.ChannelFrames.{channel_frames};
ghost use Rattle.rec_pieces.specs.Entries.{pieces_of_channel};
ghost use Rattle.rec_pieces.specs.PieceListings.{is_named};
ghost use Rattle.rec_pieces.specs.ToldPackets.{AreListedAs};
ghost use Rattle.rec_whole.specs.FilesFound.{AreApprovedAs, HasNoFault, HaveSameChannels, TellTheSame};
ghost use Rattle.rec_whole.specs.WholeFrames.{HasShortFrames, file_frames, held_in_packets};
ghost use Rattle.rec_whole.specs.declared.refusal.WholeRefusal.{WholeRefusal};
ghost use Rattle.rec_whole.specs.declared.refusal.WholeEnd.TheVariants.{Refused};
ghost use Rattle.rec_whole.specs.WholeRecordings.{EndsEarly, facts_with};

use ch11_file::{
    a_whole_file_has_no_other_channel, a_whole_file_keeps_each_channel,
    times_of_a_whole_file_stand_late,
};
use rec_pieces::pieces_hold_the_frames_of_a_channel;
use rec_reader::bytes_have_one_reading;

/// Law: a whole file of a recording's packets has the frames of each channel from 1 on that they name, in order
/// and once each.
pub fn a_whole_file_keeps_the_frames()
    ensures { (packets : List PacketData) (rules : List Origin) (most : ℕ) (setup : FileSetup)
        (blocks : List FileBlock) → IsWholeFile (facts_with packets rules most setup) blocks
        → (channel : ℕ) → channel ≢ 0 → channel < 2 ^ 16 → is_named packets channel ≡ true
        → file_frames channel blocks ≡ channel_frames channel packets }
{
    a_whole_file_keeps_each_channel();
    pieces_hold_the_frames_of_a_channel();
}

/// Law: it has no frames of a channel that they don't name.
pub fn a_whole_file_has_no_other_frames()
    ensures { (packets : List PacketData) (rules : List Origin) (most : ℕ) (setup : FileSetup)
        (blocks : List FileBlock) → IsWholeFile (facts_with packets rules most setup) blocks
        → (channel : ℕ) → is_named packets channel ≡ false → file_frames channel blocks ≡ [] }
{
    a_whole_file_has_no_other_channel();
}

/// Law: a whole file of a recording holds of each channel what the recording holds, in order and once each:
/// frames and records, each where it stood among those of its channel.
pub fn a_whole_file_keeps_what_is_recorded()
    ensures { (recording : List ℕ) (packets : List PacketData) (rules : List Origin) (most : ℕ)
        (setup : FileSetup) (blocks : List FileBlock) → Reads recording packets None
        → IsWholeFile (facts_with packets rules most setup) blocks → (channel : ℕ)
        → held_of channel (merged_in blocks) ≡ held_in_packets channel packets }
{}

/// Law: the frames of a packet of it never fall, lie within 100 ms of the first, and fit a packet.
pub fn packets_of_a_whole_file_are_short()
    ensures { (recording : List ℕ) (packets : List PacketData) (rules : List Origin) (most : ℕ)
        (setup : FileSetup) (blocks : List FileBlock) → Reads recording packets None
        → IsWholeFile (facts_with packets rules most setup) blocks
        → AllByRecursion (λ (b : FileBlock). HasShortFrames b.content) blocks }
{}

/// Law: the bytes of a whole file of a recording are read to their end, and what is read has of each channel what
/// the recording has, in order and once each: its frames, its programs and its ends. Where the audit of the
/// recording says yes, that of the file does too, with the same lines; and where it answers no fault, unless
/// memory ran out, it answers none of the file. For the audit, and for channel 0, each packet of the recording
/// names a channel, as those of all recordings that aren't refused.
pub fn a_whole_file_is_read_back()
    ensures read { (recording : List ℕ) (packets : List PacketData) (rules : List Origin) (most : ℕ)
        (setup : FileSetup) (blocks : List FileBlock) → Reads recording packets None
        → IsWholeFile (facts_with packets rules most setup) blocks
        → (found : List PacketData) × Reads (file_bytes blocks) found None }
    ensures same { (recording : List ℕ) (packets : List PacketData) (rules : List Origin) (most : ℕ)
        (setup : FileSetup) (blocks : List FileBlock) → Reads recording packets None
        → IsWholeFile (facts_with packets rules most setup) blocks
        → (found : List PacketData) (fault : Option ReadFaultKind)
        → Reads (file_bytes blocks) found fault
        → (fault ≡ None) × HaveSameChannels packets found }
    ensures approved { (recording : List ℕ) (packets : List PacketData) (rules : List Origin)
        (most : ℕ)
        (setup : FileSetup) (blocks : List FileBlock) → Reads recording packets None
        → IsWholeFile (facts_with packets rules most setup) blocks → other_of packets ≡ None
        → (found : List PacketData) → Reads (file_bytes blocks) found None
        → (audit : Audit) → Audits packets (Ok audit) → AreApprovedAs found audit }
    ensures no_fault { (recording : List ℕ) (packets : List PacketData) (rules : List Origin)
        (most : ℕ)
        (setup : FileSetup) (blocks : List FileBlock) → Reads recording packets None
        → IsWholeFile (facts_with packets rules most setup) blocks → other_of packets ≡ None
        → (found : List PacketData) → Reads (file_bytes blocks) found None
        → HasNoFault packets → HasNoFault found }
    ensures all { (recording : List ℕ) (packets : List PacketData) (rules : List Origin) (most : ℕ)
        (setup : FileSetup) (blocks : List FileBlock) → Reads recording packets None
        → IsWholeFile (facts_with packets rules most setup) blocks → other_of packets ≡ None
        → (found : List PacketData) → Reads (file_bytes blocks) found None
        → (channel : ℕ) → channel_frames channel found ≡ channel_frames channel packets }
{
    bytes_have_one_reading();
}

/// Law: the same of packets of which an end may be listed as one that was offered no frame: what is read of their
/// whole file tells of each channel what they tell, in order and once each, its frames, its programs and its ends
/// beside each other, and the audit answers the same of it.
pub fn a_whole_file_is_read_as_it_is_told()
    ensures read { (told packets : List PacketData) (rules : List Origin) (most : ℕ)
        (setup : FileSetup)
        (blocks : List FileBlock) → AreListedAs told packets
        → IsWholeFile (facts_with packets rules most setup) blocks
        → (found : List PacketData) × Reads (file_bytes blocks) found None }
    ensures same { (told packets : List PacketData) (rules : List Origin) (most : ℕ)
        (setup : FileSetup)
        (blocks : List FileBlock) → AreListedAs told packets
        → IsWholeFile (facts_with packets rules most setup) blocks
        → (found : List PacketData) (fault : Option ReadFaultKind)
        → Reads (file_bytes blocks) found fault
        → (fault ≡ None) × TellTheSame told found }
    ensures approved { (told packets : List PacketData) (rules : List Origin) (most : ℕ)
        (setup : FileSetup)
        (blocks : List FileBlock) → AreListedAs told packets
        → IsWholeFile (facts_with packets rules most setup) blocks
        → other_of packets ≡ None → (found : List PacketData) → Reads (file_bytes blocks) found None
        → (audit : Audit) → Audits told (Ok audit) → AreApprovedAs found audit }
    ensures no_fault { (told packets : List PacketData) (rules : List Origin) (most : ℕ)
        (setup : FileSetup)
        (blocks : List FileBlock) → AreListedAs told packets
        → IsWholeFile (facts_with packets rules most setup) blocks
        → other_of packets ≡ None → (found : List PacketData) → Reads (file_bytes blocks) found None
        → HasNoFault told → HasNoFault found }
    ensures all { (told packets : List PacketData) (rules : List Origin) (most : ℕ)
        (setup : FileSetup)
        (blocks : List FileBlock) → AreListedAs told packets
        → IsWholeFile (facts_with packets rules most setup) blocks
        → other_of packets ≡ None → (found : List PacketData) → Reads (file_bytes blocks) found None
        → (channel : ℕ) → channel_frames channel found ≡ channel_frames channel told }
{
    bytes_have_one_reading();
}

/// Law: of a channel whose counters never fall, no time packet of a whole file of a recording but the first stands
/// ahead of a frame or of a record whose counter is less than its tick.
pub fn times_of_a_recordings_file_stand_late()
    ensures { (packets : List PacketData) (rules : List Origin) (most : ℕ) (setup : FileSetup)
        (blocks : List FileBlock) → IsWholeFile (facts_with packets rules most setup) blocks
        → (channel : ℕ) → channel < 2 ^ 16 → is_named packets channel ≡ true
        → IsSteady (pieces_of_channel channel packets)
        → LieBehindFurtherTimes channel (merged_in blocks) }
{
    times_of_a_whole_file_stand_late();
}

/// Law: packets have one whole file with a setup record, to the byte.
pub fn there_is_one_whole_file()
    ensures { (packets : List PacketData) (rules : List Origin) (most : ℕ) (setup : FileSetup)
        (blocks others : List FileBlock) → IsClock rules → 0 < most
        → IsWholeFile (facts_with packets rules most setup) blocks
        → IsWholeFile (facts_with packets rules most setup) others → others ≡ blocks }
{}

/// Law: packets that have a whole file with a setup record aren't refused with it for their order, a gap or a time.
pub fn a_whole_file_has_no_refusal_beside_it()
    ensures { (packets : List PacketData) (rules : List Origin) (most : ℕ) (setup : FileSetup)
        (blocks : List FileBlock) → IsClock rules → 0 < most
        → IsWholeFile (facts_with packets rules most setup) blocks
        → (before held : Option (List ℕ)) (refusal : WholeRefusal)
        → ¬ EndsEarly (facts_with packets rules most setup) before held (Refused refusal) }
{}
