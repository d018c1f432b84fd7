//! Laws of recordings, which run nothing.

ghost use Rattle.std.specs.Prelude.{ℕ, ◌≡◌, ◌≢◌, ◌+◌, ◌++◌, ◌∷◌, ◌↔◌, false, List, [], All, length, map, Option, None, Some, Result, Ok, Err};
ghost use Rattle.eth_frame.specs.Bytes.{AreBytes};
ghost use Rattle.ch11_packet.specs.declared.header.TheConstants.{HEADER_LEN};
ghost use Rattle.ch11_packet.specs.Header.{HeaderData, IsHeader, header_bytes};
ghost use Rattle.ch11_packet.specs.Flags.{HasChecksum};
ghost use Rattle.ch11_packet.specs.Classes.{IsOther, HasSum, IsSummed, HasClassFault, IsJudgedAs, data_in};
ghost use Rattle.rec_reader.specs.declared.fault.ReadFaultKind.{ReadFaultKind};
ghost use Rattle.rec_reader.specs.Packets.{PacketData, SpellsPacket, BeginsPackets, BeginSomeBytes, packet_of};
ghost use Rattle.rec_reader.specs.Reading.{HasReadFault, Reads, ReadsAsFront};
ghost use Rattle.rec_reader.specs.ChannelFrames.{packet_frames, channel_frames, feed_of};
ghost use Rattle.rec_reader.specs.declared.extract.Extracted.{Extracted};
ghost use Rattle.rec_reader.specs.Extracting.{Counts};
ghost use Rattle.rec_reader.specs.declared.audits.answer.Audit.{Audit};
ghost use Rattle.rec_reader.specs.declared.audits.answer.AuditFault.{AuditFault};
ghost use Rattle.bpf_insn.specs.declared.insn.Insn.{Insn};
ghost use Rattle.ch11_packet.specs.declared.class.What.{What};
ghost use Rattle.ch11_packet.specs.declared.class.ClassFault.{ClassFault};
ghost use Rattle.ch11_packet.specs.RecordsRead.{SpellsRecord};
ghost use Rattle.ch11_packet.specs.RecordsRead.RecordData.{OfProgram as Spelled};
ghost use Rattle.rec_reader.specs.Channels.{IsNamed, saying_of};
ghost use Rattle.rec_reader.specs.Channels.Saying.{OfProgram};
ghost use Rattle.rec_reader.specs.Audits.{AreApproved, Judges, Audits, EndsWell};
ghost use Rattle.rec_reader.specs.Upgrades.{is_old, spellings, upgrade, upgrade_bytes};

use ch11_packet::{a_packet_holds_one_thing, header_has_one_spelling};

/// Law: no packet's bytes begin those of a longer one, and they are one packet's; so bytes have one
/// reading at most, and packets that they begin with are the first of it.
pub fn bytes_have_one_reading()
    ensures prefix { (packet other : PacketData) (spelling rest : List ℕ)
        → SpellsPacket packet spelling → SpellsPacket other (spelling ++ rest) → rest ≡ [] }
    ensures packet { (packet other : PacketData) (spelling : List ℕ)
        → SpellsPacket packet spelling → SpellsPacket other spelling
        → packet.at ≡ other.at → packet ≡ other }
    ensures one { (bytes : List ℕ) (packets others : List PacketData)
        (fault other : Option ReadFaultKind) → Reads bytes packets fault
        → Reads bytes others other → (packets ≡ others) × (fault ≡ other) }
    ensures front { (bytes rest : List ℕ) (packets all : List PacketData)
        (fault : Option ReadFaultKind) → BeginsPackets 0 packets bytes rest → Reads bytes all fault
        → (more : List PacketData) × (all ≡ packets ++ more) }
{
    header_has_one_spelling();
    a_packet_holds_one_thing();
}

/// Law: all bytes have a reading, and so exactly one: packets one after the other, and then the end
/// or a fault.
pub fn all_bytes_have_a_reading()
    ensures { (bytes : List ℕ) → AreBytes bytes → (packets : List PacketData)
        × (fault : Option ReadFaultKind) × Reads bytes packets fault }
{
    header_has_one_spelling();
    a_packet_holds_one_thing();
}

/// Law: the beginning of a recording that is read to its end, wherever it is cut, reads as the first
/// of its packets, and then ends or is truncated; so the frames of each channel are the first of
/// those that the recording has.
pub fn a_cut_recording_reads_as_its_front()
    ensures packets { (front rest : List ℕ) (packets : List PacketData)
        → Reads (front ++ rest) packets None → ReadsAsFront front packets }
    ensures frames { (channel : ℕ) (packets more : List PacketData)
        → channel_frames channel (packets ++ more)
        ≡ channel_frames channel packets ++ channel_frames channel more }
{}

/// Law: a channel's feed is made packet by packet, and so are the counts of its frames: those of
/// packets and one more are those of the packets and then those of the one. So where
/// [`extract_packet`](crate::extract_packet) took each packet of a recording in order, the feed has
/// the records of the channel's frames that have their check sequence, in order, and nothing else.
pub fn a_feed_is_made_packet_by_packet()
    ensures none { (channel : ℕ) → feed_of (channel_frames channel []) ≡ [] }
    ensures feed { (channel : ℕ) (packets : List PacketData) (packet : PacketData)
        → feed_of (channel_frames channel (packets ++ packet ∷ []))
        ≡ feed_of (channel_frames channel packets)
        ++ feed_of (channel_frames channel (packet ∷ [])) }
    ensures counts { (channel : ℕ) (old held new : Extracted) (packets : List PacketData)
        (packet : PacketData) → Counts old held (channel_frames channel packets)
        → Counts held new (channel_frames channel (packet ∷ []))
        → Counts old new (channel_frames channel (packets ++ packet ∷ [])) }
{}

/// Law: a packet with anything else in what isn't judged of its header, and after its data, is a
/// packet that holds the same, with the same frames, if its data checksum is right, or it has none, or
/// holds neither frames nor a record; and if its body has a fault, it has one again. Where its data
/// checksum is wrong, that is its fault if it would hold frames or a record or have a fault of these.
pub fn what_is_not_judged_makes_no_difference()
    ensures packet { (packet : PacketData) (spelling body : List ℕ) (header : HeaderData)
        → SpellsPacket packet spelling → IsJudgedAs packet.header header → IsHeader header
        → data_in header body ≡ data_in packet.header packet.body
        → (packet.what ≢ What.Other → IsSummed header body)
        → HEADER_LEN + length body ≡ header.packet_len
        → SpellsPacket (packet_of packet.at header body packet.what) (header_bytes header ++ body) }
    ensures frames { (packet : PacketData) (body : List ℕ) (header : HeaderData)
        → data_in header body ≡ data_in packet.header packet.body
        → packet_frames (packet_of packet.at header body packet.what) ≡ packet_frames packet }
    ensures fault { (header other : HeaderData) (body more rest : List ℕ)
        → HasClassFault header body ClassFault.Body → IsJudgedAs header other → IsHeader other
        → data_in other more ≡ data_in header body → IsSummed other more
        → HEADER_LEN + length more ≡ other.packet_len
        → HasReadFault (header_bytes other ++ (more ++ rest)) ReadFaultKind.Body }
    ensures checksum { (header other : HeaderData) (body more rest : List ℕ)
        → ¬ IsOther header (data_in header body) → IsJudgedAs header other → IsHeader other
        → data_in other more ≡ data_in header body → HasChecksum other.flags → ¬ HasSum more
        → HEADER_LEN + length more ≡ other.packet_len
        → HasReadFault (header_bytes other ++ (more ++ rest)) ReadFaultKind.DataChecksum }
{
    a_packet_holds_one_thing();
}

/// Law: a packet that holds the record of a program says the record's own channel, version, first
/// frame and instructions.
pub fn a_packet_says_what_its_record_spells()
    ensures { (packet : PacketData) (channel version first : ℕ) (insns : List Insn)
        → packet.what ≡ What.Program channel version first (length insns)
        → SpellsRecord (Spelled channel version first insns)
        (data_in packet.header packet.body)
        → saying_of packet ≡ Some (
          channel,
          OfProgram
              (record { version = version; first = first; insns = insns }),
        ) }
{}

/// Law: packets have one audit, but for memory; and what is answered of a packet after those before
/// it is one answer.
pub fn packets_have_one_audit()
    ensures packet { (before : List PacketData) (packet : PacketData)
        (answer other : Option AuditFault) → Judges before packet answer
        → Judges before packet other → answer ≡ other }
    ensures one { (packets : List PacketData) (answer other : Result Audit AuditFault)
        → Audits packets answer → Audits packets other
        → answer ≢ Err AuditFault.Memory → other ≢ Err AuditFault.Memory → answer ≡ other }
{}

/// Law: what the yes of an audit means. Each frame is whole, with its check sequence, and the last
/// program of its channel before it is valid and returns a value other than 0 on it. And for each
/// channel that a packet of frames, a program or an end names, the last such packet is its one end,
/// which says as many frames kept as the channel has, and none offered exactly if no program of the
/// channel is there.
pub fn an_approved_recording_is_what_it_says()
    ensures approved { (packets : List PacketData) (audit : Audit)
        → Audits packets (Ok audit) → AreApproved packets }
    ensures ends { (packets : List PacketData) (audit : Audit) → Audits packets (Ok audit)
        → (channel : ℕ) → IsNamed channel packets → EndsWell channel packets }
{}

/// Law: an upgrade of an upgrade is itself, and nothing of it is old.
pub fn an_upgrade_is_upgraded()
    ensures packets { (packets : List PacketData)
        → upgrade (upgrade packets) ≡ upgrade packets }
    ensures bytes { (packets : List PacketData)
        → upgrade_bytes (upgrade packets) ≡ upgrade_bytes packets }
    ensures none_old { (packets : List PacketData)
        → All (λ packet. is_old packet ≡ false) (upgrade packets) }
{}

/// Law: the bytes of an upgrade are read to their end, as its packets; those of a recording are the
/// bytes of its packets; and a recording of which no packet is old is its own upgrade, byte for byte.
pub fn an_upgrade_is_read_as_its_packets()
    ensures read { (packets : List PacketData) → BeginSomeBytes packets
        → Reads (upgrade_bytes packets) (upgrade packets) None }
    ensures spelled { (bytes : List ℕ) (packets : List PacketData)
        → Reads bytes packets None → bytes ≡ spellings packets }
    ensures unchanged { (bytes : List ℕ) (packets : List PacketData)
        → Reads bytes packets None → All (λ packet. is_old packet ≡ false) packets
        → upgrade_bytes packets ≡ bytes }
{
    what_is_not_judged_makes_no_difference();
}

/// Law: an upgrade says what the packets say. The frames of each channel are the same, and so are,
/// packet by packet, what they hold, with the fields of programs and ends, and what they say of their
/// channels; it has the same audit; and where the audit of an upgrade says yes, that means of the
/// packets what it means of the upgrade.
pub fn an_upgrade_says_what_its_packets_say()
    ensures frames { (channel : ℕ) (packets : List PacketData) → BeginSomeBytes packets
        → channel_frames channel (upgrade packets) ≡ channel_frames channel packets }
    ensures held { (packets : List PacketData) → BeginSomeBytes packets
        → map (λ (packet : PacketData). packet.what) (upgrade packets)
        ≡ map (λ (packet : PacketData). packet.what) packets }
    ensures said { (packets : List PacketData) → BeginSomeBytes packets
        → map saying_of (upgrade packets) ≡ map saying_of packets }
    ensures audit { (packets : List PacketData) (answer : Result Audit AuditFault)
        → BeginSomeBytes packets → Audits packets answer ↔ Audits (upgrade packets) answer }
    ensures one { (packets : List PacketData) (answer other : Result Audit AuditFault)
        → BeginSomeBytes packets → Audits packets answer → Audits (upgrade packets) other
        → answer ≢ Err AuditFault.Memory → other ≢ Err AuditFault.Memory → answer ≡ other }
    ensures approved { (packets : List PacketData) (audit : Audit) → BeginSomeBytes packets
        → Audits (upgrade packets) (Ok audit) → AreApproved packets }
    ensures ends { (packets : List PacketData) (audit : Audit) → BeginSomeBytes packets
        → Audits (upgrade packets) (Ok audit)
        → (channel : ℕ) → IsNamed channel packets → EndsWell channel packets }
{
    packets_have_one_audit();
    an_approved_recording_is_what_it_says();
}
