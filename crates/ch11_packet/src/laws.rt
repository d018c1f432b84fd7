//! Laws of packets, which run nothing.
ghost use Rattle.std.specs.Prelude.{◌≡◌, ◌≢◌, ◌+◌, ◌*◌, ◌%◌, ◌^◌, ◌<◌, ◌≤◌, ◌↔◌, ◌⊎◌, [], ◌∷◌, ◌++◌, List, ℕ, length, map, take, drop};
ghost use Rattle.std.specs.Int.{w16, w32, to_le_bytes};
ghost use Rattle.bpf_insn.specs.declared.insn.Insn.{Insn};
ghost use Rattle.eth_frame.specs.Bytes.{AreBytes};
ghost use Rattle.ch11_packet.specs.Header.{HeaderData, IsHeader, header_bytes, header_at, HasSync, HasHeaderSum, HasLengths, HeaderHasFault};
ghost use Rattle.ch11_packet.specs.declared.header.HeaderFault.{HeaderFault};
ghost use Rattle.ch11_packet.specs.Sums.{body_sum, word_filler};
ghost use Rattle.ch11_packet.specs.declared.class.What.{What};
ghost use Rattle.ch11_packet.specs.declared.class.ClassFault.{ClassFault};
ghost use Rattle.ch11_packet.specs.Flags.{HasChecksum};
ghost use Rattle.ch11_packet.specs.Classes.{IsOther, HasSum, IsSummed, Holds, HasClassFault, IsJudgedAs, data_in, said_frames};
ghost use Rattle.ch11_packet.specs.Profiles.{Profile};
ghost use Rattle.ch11_packet.specs.Profiles.Profile.{WithoutSum, WithSum};
ghost use Rattle.ch11_packet.specs.PacketLen.{packet_len, written_len};
ghost use Rattle.ch11_packet.specs.Packet.{packet_trailer, packet_bytes};
ghost use Rattle.ch11_packet.specs.Frames.{data_bytes, data_len, frame_len};
ghost use Rattle.eth_frame.specs.Frame.{FrameData};
ghost use Rattle.ch11_packet.specs.FramesRead.{ReadFrameData, body_frame, SpellsFrame, SpellsBody, HasSameCount};
ghost use Rattle.ch11_packet.specs.Building.{EthernetBody, IsEthernetBody, OpenBody, Fits};
ghost use Rattle.ch11_packet.specs.Records.{EndData, IsEndRecord, program_bytes, end_bytes};
ghost use Rattle.ch11_packet.specs.RecordsRead.{RecordData, SpellsRecord, IsProgramRecord, with_unused};
ghost use Rattle.ch11_packet.specs.RecordsRead.RecordData.{OfProgram, OfEnd};

use crate::frames::{BODY_WORD_LEN, FRAME_HEADER_LEN, MAX_SPEED};
use crate::header::{
    CHECKED_LEN, COMPUTER_GENERATED_DATA, ETHERNET_DATA, HEADER_LEN, MAX_ETHERNET_PACKET_LEN,
    SYNC_PATTERN,
};
use crate::limit::{MAX_LIMIT, MIN_LIMIT};
use crate::records::{
    END_RECORD, END_RECORD_LEN, INSN_LEN, MAX_PROGRAM_RECORD_LEN, PROGRAM_HEAD_LEN, PROGRAM_RECORD,
    RECORD_HEAD_LEN,
};
use crate::sum::CHECKSUM_LEN;
use eth_frame::MAX_FRAME_LEN;

/// Law: bytes begin with those of one header at most; a header's bytes say its fields; 24 bytes with
/// nothing wrong are those of the header that they say; and all others have a fault.
#[tactic(auto, unfolding(crate::specs::Header::header_bytes))]
pub fn header_has_one_spelling()
    ensures one { (header other : HeaderData) (rest more : List ℕ) → IsHeader header
        → IsHeader other → header_bytes header ++ rest ≡ header_bytes other ++ more
        → (header ≡ other) × (rest ≡ more) }
    ensures said { (header : HeaderData) → IsHeader header
        → header_at (header_bytes header) ≡ header }
    ensures valid { (header : HeaderData) → IsHeader header → HasSync (header_bytes header)
        × HasHeaderSum (header_bytes header) × HasLengths (header_bytes header) }
    ensures spelled { (bytes : List ℕ) → AreBytes bytes → length bytes ≡ HEADER_LEN
        → HasSync bytes → HasHeaderSum bytes → HasLengths bytes
        → IsHeader (header_at bytes) × (bytes ≡ header_bytes (header_at bytes)) }
    ensures some { (bytes : List ℕ) → AreBytes bytes → length bytes ≡ HEADER_LEN
        → (IsHeader (header_at bytes) × (bytes ≡ header_bytes (header_at bytes)))
        ⊎ ((fault : HeaderFault) × HeaderHasFault bytes fault) }
{}

/// Law: the least limit is 16,424 bytes, which is the length of a packet with the longest frame.
pub fn least_limit_holds_the_longest_frame()
    ensures bytes { MIN_LIMIT ≡ 16424 }
    ensures exact { packet_len (BODY_WORD_LEN + frame_len MAX_FRAME_LEN) ≡ MIN_LIMIT }
{}

/// Law: a whole packet is as long as its header and its data with the filler, and in the second
/// profile the data checksum; and the three kinds of data have their lengths.
#[tactic(auto, unfolding(crate::specs::Records::program_bytes, crate::specs::Records::end_bytes))]
pub fn packets_have_their_lengths()
    ensures packet { (profile : Profile) (header : HeaderData) (body : List ℕ)
        → length (packet_bytes profile header body) ≡ written_len profile (length body) }
    ensures frames { (net speed : ℕ) (frames : List FrameData)
        → length (data_bytes net speed frames) ≡ data_len frames }
    ensures packet_of_frames { (profile : Profile) (header : HeaderData) (net speed : ℕ)
        (frames : List FrameData)
        → length (packet_bytes profile header (data_bytes net speed frames))
        ≡ written_len profile (data_len frames) }
    ensures program { (channel version first : ℕ) (insns : List Insn)
        → length (program_bytes channel version first insns)
        ≡ PROGRAM_HEAD_LEN + INSN_LEN * length insns }
    ensures ending { (end : EndData) → length (end_bytes end) ≡ END_RECORD_LEN }
{}

/// Law: the packet of a builder's frames and a further one isn't longer than the limit, without a data
/// checksum, exactly if that frame fits, whatever the packet's header says.
pub fn a_frame_fits_if_its_packet_does()
    ensures { (header : HeaderData) (body : OpenBody) (frame : FrameData)
        → Fits body (length frame.bytes) ↔ (length (packet_bytes WithoutSum header
        (data_bytes body.net body.speed (body.frames ++ frame ∷ []))) ≤ body.limit) }
{}

/// Law: a packet of frames has at most 524,288 bytes, at most 524,284 of them without its data
/// checksum, and a speed of at most 15; a record of a program has at most 32,796 bytes.
pub fn the_limits_of_a_packet()
    ensures ethernet { MAX_ETHERNET_PACKET_LEN ≡ 524288 }
    ensures limit { MAX_LIMIT ≡ 524284 }
    ensures speed { MAX_SPEED ≡ 15 }
    ensures program { MAX_PROGRAM_RECORD_LEN ≡ 32796 }
{}

/// Law: a header begins with 0xEB25 and has 24 bytes, 22 of them before its checksum; the two data
/// types of Format 0 are 0x68 for Ethernet data and 0x00 for computer-generated data; a data checksum
/// has 4 bytes.
pub fn the_numbers_of_a_header()
    ensures sync { SYNC_PATTERN ≡ 60197 }
    ensures len { HEADER_LEN ≡ 24 }
    ensures checked { CHECKED_LEN ≡ 22 }
    ensures ethernet { ETHERNET_DATA ≡ 104 }
    ensures computer_generated { COMPUTER_GENERATED_DATA ≡ 0 }
    ensures data_checksum { CHECKSUM_LEN ≡ 4 }
{}

/// Law: a body of frames has a word of 4 bytes, and 12 bytes before each frame's; a record has 12
/// bytes before what it says, that of a program is of kind 1 and has 28 bytes before its
/// instructions of 8 bytes, and that of an end is of kind 2.
pub fn the_numbers_of_a_body()
    ensures word { BODY_WORD_LEN ≡ 4 }
    ensures frame { FRAME_HEADER_LEN ≡ 12 }
    ensures record_head { RECORD_HEAD_LEN ≡ 12 }
    ensures program { (PROGRAM_RECORD ≡ 1) × (PROGRAM_HEAD_LEN ≡ 28) × (INSN_LEN ≡ 8) }
    ensures ending { END_RECORD ≡ 2 }
{}

/// Law: bytes are the body of one list of frames at most; a body that is written is one of its
/// frames, each with the network identifier, the speed and content 0; and the bits of a body's word
/// and of a frame's header that may have any value may be replaced by any others.
pub fn body_has_one_reading()
    ensures one { (frames others : List ReadFrameData) (bytes : List ℕ) → SpellsBody frames bytes
        → SpellsBody others bytes → frames ≡ others }
    ensures written { (body : EthernetBody) → IsEthernetBody body
        → SpellsBody (map (body_frame body.net body.speed) body.frames)
        (data_bytes body.net body.speed body.frames) }
    ensures word { (frames : List ReadFrameData) (word other : ℕ) (rest : List ℕ)
        → HasSameCount word other → SpellsBody frames (to_le_bytes w32 word ++ rest)
        → SpellsBody frames (to_le_bytes w32 other ++ rest) }
    ensures unused { (frame : ReadFrameData) (spelling : List ℕ) (other : ℕ)
        → SpellsFrame frame spelling
        → SpellsFrame frame (take 6 spelling ++ to_le_bytes w16 other ++ drop 8 spelling) }
{}

/// Law: bytes are one record at most; the records that are written are those of their fields; and
/// the bytes that may have any value may be replaced by any others.
#[tactic(auto, unfolding(crate::specs::Records::program_bytes, crate::specs::Records::end_bytes))]
pub fn record_has_one_reading()
    ensures one { (said other : RecordData) (bytes : List ℕ) → SpellsRecord said bytes
        → SpellsRecord other bytes → said ≡ other }
    ensures program { (channel version first : ℕ) (insns : List Insn)
        → IsProgramRecord channel version first insns → SpellsRecord
        (OfProgram channel version first insns) (program_bytes channel version first insns) }
    ensures ending { (end : EndData) → IsEndRecord end
        → SpellsRecord (OfEnd end) (end_bytes end) }
    ensures word { (said : RecordData) (bytes : List ℕ) (other : ℕ) → SpellsRecord said bytes
        → SpellsRecord said (to_le_bytes w32 other ++ drop 4 bytes) }
    ensures unused { (channel version first other : ℕ) (insns : List Insn) (bytes : List ℕ)
        → SpellsRecord (OfProgram channel version first insns) bytes
        → SpellsRecord (OfProgram channel version first insns) (with_unused other bytes) }
{}

/// Law: the sum of bytes behind whole words is the sum of both sums, modulo 2^32.
pub fn a_sum_goes_on_from_whole_words()
    ensures { (front rest : List ℕ) → length front % 4 ≡ 0
        → body_sum (front ++ rest) ≡ (body_sum front + body_sum rest) % 2 ^ 32 }
{}

/// Law: the filler that makes whole words of bytes adds nothing to their sum.
pub fn filler_adds_nothing_to_a_sum()
    ensures { (bytes : List ℕ) → body_sum (bytes ++ word_filler (length bytes)) ≡ body_sum bytes }
{}

/// Law: bytes that differ in one place have other sums, so a data checksum shows each change of one
/// byte.
pub fn one_changed_byte_changes_the_sum()
    ensures { (front rest : List ℕ) (byte other : ℕ) → byte < 2 ^ 8 → other < 2 ^ 8
        → byte ≢ other → body_sum (front ++ byte ∷ rest) ≢ body_sum (front ++ other ∷ rest) }
{}

/// Law: the data checksum of a packet that is written is right, whatever its body is.
pub fn a_written_packet_has_its_sum()
    ensures { (body : List ℕ) → HasSum (body ++ packet_trailer WithSum body) }
{}

/// Law: a packet holds one thing, or it has one fault, and never both; what isn't judged of a
/// header, and what follows the data, makes no difference but to the data checksum: where that is
/// right, or isn't there, the packet holds the same or has the same fault, and where it is wrong, that
/// is the fault of a packet of frames or of a record; and the bytes of a body say its frames.
pub fn a_packet_holds_one_thing()
    ensures one { (header : HeaderData) (body : List ℕ) (what other : What)
        → Holds header body what → Holds header body other → what ≡ other }
    ensures valid { (header : HeaderData) (body : List ℕ) (what : What) (fault : ClassFault)
        → Holds header body what → ¬ HasClassFault header body fault }
    ensures one_fault { (header : HeaderData) (body : List ℕ) (fault other : ClassFault)
        → HasClassFault header body fault → HasClassFault header body other → fault ≡ other }
    ensures some { (header : HeaderData) (body : List ℕ) → AreBytes body
        → ((what : What) × Holds header body what)
        ⊎ ((fault : ClassFault) × HasClassFault header body fault) }
    ensures unjudged { (header other : HeaderData) (body more : List ℕ) (what : What)
        → IsJudgedAs header other → data_in other more ≡ data_in header body
        → (what ≢ What.Other → IsSummed other more)
        → Holds header body what → Holds other more what }
    ensures unjudged_fault { (header other : HeaderData) (body more : List ℕ)
        → IsJudgedAs header other → data_in other more ≡ data_in header body
        → IsSummed other more
        → HasClassFault header body ClassFault.Body → HasClassFault other more ClassFault.Body }
    ensures wrong_sum { (header other : HeaderData) (body more : List ℕ)
        → IsJudgedAs header other → data_in other more ≡ data_in header body
        → ¬ IsOther header (data_in header body) → HasChecksum other.flags → ¬ HasSum more
        → HasClassFault other more ClassFault.DataChecksum }
    ensures frames { (frames : List ReadFrameData) (bytes : List ℕ)
        → SpellsBody frames bytes → said_frames bytes ≡ frames }
{}
