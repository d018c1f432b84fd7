//! Laws of a whole file, with nothing to run.

ghost use Rattle.std.specs.Prelude.{ℕ, ◌≡◌, ◌≢◌, ◌<◌, ◌≤◌, ◌^◌, true, List, [], ◌∷◌, ◌++◌, Option, None, Some, length, map, slice_get, All};
ghost use Rattle.std.specs.List.{AllByRecursion, flat_map};
ghost use Rattle.ch11_packet.specs.declared.header.TheConstants.{COMPUTER_GENERATED_DATA, ETHERNET_DATA};
ghost use Rattle.ch11_packet.specs.Frames.{data_len};
ghost use Rattle.ch11_packet.specs.FramesRead.{ReadFrameData, IsReadFrame, SpellsBody};
ghost use Rattle.ch11_merge.specs.declared.piece.PieceSoFar.{PieceSoFar};
ghost use Rattle.ch11_merge.specs.Pieces.{goes_on, with_frames};
ghost use Rattle.ch11_merge.specs.Short.{FitPacket};
ghost use Rattle.ch11_merge.specs.Merging.{ChannelLeft};
ghost use Rattle.ch11_merge.specs.Merging.FilePiece.{OfFrames, OfRecord};
ghost use Rattle.ch11_merge.specs.Kept.{AreNamedApart, IsSteady, TimesStandAhead, held_in, held_of};
ghost use Rattle.ch11_index.specs.FileIndex.{IsIndexed, empty_index};
ghost use Rattle.ch11_index.specs.IndexRead.{AreChained, AreWithin, EndsWithRoot};
ghost use Rattle.ch11_index.specs.IndexRead.{named_in, nodes_from, packets_from, rooted_in};
ghost use Rattle.ch11_file.specs.declared.kind.BlockKind.TheVariants.{Frames, Record, Setup};
ghost use Rattle.ch11_file.specs.BodiesSaid.{SaysContent};
ghost use Rattle.ch11_file.specs.FileBlocks.{FileBlock, block_body, block_len, block_packet, data_type, file_bytes, item_of};
ghost use Rattle.ch11_file.specs.FileBlocks.{kind_of, merged_in};
ghost use Rattle.ch11_file.specs.FileBlocks.BlockContent.{PieceBlock};
ghost use Rattle.ch11_file.specs.WholeFile.{FileFacts, IsWholeFile, setup_at, setup_text};
ghost use Rattle.ch11_file.specs.FilesRead.{BeginAtZero, BeginsWithSetup, IsValidPacket, NeverFarBehind, RiseByOne};
ghost use Rattle.ch11_file.specs.FilesRead.{LieBehindFurtherTimes, LieNearTheirTimes, TellsClock};
ghost use Rattle.ch11_file.specs.FilesRead.{TimeStandsSecond};
ghost use Rattle.ch11_file.specs.declared.setup.FileSetup.{FileSetup};
ghost use Rattle.ch11_clock.specs.declared.civil.CivilTime.{CivilTime};
ghost use Rattle.ch11_setup.specs.Attributes.{HoldsAttributes};
ghost use Rattle.ch11_setup.specs.Setups.{IsSetup, given_attributes, setup_attributes};
ghost use Rattle.ch11_setup.specs.Sources.{NamesNoSource, SaysSources};
ghost use Rattle.ch11_clock.specs.Clock.{IsClock};

use crate::limits::{MAX_SETUP_LEN, MAX_TICKS_AHEAD, MAX_TICKS_BACK};
use ch11_clock::{counters_lie_near_a_time_point, time_points_have_the_clocks_time};
use ch11_index::an_index_names_all;
use ch11_setup::{a_setup_record_is_read_back, a_setup_record_names_the_channels};

/// Law: a reader takes the packet of a piece for what it is. Frames have the data type of Ethernet data, and their
/// body is read as these frames; a record has that of computer-generated data, and its body is its data.
pub fn packets_of_pieces_are_read_back()
    ensures frames { (channel place : ℕ) (frames : List ReadFrameData) → All IsReadFrame frames
        → length frames < 2 ^ 16
        → SpellsBody frames (block_body (PieceBlock channel (OfFrames place frames))) }
    ensures record { (channel place : ℕ) (counter : Option ℕ) (body : List ℕ)
        → block_body (PieceBlock channel (OfRecord place counter body)) ≡ body }
    ensures types { (data_type Frames ≡ ETHERNET_DATA)
        × (data_type Record ≡ COMPUTER_GENERATED_DATA) }
{}

/// Law: a single frame fits its packet, and so does a further one that goes on with a piece, behind the
/// frames that were pushed of it.
pub fn a_frame_that_goes_on_fits()
    ensures first { (frame : ReadFrameData) → IsReadFrame frame → FitPacket (frame ∷ []) }
    ensures further { (ahead : PieceSoFar) (frames : List ReadFrameData) (frame : ReadFrameData)
        → data_len [] ≤ ahead.len → goes_on (with_frames ahead frames) frame ≡ true
        → FitPacket (frames ++ frame ∷ []) }
{}

/// Law: the nodes of a whole file name each packet that isn't of the index, in order and once each, with its
/// counter, channel, data type and first byte, and its roots name each node so; its last packet is a root; each
/// root leads to the one before, and the first to itself; none names more than the limit; and the length by
/// which a packet's place is counted is that of its bytes.
pub fn a_whole_file_is_indexed()
    ensures indexed { (facts : FileFacts) (blocks : List FileBlock) → IsWholeFile facts blocks
        → IsIndexed (empty_index facts.most) (map item_of blocks) }
    ensures packets { (facts : FileFacts) (blocks : List FileBlock) → IsWholeFile facts blocks
        → named_in (map item_of blocks) ≡ packets_from 0 (map item_of blocks) }
    ensures nodes { (facts : FileFacts) (blocks : List FileBlock) → IsWholeFile facts blocks
        → rooted_in (map item_of blocks) ≡ nodes_from 0 0 (map item_of blocks) }
    ensures ends { (facts : FileFacts) (blocks : List FileBlock) → IsWholeFile facts blocks
        → EndsWithRoot (map item_of blocks) }
    ensures chain { (facts : FileFacts) (blocks : List FileBlock) → IsWholeFile facts blocks
        → AreChained None 0 0 (map item_of blocks) }
    ensures within { (facts : FileFacts) (blocks : List FileBlock) → 0 < facts.most
        → IsWholeFile facts blocks → AreWithin facts.most (map item_of blocks) }
    ensures places { (b : FileBlock) → length (block_packet b) ≡ block_len b }
{
    an_index_names_all();
}

/// Law: a whole file holds of each channel what its pieces held, in order and once each: frames and records.
pub fn a_whole_file_keeps_each_channel()
    ensures { (facts : FileFacts) (blocks : List FileBlock) → IsWholeFile facts blocks
        → AreNamedApart facts.channels → (at : ℕ) (c : ChannelLeft)
        → slice_get facts.channels at ≡ Some c
        → held_of c.channel (merged_in blocks) ≡ flat_map held_in c.pieces }
{}

/// Law: a whole file holds nothing of any other channel.
pub fn a_whole_file_has_no_other_channel()
    ensures { (facts : FileFacts) (blocks : List FileBlock) → IsWholeFile facts blocks
        → (channel : ℕ)
        → ((at : ℕ) (c : ChannelLeft) → slice_get facts.channels at ≡ Some c → c.channel ≢ channel)
        → held_of channel (merged_in blocks) ≡ [] }
{}

/// Law: each time packet of a whole file whose counter is at most that of a frame or of a record stands ahead of
/// that.
pub fn times_of_a_whole_file_stand_ahead()
    ensures { (facts : FileFacts) (blocks : List FileBlock) → IsWholeFile facts blocks
        → TimesStandAhead (merged_in blocks) }
{}

/// Law: of a channel whose counters never fall, no time packet of a whole file but the first stands ahead of a
/// frame or of a record whose counter is less than its tick.
pub fn times_of_a_whole_file_stand_late()
    ensures { (facts : FileFacts) (blocks : List FileBlock) → IsWholeFile facts blocks
        → AreNamedApart facts.channels → (at : ℕ) (c : ChannelLeft)
        → slice_get facts.channels at ≡ Some c → IsSteady c.pieces
        → LieBehindFurtherTimes c.channel (merged_in blocks) }
{}

/// Law: the counter of each header of a whole file, and of each of its frames, lies less than a second behind the
/// last time packet ahead of it, and 10 ms more for each origin that begins between them.
pub fn packets_lie_near_their_times()
    ensures { (facts : FileFacts) (blocks : List FileBlock) → IsClock facts.rules → 0 < facts.most
        → IsWholeFile facts blocks → LieNearTheirTimes facts.rules blocks }
{
    counters_lie_near_a_time_point();
}

/// Law: each packet of a whole file has a valid header with its length, and a right data checksum; that of a
/// setup record isn't too long; and the sequence numbers of a channel begin at 0 and rise by one, modulo 256.
pub fn a_whole_file_is_well_formed()
    ensures packets { (facts : FileFacts) (blocks : List FileBlock) → IsWholeFile facts blocks
        → AllByRecursion IsValidPacket blocks }
    ensures setup { (facts : FileFacts) (blocks : List FileBlock) → IsWholeFile facts blocks
        → AllByRecursion (λ (b : FileBlock). kind_of b.content ≡ Setup
        → block_len b ≤ MAX_SETUP_LEN)
        blocks }
    ensures first { (facts : FileFacts) (blocks : List FileBlock) → IsWholeFile facts blocks
        → BeginAtZero blocks }
    ensures further { (facts : FileFacts) (blocks : List FileBlock) → IsWholeFile facts blocks
        → RiseByOne blocks }
{}

/// Law: no header of a whole file lies over a second behind one ahead of it.
pub fn headers_never_lie_far_behind()
    ensures { (facts : FileFacts) (blocks : List FileBlock) → IsWholeFile facts blocks
        → NeverFarBehind 0 blocks }
{}

/// Law: the clock gives the counter of each time packet of a whole file a time that isn't earlier than what
/// the packet tells, and less than 100 ns later.
pub fn times_of_a_whole_file_are_the_clocks()
    ensures { (facts : FileFacts) (blocks : List FileBlock) → IsClock facts.rules
        → IsWholeFile facts blocks → AllByRecursion
        (λ (b : FileBlock). TellsClock facts.rules b.content b.counter) blocks }
{
    time_points_have_the_clocks_time();
}

/// Law: the setup record of a whole file stands first, with the counter of the first time packet, and says its
/// date. Where index packets name two packets or more, the first time packet stands behind it.
pub fn a_whole_file_begins_with_its_setup()
    ensures setup { (facts : FileFacts) (blocks : List FileBlock) → 0 < facts.most
        → IsWholeFile facts blocks → BeginsWithSetup facts blocks }
    ensures time { (facts : FileFacts) (blocks : List FileBlock) → 1 < facts.most
        → IsWholeFile facts blocks → TimeStandsSecond blocks }
{}

/// Law: a reader that ends a name at its first colon, and a value at its first semicolon, finds the attributes
/// of the setup record in its text; and its data sources are the time channel and the channels, each with its
/// number, its type and its names, where a user names none.
#[tactic(auto, unfolding(crate::specs::WholeFile::setup_text))]
pub fn the_setup_of_a_whole_file_is_read_back()
    ensures found { (setup : FileSetup) (time : CivilTime) → IsSetup (setup_at setup time)
        → HoldsAttributes (setup_text setup time) (setup_attributes (setup_at setup time)) }
    ensures sources { (setup : FileSetup) (time : CivilTime)
        → NamesNoSource (given_attributes setup.attributes.now)
        → SaysSources (setup_at setup time) (setup_attributes (setup_at setup time)) }
{
    a_setup_record_is_read_back();
    a_setup_record_names_the_channels();
}

/// Law: of a whole file of less than 2^64 bytes a reader that takes bodies apart finds what they were made of:
/// the text of the setup record, the time of each time packet with its source, and the entries of each node and
/// each root of the index.
pub fn bodies_of_a_whole_file_are_read_back()
    ensures { (facts : FileFacts) (blocks : List FileBlock) → IsWholeFile facts blocks
        → length (file_bytes blocks) < 2 ^ 64
        → AllByRecursion (λ (b : FileBlock). SaysContent b.content) blocks }
{}

/// Law: a header may lie a second behind one ahead of it, in ticks of 100 ns, and a piece a week ahead of all of
/// them; the packet of a setup record has at most 128 MiB.
pub fn the_limits_of_a_file()
    ensures back { MAX_TICKS_BACK ≡ 10_000_000 }
    ensures ahead { MAX_TICKS_AHEAD ≡ 6_048_000_000_000 }
    ensures setup { MAX_SETUP_LEN ≡ 134_217_728 }
{}
