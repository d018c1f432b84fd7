//! Laws of streams, with nothing to run.

ghost use Rattle.std.specs.Prelude.{ℕ, ◌≡◌, ◌≢◌, ◌++◌, [], List, Option, None, IfSome, ℤ};
ghost use Rattle.std.specs.List.{AllByRecursion};
ghost use Rattle.ch11_clock.specs.Clock.{IsClock};
ghost use Rattle.ch11_merge.specs.Kept.{held_of};
ghost use Rattle.ch11_file.specs.FileBlocks.{FileBlock, file_bytes, merged_in};
ghost use Rattle.ch11_file.specs.FileTimes.{IsFirstTime};
ghost use Rattle.ch11_file.specs.WholeFile.{AreNumbered};
ghost use Rattle.ch11_file.specs.FilesRead.{IsValidPacket, TellsClock};
ghost use Rattle.rec_reader.specs.Packets.{PacketData};
ghost use Rattle.rec_reader.specs.declared.fault.ReadFaultKind.{ReadFaultKind};
ghost use Rattle.rec_reader.specs.Reading.{Reads};
ghost use Rattle.rec_reader.specs.ChannelFrames.{channel_frames};
ghost use Rattle.rec_whole.specs.WholeFrames.{file_frames, held_in_packets};
ghost use Rattle.rec_pieces.specs.Listings.{counters_of};
ghost use Rattle.rec_stream.specs.LatePieces.{LiesASecondBackAtMost, NeverFarBack};
ghost use Rattle.rec_stream.specs.StreamBlocks.{StreamFacts, StreamState};
ghost use Rattle.rec_stream.specs.Streams.{StreamStage, AreStream, first_least, late_behind};
ghost use Rattle.rec_stream.specs.Streams.StreamStage.{Begun};
ghost use Rattle.rec_stream.specs.StreamsRead.{HasSetupText, with_counters, without_counters};

use rec_pieces::pieces_hold_the_frames_of_a_channel;
use rec_reader::bytes_have_one_reading;

/// Law: what goes out for the first packets of a recording begins what goes out for all of them. So packets have one
/// stream.
pub fn a_stream_grows_with_its_recording()
    ensures { (facts : StreamFacts) (packets more : List PacketData)
        (blocks others : List FileBlock)
        (stage last : StreamStage) → IsClock facts.rules → AreStream facts packets blocks stage
        → AreStream facts (packets ++ more) others last → AreNumbered [] blocks
        → AreNumbered [] others
        → (rest : List FileBlock) × (others ≡ blocks ++ rest) }
{}

/// Law: a stream has of each channel the frames of its recording, in order and once each; and the same of all that has
/// a counter, frames, programs and ends beside each other. Of a stream that has begun it is so of the ends without one
/// too, which may have waited.
pub fn a_stream_keeps_each_channel()
    ensures frames { (facts : StreamFacts) (packets : List PacketData) (blocks : List FileBlock)
        (stage : StreamStage)
        → AreStream facts packets blocks stage → (channel : ℕ) → channel ≢ 0
        → file_frames channel blocks ≡ channel_frames channel packets }
    ensures counted { (facts : StreamFacts) (packets : List PacketData) (blocks : List FileBlock)
        (stage : StreamStage)
        → AreStream facts packets blocks stage → (channel : ℕ)
        → with_counters (held_of channel (merged_in blocks)) ≡ with_counters
        (held_in_packets channel packets) }
    ensures uncounted { (facts : StreamFacts) (packets : List PacketData) (blocks : List FileBlock)
        (state : StreamState)
        → AreStream facts packets blocks (Begun state) → (channel : ℕ)
        → without_counters (held_of channel (merged_in blocks)) ≡ without_counters
        (held_in_packets channel packets) }
{
    pieces_hold_the_frames_of_a_channel();
}

/// Law: the bytes of a stream are read to their end, and in no other way; and what is read has of each channel the frames
/// of the recording, in order and once each.
pub fn a_stream_is_read_back()
    ensures read { (recording : List ℕ) (facts : StreamFacts) (packets : List PacketData)
        (blocks : List FileBlock)
        (stage : StreamStage) → Reads recording packets None → AreStream facts packets blocks stage
        → (found : List PacketData) × Reads (file_bytes blocks) found None }
    ensures frames { (recording : List ℕ) (facts : StreamFacts) (packets : List PacketData)
        (blocks : List FileBlock)
        (stage : StreamStage) → Reads recording packets None → AreStream facts packets blocks stage
        → (found : List PacketData) (fault : Option ReadFaultKind)
        → Reads (file_bytes blocks) found fault
        → (fault ≡ None) × ((channel : ℕ) → channel ≢ 0
        → channel_frames channel found ≡ channel_frames channel packets) }
{
    a_stream_keeps_each_channel();
    pieces_hold_the_frames_of_a_channel();
    bytes_have_one_reading();
}

/// Law: no piece of a stream is late where no counter of its recording is over a second less than one ahead of it, or
/// than that of the first time packet.
pub fn no_piece_of_a_steady_stream_is_late()
    ensures { (facts : StreamFacts) (packets : List PacketData) (blocks : List FileBlock)
        (stage : StreamStage)
        → AreStream facts packets blocks stage → NeverFarBack (counters_of packets)
        → IfSome (first_least packets) (λ (least : ℕ). (moment : ℤ) (tick : ℕ)
        → IsFirstTime least facts.rules moment tick
        → AllByRecursion (LiesASecondBackAtMost tick) (counters_of packets))
        → late_behind 0 blocks ≡ 0 }
{}

/// Law: each packet of a stream has a valid header with its length, and a right data checksum.
pub fn a_stream_is_well_formed()
    ensures { (facts : StreamFacts) (packets : List PacketData) (blocks : List FileBlock)
        (stage : StreamStage)
        → AreStream facts packets blocks stage → AllByRecursion IsValidPacket blocks }
{}

/// Law: the clock gives the counter of each time packet of a stream a time that isn't earlier than what the packet tells,
/// and less than 100 ns later.
pub fn times_of_a_stream_are_the_clocks()
    ensures { (facts : StreamFacts) (packets : List PacketData) (blocks : List FileBlock)
        (stage : StreamStage)
        → IsClock facts.rules → AreStream facts packets blocks stage
        → AllByRecursion (λ (b : FileBlock). TellsClock facts.rules b.content b.counter) blocks }
{}

/// Law: each setup record of a stream has the text of its setup, of some date. By the laws of `ch11_file` a reader finds
/// exactly its channels there.
pub fn setup_records_of_a_stream_say_its_channels()
    ensures { (facts : StreamFacts) (packets : List PacketData) (blocks : List FileBlock)
        (stage : StreamStage)
        → AreStream facts packets blocks stage
        → AllByRecursion (λ (b : FileBlock). HasSetupText facts.setup b.content) blocks }
{}
