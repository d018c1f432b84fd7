//! Laws of recordings that are joined, with nothing to run.

ghost use Rattle.std.specs.Prelude.{ℕ, ◌≡◌, ◌<◌, ◌^◌, List, [], ◌∷◌, None, map};
ghost use Rattle.ch11_clock.specs.Clock.{clock_time};
ghost use Rattle.ch11_moved.specs.MovedCounters.{LieWithin50};
ghost use Rattle.rec_reader.specs.ChannelFrames.{channel_frames};
ghost use Rattle.rec_reader.specs.Packets.{PacketData};
ghost use Rattle.rec_reader.specs.Reading.{Reads};
ghost use Rattle.rec_pieces.specs.ToldPackets.{AreListedAs};
ghost use Rattle.rec_joined.specs.declared.joined.Part.{Part};
ghost use Rattle.rec_joined.specs.declared.moves.Moves.{Moves};
ghost use Rattle.rec_joined.specs.Moving.{Moving, moving_of};
ghost use Rattle.rec_joined.specs.MovedFrames.{moved_frame};
ghost use Rattle.rec_joined.specs.JoinedFrames.{HasOwnId, frames_for, frames_of_parts};
ghost use Rattle.rec_joined.specs.JoinedPackets.{AreParts, KeepRecords, joined_packets, joined_told};

use ch11_moved::moved_counters_keep_their_times;
use rec_pieces::PacketsAt;

/// Law: the packets of recordings that are joined, none of which follows another, are those of one recording. So what
/// holds of the whole file of a recording holds of theirs.
pub fn joined_recordings_are_a_recording<P: PacketsAt>()
    ensures { (parts : List (Part P)) (read : List (List PacketData))
        → AreParts P.there 0 parts read
        → KeepRecords parts → (bytes : List ℕ) × Reads bytes (joined_packets parts read) None }
{}

/// Law: they are listed as they are written, but for an end that was offered no frame: whatever those before it were
/// offered, it is listed as one. What is written has the same frames.
pub fn joined_recordings_are_listed_as_they_tell<P: PacketsAt>()
    ensures listed { (parts : List (Part P)) (read : List (List PacketData))
        → AreParts P.there 0 parts read
        → AreListedAs (joined_told parts read) (joined_packets parts read) }
    ensures frames { (parts : List (Part P)) (read : List (List PacketData))
        → AreParts P.there 0 parts read
        → (id : ℕ) → channel_frames id (joined_told parts read) ≡ frames_of_parts id parts read }
{}

/// Law: of each channel ID they have the frames of the channels that get it, recording by recording, in order and
/// once each, with their counters in the file and else as they were.
pub fn joined_recordings_keep_each_channel<P: PacketsAt>()
    ensures { (parts : List (Part P)) (read : List (List PacketData))
        → AreParts P.there 0 parts read
        → (id : ℕ) → channel_frames id (joined_packets parts read) ≡ frames_of_parts id parts read }
{}

/// Law: where no two channels of a recording get one ID, the frames with an ID are those of the channel that gets it.
pub fn an_id_has_the_frames_of_its_channel()
    ensures { (moving : Moving) (channel id : ℕ) (packets : List PacketData)
        → HasOwnId moving channel id
        → frames_for moving id packets
        ≡ map (moved_frame moving.counters) (channel_frames channel packets) }
{}

/// Law: the time of a frame by the clock of the file lies within 50 ns of its time by the clock of its recording.
pub fn joined_frames_keep_their_times()
    ensures { (moves : Moves) (counter : ℕ) → (moving_of moves).counters counter < 2 ^ 48
        → LieWithin50 (clock_time moves.clock counter)
        (clock_time (moves.start ∷ []) ((moving_of moves).counters counter)) }
{
    moved_counters_keep_their_times();
}
