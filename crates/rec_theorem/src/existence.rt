//! Laws that there is what the other laws speak of.

ghost use Rattle.std.specs.Prelude.{ℕ, ◌≡◌, ◌^◌, ◌<◌, ◌≤◌, ◌∷◌, [], List, length, All, AllPairs};
ghost use Rattle.bpf_insn.specs.declared.insn.Insn.{Insn};
ghost use Rattle.eth_frame.specs.Frame.{FrameData, IsFrame};
ghost use Rattle.rec_channel.specs.History.{Version};
ghost use Rattle.rec_channel.specs.declared.limits.TheConstants.{MAX_VERSIONS};
ghost use Rattle.rec_lane.specs.Pieces.{LaneSettings};
ghost use Rattle.rec_writer.specs.Numbers.{AreDistinctChannels};
ghost use Rattle.rec_writer.specs.Recording.{RecordedChannel, IsRecording};
ghost use Rattle.rec_core.specs.Openings.{AreSpecs, IsFilter};
ghost use Rattle.rec_core.specs.Ties.{IsTimedBySpan};
ghost use Rattle.rec_core.specs.World.{WorldState};
ghost use Rattle.rec_core.specs.Written.{RunsFromOpening, AreEnded, recorded_channels};
ghost use Rattle.rec_run.specs.Jobs.{AreLaneSettings};
ghost use Rattle.rec_theorem.specs.Events.{IsEvent};
ghost use Rattle.rec_theorem.specs.Existence.{channel_ids, specs_of};
ghost use Rattle.rec_theorem.specs.Recordable.{IsRecordable, AreRecordable};

use rec_core::a_recording_is_a_run;
use rec_lane::{accepted_frames_are_one_list, pieces_are_of_their_channel};

/// Law: channels that can be recorded have a recording, if no two have one ID; and events lead a
/// core to a world in which these are the channels, with their frames, time marks and versions, each
/// closed and all its pieces written. A channel with settings in range can be recorded, with any
/// frames, any filter from the first frame on, and any filters after it whose marks never fall and are
/// at most the number of frames. There are such filters: each program of one instruction `RET #k`,
/// which accepts every frame, or none for 0.
pub fn there_are_recordings()
    ensures recording { (version : ℕ) (channels : List RecordedChannel) → AreRecordable channels
        → AreDistinctChannels (channel_ids channels)
        → (bytes : List ℕ) × IsRecording version channels bytes }
    ensures channel { (settings : LaneSettings) (frames : List FrameData) (times : List (List ℕ))
        (first : List Insn) (later : List Version) → AreLaneSettings settings → All IsFrame frames
        → length frames < 2 ^ 64 → length times ≡ length frames → IsFilter first
        → All (λ (v : Version). IsFilter v.program) later
        → AllPairs (λ (v w : Version). v.mark ≤ w.mark) later
        → All (λ (v : Version). v.mark ≤ length frames) later → length later < MAX_VERSIONS
        → IsRecordable (record {
          settings = settings;
          frames = frames;
          times = times;
          history = record { program = first; mark = 0 } ∷ later;
        }) }
    ensures program { (k : ℕ) → k < 2 ^ 32
        → IsFilter (record { code = 6; jt = 0; jf = 0; k = k } ∷ []) }
    ensures world { (ring : ℕ) (channels : List RecordedChannel) → 0 < ring
        → AreRecordable channels → All IsTimedBySpan channels
        → AreSpecs (specs_of channels)
        → (new : WorldState) × (run : RunsFromOpening ring (specs_of channels) new)
        × All IsEvent run.0 × AreEnded new × (recorded_channels new ≡ channels) }
{
    accepted_frames_are_one_list();
    pieces_are_of_their_channel();
    a_recording_is_a_run();
}
