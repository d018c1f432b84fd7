//! Laws of how what a core wrote is read back, whatever its events were.

ghost use Rattle.std.specs.Prelude.{ℕ, ◌^◌, ◌<◌, List, All, Some};
ghost use Rattle.rec_core.specs.Openings.{SpecData};
ghost use Rattle.rec_core.specs.World.{WorldState};
ghost use Rattle.rec_core.specs.Worlds.{CoreState, StandsForWorld};
ghost use Rattle.rec_core.specs.Written.{RunsFromOpening, AreEnded, recorded_channels};
ghost use Rattle.rec_theorem.specs.Events.{IsSpec, IsEvent, HoldsReadable, HoldsReadableCut};

use crate::cut::a_cut_recording_is_read_back;
use crate::reading::a_recording_is_read_back;
use rec_core::{
    a_failed_output_is_cut_in_one_piece, a_run_writes_each_channel_in_order,
    an_ended_world_holds_its_recording,
};
use rec_lane::{
    later_versions_leave_the_frames, pieces_are_of_their_channel, pieces_so_far_begin_all_pieces,
};

/// Law: whatever events were done to a core, where each channel is closed and all that it produced
/// is written, the bytes that the output took are read back: of each channel, in order and once
/// each, exactly the frames taken that the program in force accepted. And after any events, also
/// where the output failed at any byte, its bytes are read back as beginnings of that.
pub fn every_interleaving_is_read_back()
    ensures ended { (ring : ℕ) (specs : List SpecData) (before : List ℕ) (core : CoreState)
        (new : WorldState) (run : RunsFromOpening ring specs new) → All IsSpec specs
        → All IsEvent run.0 → AreEnded new → StandsForWorld ring (Some before) core new
        → core.writer.version < 2 ^ 8
        → HoldsReadable before core.writer (recorded_channels new) }
    ensures always { (ring : ℕ) (specs : List SpecData) (before : List ℕ) (core : CoreState)
        (new : WorldState) (run : RunsFromOpening ring specs new) → All IsSpec specs
        → All IsEvent run.0 → StandsForWorld ring (Some before) core new
        → core.writer.version < 2 ^ 8
        → HoldsReadableCut before core.writer (recorded_channels new) }
{
    a_recording_is_read_back();
    a_cut_recording_is_read_back();
    a_run_writes_each_channel_in_order();
    an_ended_world_holds_its_recording();
    a_failed_output_is_cut_in_one_piece();
    later_versions_leave_the_frames();
    pieces_are_of_their_channel();
    pieces_so_far_begin_all_pieces();
}
