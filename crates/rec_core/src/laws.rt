//! Laws of runs, which run nothing.

ghost use Rattle.std.specs.Prelude.{ℕ, ◌+◌, ◌≡◌, ◌<◌, ◌≤◌, ◌⊎◌, true, false, List, [], length, All, Some, slice_get};
ghost use Rattle.std.specs.List.{AllZip};
ghost use Rattle.ch11_packet.specs.declared.limit.TheConstants.{MIN_LIMIT};
ghost use Rattle.eth_frame.specs.Frame.{FrameData, IsFrame};
ghost use Rattle.rec_lane.specs.Growth.{GrowsByFew};
ghost use Rattle.rec_lane.specs.Pieces.{PieceData};
ghost use Rattle.rec_writer.specs.Recording.{RecordedChannel, AreOfChannels};
ghost use Rattle.rec_writer.specs.Writers.{HoldsRecording};
ghost use Rattle.rec_core.specs.Buffers.{Move, FlowState, FlowSpec, FlowWorld, FlowStepAt, FlowRun, LeadTo, CanStep, CanOffer, buffers_of, return_places, without_buffers, specs_of_flows, IsUnrefusedRun, is_without_frames, is_of_writer, is_giving_back, IsMoving, IsAnyMoving, IsWorkerMoving, work_left, most_steps};
ghost use Rattle.rec_core.specs.Buffers.Stage.{NeedsBuffer, Asks};
ghost use Rattle.rec_core.specs.Openings.{SpecData, AreSpecs, HaveFilters};
ghost use Rattle.rec_core.specs.Ties.{IsOfSpec, IsRunOfWorld};
ghost use Rattle.rec_core.specs.World.{ChannelState, WorldState, ChannelDoes, IsInOrder, produced};
ghost use Rattle.rec_core.specs.World.EventData.{OfTake, OfClose};
ghost use Rattle.rec_core.specs.declared.reply.Reply.TheVariants.{Took, Closed as HasClosed};
ghost use Rattle.rec_core.specs.Worlds.{CoreState, StandsForWorld, StandsCutAt};
ghost use Rattle.rec_core.specs.Written.{RunsFromOpening, WritesInOrder, WritesAll, AreEnded, recorded_channels, IsCutShort, IsCutShortAt};

use bpf_machine::a_valid_program_returns;
use ch11_packet::packets_have_their_lengths;
use rec_lane::{
    few_pieces_become_certain_at_a_time, later_versions_leave_the_frames,
    pieces_are_of_their_channel, pieces_so_far_begin_all_pieces,
};
use rec_writer::what_a_writer_put_is_a_recording;

/// Law: whatever the events and the answers, each channel's history is one and its frames met it,
/// and what is written of the channel begins its pieces; where it is closed and all that it
/// produced is written, all its pieces are written.
pub fn a_run_writes_each_channel_in_order()
    ensures channels { (ring : ℕ) (specs : List SpecData) (new : WorldState)
        → RunsFromOpening ring specs new → All IsInOrder new.channels }
    ensures in_order { (ring : ℕ) (specs : List SpecData) (new : WorldState)
        → RunsFromOpening ring specs new → All (WritesInOrder new) new.channels }
    ensures whole { (ring : ℕ) (specs : List SpecData) (new : WorldState)
        → RunsFromOpening ring specs new → All (WritesAll new) new.channels }
{
    later_versions_leave_the_frames();
    pieces_are_of_their_channel();
    pieces_so_far_begin_all_pieces();
}

/// Law: whatever the events and the answers, where each channel is closed and all that it produced
/// is written, the pieces that were written are those of the channels.
pub fn a_run_that_ended_is_a_recording()
    ensures { (ring : ℕ) (specs : List SpecData) (new : WorldState)
        → RunsFromOpening ring specs new → AreEnded new
        → AreOfChannels (recorded_channels new) new.out }
{
    later_versions_leave_the_frames();
    pieces_are_of_their_channel();
    pieces_so_far_begin_all_pieces();
}

/// Law: so a core that stands for such a world has, since its output held some bytes, written a
/// recording of its channels.
pub fn an_ended_world_holds_its_recording()
    ensures { (ring : ℕ) (specs : List SpecData) (before : List ℕ) (core : CoreState)
        (new : WorldState) → RunsFromOpening ring specs new → AreEnded new
        → StandsForWorld ring (Some before) core new
        → HoldsRecording before core.writer (recorded_channels new) }
{
    a_run_that_ended_is_a_recording();
    what_a_writer_put_is_a_recording();
}

/// Law: the other way round, a recording is a run. Where rings have room for a piece, these events,
/// done from the opening world, have no refusal: the takes and installs of each channel in the order
/// of the marks, then each channel's close, then a send and a write of each piece in its order. They
/// end with each channel closed and exactly these pieces written.
pub fn a_recording_is_a_run()
    ensures { (ring : ℕ) (specs : List SpecData) (channels : List RecordedChannel)
        (pieces : List PieceData) → 0 < ring → AreSpecs specs → AllZip IsOfSpec specs channels
        → AreOfChannels channels pieces → IsRunOfWorld ring specs channels pieces }
{
    packets_have_their_lengths();
}

/// Law: where the output of a core failed, it took the packets of the written pieces, and then the
/// beginning of one further packet, and not all of it: that of the piece that stands first in the
/// ring of the channel whose write was the first to fail.
pub fn a_failed_output_is_cut_in_one_piece()
    ensures cut { (ring : ℕ) (before : List ℕ) (core : CoreState) (world : WorldState)
        → StandsForWorld ring (Some before) core world → core.writer.failed ≡ true
        → IsCutShort before core.writer world }
    ensures channel { (ring : ℕ) (before : List ℕ) (core : CoreState) (world : WorldState)
        (channel : ℕ) → StandsCutAt ring (Some before) core world channel
        → IsCutShortAt before core.writer world channel }
{}

/// Law: no channel of the model stands still. In every state that steps lead to, a channel is closed
/// and all its pieces are written, or its source is asked or has just answered, or the recorder can do
/// a step of it, or the writer can give back the buffer in its hand. So all is ended, or some step can
/// be done, or some worker is at its source.
pub fn no_channel_stands_still()
    ensures each { (ring spare : ℕ) (specs : List FlowSpec) (moves : List Move) (new : FlowWorld)
        → 0 < ring → LeadTo ring spare specs moves new
        → (at : ℕ) (f : FlowState) → slice_get new.flows at ≡ Some f
        → IsMoving ring (return_places ring spare) new at f }
    ensures some { (ring spare : ℕ) (specs : List FlowSpec) (moves : List Move) (new : FlowWorld)
        → 0 < ring → LeadTo ring spare specs moves new
        → IsAnyMoving ring (return_places ring spare) new }
{
    packets_have_their_lengths();
    few_pieces_become_certain_at_a_time();
}

/// Law: no buffer of a channel is lost or doubled. Those in its lane, in its packets that wait and in
/// its ring, in the writer's hand and in its return ring are as many at each step. So the return ring
/// has a place for each one that comes back. With two to spare a worker never waits for one.
pub fn buffers_are_neither_lost_nor_doubled()
    ensures count { (ring spare : ℕ) (specs : List FlowSpec) (moves : List Move) (new : FlowWorld)
        → LeadTo ring spare specs moves new
        → All (λ (f : FlowState). buffers_of f ≡ return_places ring spare) new.flows }
    ensures room { (ring spare : ℕ) (specs : List FlowSpec) (moves : List Move) (new : FlowWorld)
        → LeadTo ring spare specs moves new
        → All (λ (f : FlowState). f.returned + f.hand ≤ ring + spare) new.flows }
    ensures back { (ring spare : ℕ) (specs : List FlowSpec) (moves : List Move) (new : FlowWorld)
        → LeadTo ring spare specs moves new
        → (at : ℕ) (f : FlowState) → slice_get new.flows at ≡ Some f → f.hand ≡ 1
        → CanStep ring (return_places ring spare) new at is_giving_back }
    ensures ready { (ring spare : ℕ) (specs : List FlowSpec) (moves : List Move) (new : FlowWorld)
        → 2 ≤ spare → LeadTo ring spare specs moves new
        → All (λ (f : FlowState). f.stage ≡ NeedsBuffer → f.held ≡ 1 → 0 < f.returned) new.flows }
{}

/// Law: every list of steps ends. A number falls with each step, so no list of steps from the start is
/// longer than 10 for each frame, 9 for each channel, and the filters that can be installed. Where each
/// source that is asked says that it has ended, some step can be done until all is ended.
pub fn a_recorder_comes_to_its_end()
    ensures falls { (ring spare : ℕ) (specs : List FlowSpec) (moves : List Move) (old : FlowWorld)
        → LeadTo ring spare specs moves old
        → (at : ℕ) (move : Move) (new : FlowWorld)
        → FlowStepAt ring (return_places ring spare) old at move new
        → work_left new < work_left old }
    ensures few { (ring spare : ℕ) (specs : List FlowSpec) (moves : List Move) (new : FlowWorld)
        → LeadTo ring spare specs moves new → length moves + work_left new ≤ most_steps specs }
    ensures end { (ring spare : ℕ) (specs : List FlowSpec) (moves : List Move) (new : FlowWorld)
        → 0 < ring → LeadTo ring spare specs moves new
        → AreEnded (without_buffers new)
        ⊎ ((at : ℕ) × CanStep ring (return_places ring spare) new at is_without_frames) }
{
    packets_have_their_lengths();
    few_pieces_become_certain_at_a_time();
}

/// Law: nor does a worker stand still where the output failed, and the writer neither writes nor gives
/// a buffer back. It is at its end, or looks at the stop word, or its source is asked or has just
/// answered, or it can do a step; and it does only as many as were left.
pub fn no_worker_waits_for_a_failed_output()
    ensures each { (ring spare : ℕ) (specs : List FlowSpec) (moves : List Move) (new : FlowWorld)
        → LeadTo ring spare specs moves new
        → (at : ℕ) (f : FlowState) → slice_get new.flows at ≡ Some f
        → IsWorkerMoving ring (return_places ring spare) new at f }
    ensures few { (ring spare : ℕ) (specs : List FlowSpec) (moves : List Move) (old : FlowWorld)
        → LeadTo ring spare specs moves old → (later : List Move) (new : FlowWorld)
        → FlowRun ring (return_places ring spare) old later new
        → All (λ (move : Move). is_of_writer move ≡ false) later
        → length later + work_left new ≤ work_left old }
{}

/// Law: a source that is asked may answer with any frame that is one: it can be offered, wherever
/// steps lead from channels with filters, if the longest frame fits into a packet of its own.
pub fn any_frame_can_be_offered()
    ensures { (ring spare : ℕ) (specs : List FlowSpec) (moves : List Move) (new : FlowWorld)
        → AreSpecs (specs_of_flows specs) → HaveFilters (specs_of_flows specs)
        → LeadTo ring spare specs moves new
        → (at : ℕ) (f : FlowState) (frame : FrameData) → slice_get new.flows at ≡ Some f
        → f.stage ≡ Asks → 0 < f.left → MIN_LIMIT ≤ f.channel.settings.limit → IsFrame frame
        → CanOffer ring (return_places ring spare) new at f frame }
{
    a_valid_program_returns();
    a_run_writes_each_channel_in_order();
    few_pieces_become_certain_at_a_time();
}

/// Law: the buffers refuse no frame and no end. Whatever frame is taken, if the longest frame fits into
/// a packet of its own, and whenever a channel is closed, the pieces that become certain are few.
pub fn buffers_refuse_no_frame()
    ensures take { (ring channel number version value : ℕ) (c d : ChannelState) (frame : FrameData)
        → MIN_LIMIT ≤ c.settings.limit → IsFrame frame
        → ChannelDoes ring c (OfTake channel frame) (Took number version value) d []
        → GrowsByFew (produced c) (produced d) }
    ensures close { (ring channel offered kept : ℕ) (c d : ChannelState)
        → ChannelDoes ring c (OfClose channel) (HasClosed offered kept) d []
        → GrowsByFew (produced c) (produced d) }
{
    few_pieces_become_certain_at_a_time();
}

/// Law: with the buffers forgotten, the steps are a run of the core's world in which nothing is
/// refused.
pub fn steps_with_buffers_are_a_run()
    ensures { (ring spare : ℕ) (specs : List FlowSpec) (moves : List Move) (new : FlowWorld)
        → LeadTo ring spare specs moves new
        → IsUnrefusedRun ring (specs_of_flows specs) (without_buffers new) }
{}
