//! Laws of a channel's pieces, which run nothing.

ghost use Rattle.std.specs.Prelude.{ℕ, ◌≡◌, ◌-◌, ◌≤◌, ◌<◌, ◌++◌, ◌∷◌, [], List, length, All, Option, None, Some, false};
ghost use Rattle.std.specs.List.{flat_map};
ghost use Rattle.eth_frame.specs.declared.frame.TheConstants.{MAX_FRAME_LEN, CHECK_SEQUENCE_LEN};
ghost use Rattle.bpf_machine.specs.declared.machine.TheConstants.{MAX_VIEW};
ghost use Rattle.ch11_packet.specs.declared.limit.TheConstants.{MIN_LIMIT};
ghost use Rattle.eth_frame.specs.Frame.{FrameData, IsFrame};
ghost use Rattle.rec_channel.specs.History.{Version, IsHistory};
ghost use Rattle.rec_lane.specs.Offered.{OfferedFrame, AllMet, AreAccepted, frames_of, times_of, time_noted, accepted};
ghost use Rattle.rec_lane.specs.Parts.{BeginsList, parts};
ghost use Rattle.rec_lane.specs.Packets.{packets, AreLongestFronts};
ghost use Rattle.rec_lane.specs.Moments.{Moment, moment_counter, kept_in, stays, is_span_due, open_packet, packets_of, AreLongestParts, with_kept, AreWithinSpan};
ghost use Rattle.rec_lane.specs.Pieces.{LaneSettings, PieceData, channel_of, groups, AreGroups, group_packets, piece_frames, pieces_so_far, channel_pieces, ArePiecesSoFar};
ghost use Rattle.rec_lane.specs.Growth.{GrowsByFew};
ghost use Rattle.rec_lane.specs.Lanes.{MarkedFrom, AreCertain, OffersTakeFrames, TimesTakeTimes, EndsAreEnds};

use bpf_machine::{a_valid_program_returns, runs_once};
use rec_channel::{later_versions_leave_the_past, one_version_is_in_force};

/// Law: the longest view of a frame is the longest that the filter machine takes.
pub fn the_filter_takes_the_longest_view()
    ensures { MAX_FRAME_LEN - CHECK_SEQUENCE_LEN ≡ MAX_VIEW }
{}

/// Law: in a history, frames with time marks after each meet one list of versions, programs and
/// values, and the accepted ones are one list whatever the time marks; and each list of frames has it.
pub fn accepted_frames_are_one_list()
    ensures one { (history : List Version) (offered other : List OfferedFrame)
        → AllMet history offered → AllMet history other → frames_of offered ≡ frames_of other
        → times_of offered ≡ times_of other → offered ≡ other }
    ensures accepted { (history : List Version) (frames kept other : List FrameData)
        → AreAccepted history frames kept → AreAccepted history frames other → kept ≡ other }
    ensures some { (count : ℕ) (history : List Version) (frames : List FrameData)
        (times : List (List ℕ)) → IsHistory count history → length times ≡ length frames
        → (offered : List OfferedFrame) × AllMet history offered × (frames_of offered ≡ frames)
        × (times_of offered ≡ times) }
{
    one_version_is_in_force();
    runs_once();
    a_valid_program_returns();
}

/// Law: the groups of frames are the frames in order, each group is of one version, and neighbours
/// differ in version; no other groups are so.
pub fn groups_are_frames_of_one_version()
    ensures groups { (offered : List OfferedFrame) → AreGroups offered (groups offered) }
    ensures one { (offered : List OfferedFrame) (some other : List (List OfferedFrame))
        → AreGroups offered some → AreGroups offered other → some ≡ other }
{}

/// Law: each packet of accepted frames is the longest beginning of the frames that are left which
/// fits the limit; no other packets are so.
pub fn packets_are_longest_fronts()
    ensures packets { (limit : ℕ) (frames : List FrameData) → MIN_LIMIT ≤ limit
        → All IsFrame frames → AreLongestFronts limit frames (packets limit frames) }
    ensures one { (limit : ℕ) (frames : List FrameData) (some other : List (List FrameData))
        → AreLongestFronts limit frames some → AreLongestFronts limit frames other
        → some ≡ other }
{}

/// Law: moments in parts, each the longest beginning of what is left that is of one packet; those of
/// the parts that have frames are the packets. No other parts are so.
pub fn packets_are_of_longest_parts()
    ensures parts { (limit : ℕ) (span : Option ℕ) (moments : List Moment) → MIN_LIMIT ≤ limit
        → All IsFrame (kept_in moments)
        → AreLongestParts limit span moments (parts (stays limit span) moments) }
    ensures packets { (limit : ℕ) (span : Option ℕ) (moments : List Moment) → MIN_LIMIT ≤ limit
        → All IsFrame (kept_in moments)
        → with_kept (parts (stays limit span) moments) ≡ packets_of limit span moments }
    ensures one { (limit : ℕ) (span : Option ℕ) (moments : List Moment)
        (some other : List (List Moment)) → AreLongestParts limit span moments some
        → AreLongestParts limit span moments other → some ≡ other }
{}

/// Law: without a span a group's packets are those of its accepted frames, whatever time marks came.
pub fn without_a_span_the_limit_alone_makes_packets()
    ensures { (settings : LaneSettings) (group : List OfferedFrame) → settings.span ≡ None
        → group_packets settings group ≡ packets settings.limit (accepted group) }
{}

/// Law: with a span the frames of each packet are less than that after its first one; and where a
/// moment is a span after a frame that was kept before it, the frame is not in the open packet then.
pub fn a_packet_is_of_less_than_a_span()
    ensures frames { (settings : LaneSettings) (group : List OfferedFrame)
        → All (AreWithinSpan settings.span) (group_packets settings group) }
    ensures open { (limit span : ℕ) (moments : List Moment) (m : Moment) → 0 < span
        → is_span_due (Some span) (open_packet limit (Some span) (moments ++ m
        ∷ [])) (moment_counter m)
        ≡ false }
{}

/// Law: versions that are installed after frames leave what the frames met.
pub fn later_versions_leave_the_frames()
    ensures kept { (history more : List Version) (offered : List OfferedFrame)
        → MarkedFrom (length offered) more
        → AllMet history offered → AllMet (history ++ more) offered }
    ensures nothing_else { (history more : List Version) (offered : List OfferedFrame)
        → MarkedFrom (length offered) more
        → AllMet (history ++ more) offered → AllMet history offered }
{
    later_versions_leave_the_past();
}

/// Law: the pieces that are certain after some frames begin all pieces, whatever frames follow and
/// whatever versions are installed later.
pub fn pieces_so_far_begin_all_pieces()
    ensures frames { (settings : LaneSettings) (offered more : List OfferedFrame)
        → BeginsList (pieces_so_far settings offered) (channel_pieces settings (offered ++ more)) }
    ensures history { (settings : LaneSettings) (frames : List FrameData)
        (times : List (List ℕ)) (history : List Version) (so_far : List PieceData)
        → ArePiecesSoFar settings frames times history so_far
        → AreCertain settings frames times history so_far }
{
    one_version_is_in_force();
    runs_once();
    later_versions_leave_the_past();
}

/// Law: a frame makes two pieces certain at most, one of them a packet of frames at most, if the
/// longest frame fits into a packet of its own; and so do a time mark and the channel's end.
pub fn few_pieces_become_certain_at_a_time()
    ensures frame { (settings : LaneSettings) (offered : List OfferedFrame) (f : OfferedFrame)
        → MIN_LIMIT ≤ settings.limit → IsFrame f.frame → f.times ≡ []
        → GrowsByFew (pieces_so_far settings offered) (pieces_so_far settings (offered ++ f ∷ [])) }
    ensures time { (settings : LaneSettings) (offered : List OfferedFrame) (counter : ℕ)
        → GrowsByFew (pieces_so_far settings offered)
        (pieces_so_far settings (time_noted offered counter)) }
    ensures end { (settings : LaneSettings) (offered : List OfferedFrame)
        → GrowsByFew (pieces_so_far settings offered) (channel_pieces settings offered) }
{}

/// Law: the frames in the pieces of a channel, in order, are the accepted frames.
pub fn pieces_hold_the_accepted_frames()
    ensures { (settings : LaneSettings) (offered : List OfferedFrame)
        → flat_map piece_frames (channel_pieces settings offered) ≡ accepted offered }
{}

/// Law: each piece of a channel is of this channel.
pub fn pieces_are_of_their_channel()
    ensures { (settings : LaneSettings) (offered : List OfferedFrame)
        → All (λ (piece : PieceData). channel_of piece ≡ settings.channel)
        (channel_pieces settings offered) }
{}

/// Law: what a lane says of the frames that it has met, it says of frames and a history.
pub(crate) fn a_lane_stands_for_frames_and_a_history()
    ensures takes { OffersTakeFrames }
    ensures times { TimesTakeTimes }
    ensures ends { EndsAreEnds }
{
    one_version_is_in_force();
    runs_once();
    later_versions_leave_the_past();
}
