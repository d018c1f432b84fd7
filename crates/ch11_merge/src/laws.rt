//! Laws of pieces and of their order, with nothing to run.

ghost use Rattle.std.specs.Prelude.{ℕ, ◌≡◌, ◌≢◌, ◌≤◌, List, [], Some, map, slice_get};
ghost use Rattle.std.specs.List.{AllByRecursion, flat_map};
ghost use Rattle.ch11_packet.specs.FramesRead.{ReadFrameData};
ghost use Rattle.ch11_merge.specs.Pieces.{AreCut};
ghost use Rattle.ch11_merge.specs.Short.{IsShortPiece};
ghost use Rattle.ch11_merge.specs.Parts.{frames_of_piece, frames_pieces};
ghost use Rattle.ch11_merge.specs.Merging.{ChannelLeft, Merged, Merges};
ghost use Rattle.ch11_merge.specs.Kept.{AreNamedApart, IsSteady, LieBehindTimes};
ghost use Rattle.ch11_merge.specs.Kept.{TimesStandAhead, held_in, held_of};

/// Law: all frames can be cut into pieces.
pub fn frames_have_pieces()
    ensures { (frames : List ReadFrameData)
        → (pieces : List (List ReadFrameData)) × AreCut frames pieces }
{}

/// Law: frames can be cut into pieces in one way only.
pub fn frames_are_cut_in_one_way()
    ensures { (frames : List ReadFrameData) (pieces others : List (List ReadFrameData))
        → AreCut frames pieces → AreCut frames others → others ≡ pieces }
{}

/// Law: the frames of a piece never fall, lie within 100 ms of the first, and fit a packet.
pub fn pieces_are_short()
    ensures { (frames : List ReadFrameData) (pieces : List (List ReadFrameData))
        → AreCut frames pieces → AllByRecursion IsShortPiece pieces }
{}

/// Law: the pieces of a packet's frames are those into which they are cut.
pub fn pieces_of_frames_are_the_cut()
    ensures { (place : ℕ) (frames : List ReadFrameData)
        → AreCut frames (map frames_of_piece (frames_pieces place frames)) }
{}

/// Law: a merge holds of each channel what its pieces held, in order and once each: frames and records.
pub fn a_merge_keeps_each_channel()
    ensures { (after : ℕ → ℕ) (tick : ℕ) (channels : List ChannelLeft) (out : List Merged)
        → AreNamedApart channels → Merges after tick channels out
        → (at : ℕ) (c : ChannelLeft) → slice_get channels at ≡ Some c
        → held_of c.channel out ≡ flat_map held_in c.pieces }
{}

/// Law: a merge holds nothing of any other channel.
pub fn a_merge_has_no_other_channel()
    ensures { (after : ℕ → ℕ) (tick : ℕ) (channels : List ChannelLeft) (out : List Merged)
        (channel : ℕ)
        → ((at : ℕ) (c : ChannelLeft) → slice_get channels at ≡ Some c → c.channel ≢ channel)
        → Merges after tick channels out → held_of channel out ≡ [] }
{}

/// Law: where the ticks of time packets never fall, each time packet whose tick is at most the counter of a
/// frame or of a record stands ahead of that.
pub fn time_packets_stand_ahead()
    ensures { (after : ℕ → ℕ) (tick : ℕ) (channels : List ChannelLeft) (out : List Merged)
        → ((time : ℕ) → time ≤ after time) → Merges after tick channels out → TimesStandAhead out }
{}

/// Law: of a channel whose counters never fall, no time packet of a merge stands ahead of a frame or of a record
/// whose counter is less than its tick.
pub fn time_packets_stand_late()
    ensures { (after : ℕ → ℕ) (tick : ℕ) (channels : List ChannelLeft) (out : List Merged)
        → AreNamedApart channels → Merges after tick channels out → (at : ℕ) (c : ChannelLeft)
        → slice_get channels at ≡ Some c → IsSteady c.pieces → LieBehindTimes c.channel out }
{}
