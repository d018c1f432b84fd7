//! Laws of what is written, which run nothing.

ghost use Rattle.std.specs.Prelude.{ℕ, ◌≡◌, ◌↔◌, List, [], ◌∷◌, ◌++◌, Some};
ghost use Rattle.rec_channel.specs.History.{Version};
ghost use Rattle.rec_channel.specs.declared.limits.TheConstants.{MAX_CHANNELS};
ghost use Rattle.rec_lane.specs.Pieces.{LaneSettings, PieceData};
ghost use Rattle.rec_lane.specs.Pieces.PieceData.{OfEnd};
ghost use Rattle.rec_writer.specs.Encoding.{piece_packet, writer_output, output_after};
ghost use Rattle.rec_writer.specs.Recording.{RecordedChannel, AreOfChannels, IsRecording, IsOutputOf};
ghost use Rattle.rec_writer.specs.Writers.{WriterState, HasWritten, HoldsRecording};

use rec_lane::pieces_are_of_their_channel;

/// Law: the greatest number of channels, as a number.
pub fn a_recording_has_at_most_64_channels()
    ensures { MAX_CHANNELS ≡ 64 }
{}

/// Law: what is written of pieces begins what is written of them and later ones, whose sequence
/// numbers go on from theirs.
pub fn later_pieces_are_written_after_the_others()
    ensures { (version : ℕ) (pieces later : List PieceData)
        → writer_output version (pieces ++ later)
        ≡ writer_output version pieces ++ output_after version pieces later }
{}

/// Law: what a writer put, since its output held some bytes, is a recording of the channels whose
/// pieces it put.
pub fn what_a_writer_put_is_a_recording()
    ensures { (writer : WriterState) (before : List ℕ) (pieces : List PieceData)
        (channels : List RecordedChannel) → HasWritten (Some before) pieces [] writer
        → AreOfChannels channels pieces → HoldsRecording before writer channels }
{}

/// Law: a recording of one channel is what is written of its pieces, and nothing else.
pub fn a_recording_of_one_channel_is_of_its_pieces()
    ensures recording { (version : ℕ) (channel : RecordedChannel) (bytes : List ℕ)
        → IsOutputOf version channel bytes → IsRecording version (channel ∷ []) bytes }
    ensures nothing_else { (version : ℕ) (channel : RecordedChannel) (bytes : List ℕ)
        → IsRecording version (channel ∷ []) bytes → IsOutputOf version channel bytes }
{
    pieces_are_of_their_channel();
}

/// Law: the recording of a channel to which no frame was offered is the packet of its end.
pub fn a_channel_of_no_frames_is_recorded_as_its_end()
    ensures { (version : ℕ) (settings : LaneSettings) (history : List Version) (bytes : List ℕ)
        → IsRecording version
        (record { settings = settings; frames = []; times = []; history = history } ∷ []) bytes
        ↔ (bytes ≡ piece_packet (OfEnd settings.channel 0 0 0) version 0) }
{
    pieces_are_of_their_channel();
}
