//! Laws of how a recording is read that was cut.

ghost use Rattle.std.specs.Prelude.{ℕ, ◌^◌, ◌<◌, ◌++◌, List};
ghost use Rattle.rec_writer.specs.Recording.{RecordedChannel, IsRecording};
ghost use Rattle.rec_theorem.specs.Recordable.{AreRecordable};
ghost use Rattle.rec_theorem.specs.Found.{ReadsBackCut};
ghost use Rattle.rec_theorem.specs.Cut.{IsCutRecording};

use crate::reading::a_recording_is_read_back;
use rec_reader::bytes_have_one_reading;

/// Law: a recording that was cut anywhere is read as whole packets, and then ends or is truncated;
/// the frames that are read of each channel are the first of those that its filter accepted. It may
/// have been cut after it was whole, or because the output failed.
pub fn a_cut_recording_is_read_back()
    ensures front { (version : ℕ) (channels : List RecordedChannel) (front rest : List ℕ)
        → version < 2 ^ 8 → AreRecordable channels → IsRecording version channels (front ++ rest)
        → ReadsBackCut channels front }
    ensures failed { (version : ℕ) (channels : List RecordedChannel) (bytes : List ℕ)
        → version < 2 ^ 8 → AreRecordable channels → IsCutRecording version channels bytes
        → ReadsBackCut channels bytes }
{
    bytes_have_one_reading();
    a_recording_is_read_back();
}
