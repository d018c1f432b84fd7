//! Laws of how a recording is read back.

ghost use Rattle.std.specs.Prelude.{ℕ, ◌^◌, ◌<◌, List};
ghost use Rattle.rec_writer.specs.Recording.{RecordedChannel, IsRecording};
ghost use Rattle.rec_theorem.specs.Recordable.{AreRecordable};
ghost use Rattle.rec_theorem.specs.Found.{ReadsBack};

use rec_reader::bytes_have_one_reading;

/// Law: the bytes of a recording are read to their end without a fault; the frames that are read of
/// each channel are, in order and once each, exactly those that the program in force accepted, each
/// with its counter, its marks, its bytes, the channel's network identifier and speed, and content
/// 0; and the audit answers no fault, unless memory ran out.
pub fn a_recording_is_read_back()
    ensures { (version : ℕ) (channels : List RecordedChannel) (bytes : List ℕ) → version < 2 ^ 8
        → AreRecordable channels → IsRecording version channels bytes → ReadsBack channels bytes }
{
    bytes_have_one_reading();
}
