//! The recorder theorem of a whole file.

ghost use Rattle.std.specs.Prelude.{ℕ, List};
ghost use Rattle.ch11_clock.specs.declared.origin.Origin.{Origin};
ghost use Rattle.ch11_file.specs.declared.counts.FileCounts.{FileCounts};
ghost use Rattle.rec_run.specs.declared.job.Job.{Job};
ghost use Rattle.rec_run.specs.declared.report.Done.{Done};
ghost use Rattle.rec_theorem.specs.Theorem.{HasRecorded, Finds, IsAnswered};
ghost use Rattle.rec_whole.specs.declared.names.FileNames.{FileNames};
ghost use Rattle.whole_theorem.specs.WholeTheorem.{HasWritten};

use eth_frame::FrameSource;
use rec_reader::bytes_have_one_reading;
use rec_run::Control;
use rec_theorem::what_is_recorded_is_found;
use rec_whole::a_whole_file_is_read_back;
use std::io::Write;

/// Law: what is recorded is in its whole file. After a run that ended, and a whole file that was written of its
/// bytes, a reader finds in the bytes of the file, of each channel, in order and once each, exactly those of the
/// frames taken from its source that the program in force at that moment accepted; and the audit answers no fault,
/// unless memory ran out. That is what it finds in the recording, word for word.
///
/// That is said twice: of the bytes, and of what the reader's calls answer.
pub fn what_is_recorded_is_in_its_whole_file<
    S: FrameSource + Drop,
    C: Control + Drop,
    W: Write + Drop,
    V: Write,
>()
    ensures found { (jobs : List (Job S)) (version : ℕ) (control : C) (out : W)
        (done : Done S C W) (before bytes : List ℕ)
        → (recorded : HasRecorded S.left S.failures S.ending C.given C.answered C.ended W.contents
        jobs version control out done before bytes)
        → (names : FileNames) (rules : List Origin) (most : ℕ) (first last : V)
        (counts : FileCounts)
        (ahead file : List ℕ)
        → HasWritten V.contents bytes names rules most first last counts ahead file
        → Finds S.left jobs done.report.channels.items recorded.controlled.changes file }
    ensures calls { (jobs : List (Job S)) (version : ℕ) (control : C) (out : W)
        (done : Done S C W) (before bytes : List ℕ)
        → (recorded : HasRecorded S.left S.failures S.ending C.given C.answered C.ended W.contents
        jobs version control out done before bytes)
        → (names : FileNames) (rules : List Origin) (most : ℕ) (first last : V)
        (counts : FileCounts)
        (ahead file : List ℕ)
        → HasWritten V.contents bytes names rules most first last counts ahead file
        → IsAnswered S.left jobs done.report.channels.items recorded.controlled.changes file }
{
    what_is_recorded_is_found::<S, C, W>();
    a_whole_file_is_read_back();
    bytes_have_one_reading();
}
