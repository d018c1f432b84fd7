//! The recorder theorem.

ghost use Rattle.std.specs.Prelude.{ℕ, List};
ghost use Rattle.rec_writer.specs.declared.fault.WriteFault.{WriteFault};
ghost use Rattle.rec_run.specs.declared.job.Job.{Job};
ghost use Rattle.rec_run.specs.declared.report.Done.{Done};
ghost use Rattle.rec_run.specs.declared.report.Report.{Report};
ghost use Rattle.rec_theorem.specs.Theorem.{HasRecorded, HasBeenCut, Finds, IsAnswered, FindsCut};

use crate::cut::a_cut_recording_is_read_back;
use crate::reading::a_recording_is_read_back;
use eth_frame::FrameSource;
use rec_lane::accepted_frames_are_one_list;
use rec_run::Control;
use std::io::Write;

/// Law: the recorder theorem. After a run that ended, what a reader finds of each channel is, in
/// order and once each, exactly those of the frames taken from its source that the program in force
/// at that moment accepted; and the audit answers no fault, unless memory ran out.
///
/// That is said twice: of the bytes, and of what the reader's calls answer. After a run in which the
/// output failed, it finds the first of these.
pub fn what_is_recorded_is_found<S: FrameSource + Drop, C: Control + Drop, W: Write + Drop>()
    ensures found { (jobs : List (Job S)) (version : ℕ) (control : C) (out : W)
        (done : Done S C W) (before bytes : List ℕ)
        → (recorded : HasRecorded S.left S.failures S.ending C.given C.answered C.ended W.contents
        jobs version control out done before bytes)
        → Finds S.left jobs done.report.channels.items recorded.controlled.changes bytes }
    ensures calls { (jobs : List (Job S)) (version : ℕ) (control : C) (out : W)
        (done : Done S C W) (before bytes : List ℕ)
        → (recorded : HasRecorded S.left S.failures S.ending C.given C.answered C.ended W.contents
        jobs version control out done before bytes)
        → IsAnswered S.left jobs done.report.channels.items recorded.controlled.changes bytes }
    ensures cut { (jobs : List (Job S)) (version : ℕ) (first last : W) (fault : WriteFault)
        (report : Report S) (before bytes : List ℕ)
        → HasBeenCut S.left S.failures S.ending W.contents jobs version first last fault report
        before bytes
        → FindsCut S.left jobs report.channels.items bytes }
{
    a_recording_is_read_back();
    a_cut_recording_is_read_back();
    accepted_frames_are_one_list();
}
