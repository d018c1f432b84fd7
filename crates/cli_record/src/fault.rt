//! What a failed output of a recording comes to.

ghost use Rattle.std.specs.Prelude.{ℕ, ◌≡◌};
ghost use Rattle.rec_writer.specs.declared.fault.WriteFault.TheVariants.{Output, Failed};
ghost use Rattle.cli_streams.specs.declared.recording_fault.RecordingFault.TheVariants.{Output as output_failed};

use cli_streams::RecordingFault;
use rec_writer::WriteFault;

/// How much went out of a recording whose output failed.
pub(crate) fn output_fault(fault: WriteFault) -> RecordingFault
    ensures now { (whole bytes : ℕ) → fault ≡ Output whole bytes
        → result ≡ output_failed whole bytes }
    ensures earlier { (whole bytes : ℕ) → fault ≡ Failed whole bytes
        → result ≡ output_failed whole bytes }
{
    match fault {
        WriteFault::Output { whole, bytes } | WriteFault::Failed { whole, bytes } => {
            RecordingFault::Output { whole, bytes }
        }
    }
}
