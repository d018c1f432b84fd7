//! The audit of a recording that was read.

ghost use Rattle.std.specs.Prelude.{ℕ, ◌<◌, ◌^◌, length, OnOk};
ghost use Rattle.rec_reader.specs.Channels.{IsNamed};
ghost use Rattle.rec_reader.specs.Audits.{AreApproved, Audits, EndsWell};

use crate::audits::answer::{Audit, AuditFault};
use crate::audits::auditor::Auditor;
use crate::recording::Recording;
use std::alloc::Global;

/// The audit of a recording: its lines, or its first fault. It trusts nothing of whoever made the
/// bytes: each program is verified, each frame is filtered again, and the counts of each end are
/// compared.
///
/// # Errors
///
/// The fault of the first packet that has one; else [`AuditFault::NoEnd`] or
/// [`AuditFault::Counts`] of the least channel that has one; [`AuditFault::Memory`] if there was no
/// memory for a program, a further channel or the lines.
pub fn audit(alloc: Global, recording: &Recording<'_>) -> Result<Audit, AuditFault>
    // The answer. A recording has fewer than 2^64 packets, so no number in it is capped.
    ensures audits { Audits recording.now result }
    ensures counted { length recording.now < 2 ^ 64 }

    // What a yes means, by whomever the recording was made.
    ensures approved { OnOk result (AreApproved recording.now) }
    ensures ends { OnOk result ((channel : ℕ) → IsNamed channel recording.now
        → EndsWell channel recording.now) }
{
    let mut auditor = Auditor::new(alloc);
    'packets: for packet in recording.packets() {
        auditor.take(packet)?;
    }
    auditor.end()
}
