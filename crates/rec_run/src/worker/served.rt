//! The versions that a worker met, beside the slot's history.

ghost use Rattle.std.specs.Prelude.{ℕ, ◌≡◌, length, true};
ghost use Rattle.rec_channel.specs.History.{IsHistory};
ghost use Rattle.rec_run.specs.Reports.{history_in};
ghost use Rattle.rec_run.specs.VersionsMet.{IsServed, AreServed, first_met};
ghost use Rattle.rec_run.specs.WorkerRuns.{met_data, versions_met};

use crate::worker::versions::MetVersion;
use bpf_verify::Verified;
use std::alloc::Global;
use std::sync::Arc;

/// Whether each version was in force for the frames that met it: its program is the history's, and
/// its frames are from its mark on and before that of the next version.
pub(crate) fn are_served(
    met: &[MetVersion],
    versions: &[Arc<Verified, Global>],
    marks: &[u64],
    offered: u64,
) -> bool
    requires same { length versions.now ≡ length marks.now }
    requires history { IsHistory offered (history_in versions.now marks.now) }
    ensures { result ≡ true
        → AreServed (history_in versions.now marks.now) offered (versions_met met.now) }
{
    let mut met = met;
    'versions: while let Some((one, later)) = met.split_first() {
        if !is_served(one, first_number(later, offered), versions, marks) {
            return false;
        }
        met = later;
    }
    true
}

/// The number of the first frame of the first version; where there is none, this number.
fn first_number(met: &[MetVersion], until: u64) -> u64
    ensures { result ≡ first_met until (versions_met met.now) }
{
    match met.split_first() {
        None => until,
        Some((one, _)) => one.first,
    }
}

/// Whether a version is in force from its first frame on, up to this number.
fn is_served(
    one: &MetVersion,
    until: u64,
    versions: &[Arc<Verified, Global>],
    marks: &[u64],
) -> bool
    requires { length versions.now ≡ length marks.now }
    ensures { result ≡ true → (offered : ℕ) → IsHistory offered (history_in versions.now marks.now)
        → IsServed (history_in versions.now marks.now) until (met_data one.now) }
{
    let at = one.version as usize;
    let Some(program) = versions.get(at) else {
        return false;
    };
    let Some(mark) = marks.get(at) else {
        return false;
    };
    if *mark > one.first || !program.same(&one.program) {
        return false;
    }
    match marks.get(at + 1) {
        None => true,
        Some(next) => until <= *next,
    }
}
