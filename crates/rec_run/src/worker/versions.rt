//! The versions of a filter that a worker's frames met.

ghost use Rattle.std.specs.Prelude.{◌≡◌, [], true, false, IfSome, IfNone};
ghost use Rattle.std.specs.Arc.{arc_value};
ghost use Rattle.rec_run.specs.VersionsMet.{is_last_met, met_after};
ghost use Rattle.rec_run.specs.WorkerRuns.{versions_met};

use crate::pause::Pause;
use bpf_verify::Verified;
use rec_channel::Drawn;
use std::alloc::Global;
use std::sync::{Arc, Wait};

/// A version that some frame met.
#[derive(Drop)]
pub(crate) struct MetVersion {
    pub(crate) version: u32,
    /// The number of the first frame that met it.
    pub(crate) first: u64,
    pub(crate) program: Arc<Verified, Global>,
}

/// The last version met; `None` if none was.
pub(crate) fn last_version(met: &[MetVersion]) -> Option<u32>
    ensures met { IfSome result (λ version. is_last_met (versions_met met.now) version ≡ true) }
    ensures none { IfNone result (met.now ≡ []) }
{
    match met.last() {
        None => None,
        Some(last) => Some(last.version),
    }
}

/// Adds the version that a frame met, unless the last one is the same; `false` if there is no room.
pub(crate) fn meet<R: Wait>(rt: &R, met: &mut Vec<MetVersion>, drawn: &Drawn) -> bool
    ensures met { result ≡ true → versions_met met.new.items
        ≡ met_after (versions_met met.old.items)
        drawn.now.version drawn.now.number (arc_value drawn.now.program) }
    ensures kept { result ≡ false → met.new.items ≡ met.old.items }
{
    if is_last(met.as_slice(), drawn.version) {
        return true;
    }
    if met.len() == met.capacity() {
        return false;
    }
    met.push_reserved(MetVersion {
        version: drawn.version,
        first: drawn.number,
        program: share(rt, &drawn.program),
    });
    true
}

/// Whether this is the last version met.
fn is_last(met: &[MetVersion], version: u32) -> bool
    ensures { result ≡ is_last_met (versions_met met.now) version }
{
    match met.last() {
        None => false,
        Some(last) => last.version == version,
    }
}

/// A further share of a program, as soon as there is one.
pub(crate) fn share<R: Wait>(rt: &R, program: &Arc<Verified, Global>) -> Arc<Verified, Global>
    ensures { arc_value result ≡ arc_value program.now }
{
    let mut pause = Pause::new();
    'turns: for _ in rt.forever() {
        if let Ok(share) = Arc::try_clone(program) {
            return share;
        }
        pause.wait(rt);
    }
    unreachable!()
}
