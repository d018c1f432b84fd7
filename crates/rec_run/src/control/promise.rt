//! What the control's thread promises.

ghost use Rattle.std.specs.Prelude.{◌≡◌, [], IfOk};
ghost use Rattle.rec_run.specs.Control.{MayBeAsked, EndsControl};

use crate::control::Control;
use crate::control::change::Logged;
use crate::control::thread::{Controlled, run_control};
use rec_channel::SharedSlot;
use std::alloc::AllocError;
use std::snapshot::Snapshot;
use std::sync::Wait;
use std::sync::atomic::AtomicU64;
use std::thread::{Promise, PromisedHandle, Scope, Threads};

/// The control that the thread got.
#[derive(Drop)]
pub(crate) struct Controls<C> {
    pub(crate) control: Snapshot<C>,
}

impl<C: Control + Drop> Promise<Controlled<C>> for Controls<C> {
    ghost kept_by = { λ p run. EndsControl C.given C.answered C.ended p.control.value run };
}

/// Starts the control's thread.
pub(crate) fn start_control<'s, E, C: Control + Send + Drop + 's, R: Threads + Wait + Sync>(
    scope: &Scope<'s, E>,
    rt: &'s R,
    control: C,
    slots: &'s [SharedSlot],
    channels: &'s [u16],
    stop: &'s AtomicU64,
    log: Vec<Logged>,
) -> Result<PromisedHandle<Controlled<C>, Controls<C>>, AllocError>
    requires next { MayBeAsked C.given C.answered C.ended control }
    requires log { log.items ≡ [] }
    ensures { IfOk result (λ h. h.promise.control.value ≡ control) }
{
    let promise = Controls {
        control: Snapshot::of(&control),
    };
    let handle = scope.spawn_with(
        promise,
        move || -> Controlled<C>
            requires { MayBeAsked C.given C.answered C.ended control × (log.items ≡ []) }
            ensures { EndsControl C.given C.answered C.ended control result }
        { run_control(rt, control, slots, channels, stop, log) },
    )?;
    Ok(handle)
}
