//! The thread of the control.

ghost use Rattle.std.specs.Prelude.{◌≡◌, ◌+◌, ◌≤◌, List, [], length, true, false, vec_len, vec_capacity};
ghost use Rattle.rec_run.specs.Control.{Given, Answered, MayBeAsked, HasControlled, EndsControl};

use crate::control::Control;
use crate::control::change::{Answer, Change, Logged, Told};
use crate::pause::Pause;
use crate::stop::is_stopped;
use crate::worker::versions::share;
use bpf_verify::Verified;
use rec_channel::{Front, InstallFault, SharedSlot};
use std::alloc::Global;
use std::sync::atomic::AtomicU64;
use std::sync::{Arc, Wait};

/// What the control's thread gives back.
#[derive(Drop)]
pub(crate) struct Controlled<C: Drop> {
    pub(crate) control: C,
    /// The changes in order, as they were answered.
    pub(crate) log: Vec<Logged>,
    /// Whether the control has ended; else the thread was stopped.
    pub(crate) ended: bool,
}

/// Asks the control for changes until it ends or the recording stops, and tells it each answer.
pub(crate) fn run_control<C: Control + Drop, R: Wait>(
    rt: &R,
    control: C,
    slots: &[SharedSlot],
    channels: &[u16],
    stop: &AtomicU64,
    log: Vec<Logged>,
) -> Controlled<C>
    requires next { MayBeAsked C.given C.answered C.ended control }
    requires log { log.items ≡ [] }
    ensures { EndsControl C.given C.answered C.ended control result }
{
    let mut run = Controlled {
        control,
        log,
        ended: false,
    };
    'changes: for _ in rt.forever() {
        if !change_one(&mut run, rt, slots, channels, stop) {
            return run;
        }
    }
    unreachable!()
}

/// One change and its answer; `false` where the control has ended, or the thread stops.
fn change_one<C: Control + Drop, R: Wait>(
    run: &mut Controlled<C>,
    rt: &R,
    slots: &[SharedSlot],
    channels: &[u16],
    stop: &AtomicU64,
) -> bool
    requires { MayBeAsked C.given C.answered C.ended run.old.control }
    ensures goes { result ≡ true → (before : C)
        → HasControlled C.given C.answered before run.old.control run.old.log.items
        → HasControlled C.given C.answered before run.new.control run.new.log.items }
    ensures asks { result ≡ true → MayBeAsked C.given C.answered C.ended run.new.control }
    ensures ends { result ≡ false → run.new.ended ≡ true → (C.ended run.new.control ≡ true)
        × (C.given run.new.control ≡ C.given run.old.control)
        × (C.answered run.new.control ≡ C.answered run.old.control)
        × (run.new.log.items ≡ run.old.log.items) }
{
    run.ended = false;
    if !make_room(rt, stop, &mut run.log) {
        return false;
    }
    let Some(change) = run.control.next() else {
        run.ended = true;
        return false;
    };
    let Change { channel, program } = change;
    let kept = share(rt, &program);
    let Some(answer) = install(rt, slots, channels, channel, program) else {
        return false;
    };
    let told = Told { channel, answer };
    run.control.told(&told);
    run.log.push_reserved(Logged {
        program: kept,
        told,
    });
    true
}

/// Waits for room in the log; `false` if the recording stops before there is any.
fn make_room<R: Wait>(rt: &R, stop: &AtomicU64, log: &mut Vec<Logged>) -> bool
    ensures room { result ≡ true → vec_len log.new + 1 ≤ vec_capacity log.new }
    ensures same { log.new.items ≡ log.old.items }
{
    let mut pause = Pause::new();
    'turns: for _ in rt.forever() {
        if is_stopped(stop) {
            return false;
        }
        if log.reserve(1).is_ok() {
            return true;
        }
        pause.wait(rt);
    }
    unreachable!()
}

/// Installs a program on its channel; `None` where the slot gave what it can't have.
fn install<R: Wait>(
    rt: &R,
    slots: &[SharedSlot],
    channels: &[u16],
    channel: u16,
    program: Arc<Verified, Global>,
) -> Option<Answer> {
    let Some(at) = channels.iter().position(|c| *c == channel) else {
        return Some(Answer::NoChannel);
    };
    let slot = slots.get(at)?;
    match slot.install(rt, program, &Front::START) {
        Ok((installed, _)) => Some(Answer::Installed {
            version: installed.version,
            mark: installed.mark,
        }),
        Err(InstallFault::VersionsFull { .. }) => Some(Answer::VersionsFull),
        Err(InstallFault::Stale { .. }) => None,
    }
}
