//! The threads of a recording: their start, the writing, and their end.
pub(crate) mod joins;
pub(crate) mod prepared;
pub(crate) mod setup;

ghost use Rattle.std.specs.Prelude.{◌≡◌, List, Option, ℕ, IfOk};
ghost use Rattle.rec_run.specs.Threads.{jobs_in, IsPrepared, MayStart, IsOutcome};
ghost use Rattle.rec_run.specs.Control.{MayBeAsked, EndsControl};

use crate::control::Control;
use crate::control::change::Logged;
use crate::control::promise::start_control;
use crate::control::thread::Controlled;
use crate::stop::set_stop;
use crate::threads::joins::{Joined, join_all};
use crate::threads::prepared::PreparedChannel;
use crate::threads::setup::start_all;
use crate::writer::line::WriterLine;
use crate::writer::tape::Tape;
use crate::writer::{Wrote, write_lines};
use eth_frame::FrameSource;
use rec_channel::SharedSlot;
use std::alloc::AllocError;
use std::io::Write;
use std::sync::Wait;
use std::sync::atomic::AtomicU64;
use std::thread::{self, Scope, Threads};

/// What the threads have left.
#[derive(Drop)]
pub(crate) struct ThreadsOutcome<S: Drop, C: Drop, W: Write + Drop> {
    pub(crate) joined: Vec<Joined<S>>,
    pub(crate) controlled: Controlled<C>,
    pub(crate) tape: Tape<W>,
    pub(crate) wrote: Wrote,
}

/// Runs the threads of a recording until all have ended. `Err` tells that one did not start.
pub(crate) fn run_threads<
    S: FrameSource + Send + Drop,
    C: Control + Send + Drop,
    W: Write + Drop,
    R: Threads + Wait + Sync,
>(
    rt: &R,
    slots: &[SharedSlot],
    stop: &AtomicU64,
    prepared: Vec<PreparedChannel<S>>,
    room: (Vec<WriterLine<S>>, Vec<Joined<S>>),
    control: C,
    channels: &[u16],
    log: Vec<Logged>,
    tape: Tape<W>,
) -> Result<ThreadsOutcome<S, C, W>, AllocError>
    requires { IsPrepared slots.now prepared room tape
        × MayStart C.given C.answered C.ended control log }
    ensures joined { IfOk result (λ o. (first : Option (List ℕ))
        → IsOutcome S.left S.failures S.ending first tape (jobs_in prepared.items) o) }
    ensures control { IfOk result (λ o.
        EndsControl C.given C.answered C.ended control o.controlled) }
{
    thread::scope(
        thread::scope_env(),
        rt,
        move |scope| -> Result<ThreadsOutcome<S, C, W>, AllocError>
            requires { IsPrepared slots.now prepared room tape
                × MayStart C.given C.answered C.ended control log }
            ensures joined { IfOk result (λ o. (first : Option (List ℕ))
                → IsOutcome S.left S.failures S.ending first tape (jobs_in prepared.items) o) }
            ensures control { IfOk result (λ o.
                EndsControl C.given C.answered C.ended control o.controlled) }
        {
            run_in(
                scope, rt, slots, stop, prepared, room, control, channels, log, tape,
            )
        },
    )
}

/// Starts the workers and then the control, writes what the workers send, and waits for all. Where
/// a thread doesn't start, it waits for those that run.
fn run_in<
    's,
    E,
    S: FrameSource + Send + Drop + 's,
    C: Control + Send + Drop + 's,
    W: Write + Drop,
    R: Threads + Wait + Sync,
>(
    scope: &Scope<'s, E>,
    rt: &'s R,
    slots: &'s [SharedSlot],
    stop: &'s AtomicU64,
    prepared: Vec<PreparedChannel<S>>,
    room: (Vec<WriterLine<S>>, Vec<Joined<S>>),
    control: C,
    channels: &'s [u16],
    log: Vec<Logged>,
    tape: Tape<W>,
) -> Result<ThreadsOutcome<S, C, W>, AllocError>
    requires { IsPrepared slots.now prepared room tape
        × MayStart C.given C.answered C.ended control log }
    ensures joined { IfOk result (λ o. (first : Option (List ℕ))
        → IsOutcome S.left S.failures S.ending first tape (jobs_in prepared.items) o) }
    ensures control { IfOk result (λ o.
        EndsControl C.given C.answered C.ended control o.controlled) }
{
    let (lines, joined) = room;
    let mut lines = lines;
    match start_all(scope, rt, slots, stop, prepared, &mut lines) {
        Ok(()) => {}
        Err(refused) => {
            set_stop(stop);
            drop(join_all(rt, lines, joined));
            return Err(refused);
        }
    }
    let controller = match start_control(scope, rt, control, slots, channels, stop, log) {
        Ok(controller) => controller,
        Err(refused) => {
            set_stop(stop);
            drop(join_all(rt, lines, joined));
            return Err(refused);
        }
    };
    let mut tape = tape;
    let wrote = write_lines(rt, stop, &mut lines, &mut tape);
    let joined = join_all(rt, lines, joined);
    let controlled = controller.join(rt);
    Ok(ThreadsOutcome {
        joined,
        controlled,
        tape,
        wrote,
    })
}
