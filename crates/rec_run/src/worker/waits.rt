//! What a worker waits for: room in its ring, an empty buffer.

ghost use Rattle.std.specs.Prelude.{◌≡◌, ◌≤◌, ◌+◌, ◌∷◌, ◌++◌, [], true, false, length, IfNone, IfSome};
ghost use Rattle.rtrb.specs.Ring.{sent, received, SameProducer};
ghost use Rattle.rec_lane.specs.Parts.{BeginsList};
ghost use Rattle.rec_run.specs.WorkerSteps.{IsStop, HasBuffer};

use crate::ending::{Ending, WorkerEnd};
use crate::pause::Pause;
use crate::stop::is_stopped;
use arrayvec::ArrayVec;
use ch11_packet::Blank;
use rec_lane::{Lane, Piece};
use rtrb::{Consumer, Producer, PushError};
use std::sync::Wait;
use std::sync::atomic::{AtomicU64, Ordering};

/// Sends a piece, as soon as there is room for it; `false` if the recording stopped before.
pub(crate) fn send<R: Wait>(
    rt: &R,
    stop: &AtomicU64,
    ring: &mut Producer<Piece>,
    piece: Piece,
) -> bool
    ensures ring { SameProducer ring.old ring.new }
    ensures went { result ≡ true → sent ring.new ≡ sent ring.old ++ piece ∷ [] }
    ensures kept { result ≡ false → sent ring.new ≡ sent ring.old }
{
    let mut piece = piece;
    let mut pause = Pause::new();
    'turns: for _ in rt.forever() {
        match ring.push(piece) {
            Ok(()) => return true,
            Err(PushError::Full(back)) => piece = back,
        }
        if is_stopped(stop) {
            return false;
        }
        pause.wait(rt);
    }
    unreachable!()
}

/// Sends pieces one after the other; `false` if the recording stopped before all went.
pub(crate) fn send_all<R: Wait>(
    rt: &R,
    stop: &AtomicU64,
    ring: &mut Producer<Piece>,
    pieces: ArrayVec<Piece, 2>,
) -> bool
    ensures ring { SameProducer ring.old ring.new }
    ensures went { result ≡ true → sent ring.new ≡ sent ring.old ++ pieces.items }
    ensures part { BeginsList (sent ring.new) (sent ring.old ++ pieces.items) }
{
    'pieces: for piece in pieces {
        if !send(rt, stop, ring, piece) {
            return false;
        }
    }
    true
}

/// Waits until the lane has the buffer of its next packet. `Some` tells why it has none.
pub(crate) fn make_ready<R: Wait>(
    rt: &R,
    stop: &AtomicU64,
    blanks: &mut Consumer<Blank>,
    lane: &mut Lane,
) -> Option<WorkerEnd>
    ensures ready { IfNone result (HasBuffer lane.old lane.new) }
    ensures stopped { IfSome result (λ end. IsStop end × (lane.new ≡ lane.old)) }
    // It takes none where the lane has its buffer, and else one at most.
    ensures none { lane.old.ready ≡ true → received blanks.new ≡ received blanks.old }
    ensures one { length (received blanks.new) ≤ length (received blanks.old) + 1 }
{
    if lane.is_ready() {
        return None;
    }
    let mut pause = Pause::new();
    'turns: for _ in rt.forever() {
        if let Ok(blank) = blanks.pop() {
            return match lane.give(blank) {
                None => None,
                Some(_) => Some(WorkerEnd::Link),
            };
        }
        if is_stopped(stop) {
            return Some(WorkerEnd::Ended(Ending::Stopped));
        }
        pause.wait(rt);
    }
    unreachable!()
}
