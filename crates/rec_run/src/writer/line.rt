//! A channel as the writer holds it.

ghost use Rattle.std.specs.Prelude.{◌≡◌};
ghost use Rattle.rtrb.specs.Ring.{IsPair};

use crate::worker::thread::{WorkerDone, Works};
use ch11_packet::Blank;
use eth_frame::FrameSource;
use rec_lane::Piece;
use rtrb::{Consumer, Producer};
use std::thread::PromisedHandle;

/// A worker's thread, and the writer's ends of its rings.
#[derive(Drop)]
pub(crate) struct WriterLine<S: FrameSource + Drop> {
    pub(crate) channel: u16,
    pub(crate) handle: PromisedHandle<WorkerDone<S>, Works<S>>,
    pub(crate) pieces: Consumer<Piece>,
    pub(crate) returns: Producer<Blank>,
    /// How many buffers were made for the worker.
    pub(crate) buffers: usize,
    /// Whether the channel's end is still to come.
    pub(crate) open_yet: bool,
    ghost pair: { IsPair handle.promise.ring.value pieces },
    ghost named: { channel ≡ handle.promise.job.value.spec.channel },
}
