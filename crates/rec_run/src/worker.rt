//! A worker: it takes the frames of one channel from their source, and sends the pieces that they
//! make.
pub(crate) mod served;
pub(crate) mod step;
pub(crate) mod thread;
pub(crate) mod versions;
pub(crate) mod waits;

use crate::worker::versions::MetVersion;
use ch11_packet::Blank;
use rec_channel::Front;
use rec_lane::{Lane, Piece};
use rtrb::{Consumer, Producer};

/// A worker that goes on.
#[derive(Drop)]
pub(crate) struct Worker<S: Drop> {
    pub(crate) source: S,
    pub(crate) lane: Lane,
    /// The versions that frames met, in order; there is room for all.
    pub(crate) met: Vec<MetVersion>,
    pub(crate) ring: Producer<Piece>,
    pub(crate) blanks: Consumer<Blank>,
    pub(crate) front: Front,
    pub(crate) max: u64,
}
