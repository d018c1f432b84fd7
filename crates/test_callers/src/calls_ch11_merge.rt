//! A caller of `ch11_merge`, as its page has it.

use ch11_merge::{MergedChannel, MergedChannels, PieceFault, PieceSource, Placed, next_placed};
use std::alloc::Global;

/// Takes what comes first of two channels, 1 and 2, where the first time packet that may go out has this
/// tick.
pub fn first_of_two<S: PieceSource + Drop>(
    alloc: Global,
    one: S,
    two: S,
    tick: u64,
) -> Result<Option<Placed<S::Piece>>, PieceFault> {
    let mut channels = Vec::new(alloc);
    channels.push(MergedChannel {
        channel: 1,
        source: one,
    })?;
    channels.push(MergedChannel {
        channel: 2,
        source: two,
    })?;
    let mut merged = MergedChannels::new(alloc, channels)?;
    next_placed(&mut merged, tick)
}
