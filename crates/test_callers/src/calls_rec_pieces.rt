//! A caller of `rec_pieces`, as its page has it.

use ch11_merge::{Head, PieceFault, PieceSource};
use rec_pieces::{ChannelPieces, PacketsAt, PieceListing};
use std::alloc::Global;

/// Where the first piece of a channel stands.
pub fn first_head<P: PacketsAt>(
    alloc: Global,
    packets: &P,
    listing: &PieceListing,
    channel: u16,
) -> Result<Head, PieceFault> {
    Ok(ChannelPieces::new(alloc, packets, listing.packets_of(channel))?.head())
}
