//! A caller of `rec_joined`, as its page has it.

use rec_joined::{MoveFault, Moves, moved_packet};
use rec_reader::OwnedPacket;
use std::alloc::Global;

/// The channel ID of a packet's header in a file of several recordings.
pub fn channel_in_file(
    alloc: Global,
    packet: &OwnedPacket,
    moves: &Moves,
) -> Result<u16, MoveFault> {
    let moved = moved_packet(alloc, packet, 0, moves)?;
    Ok(moved.packet().header.channel)
}
