//! The pieces of a recording's channels, read from their places in its file, for a whole Chapter 11 file
//! (IRIG 106-17 Chapter 11).
#![tactic(auto)]

mod channel;
mod entry;
mod frames;
mod hand;
mod laws;
mod listing;
mod packets;
mod part;
mod placed;
mod reading;
mod sources;
mod upcoming;

pub use channel::ChannelPieces;
pub use entry::{PieceEntry, PieceKind};
pub use frames::FramesInHand;
pub use hand::{InHand, in_hand};
pub use laws::{
    listed_channels_are_those_of_packets, packets_are_read_at_their_places,
    pieces_hold_the_frames_of_a_channel, pieces_of_places_are_those_of_packets,
};
pub use listing::{PieceListing, least_counter, names};
pub use packets::{FilePackets, PacketsAt};
pub use placed::{FileAt, PlacedRead};
pub use reading::{ListingEnd, list_recording};
pub use sources::channel_sources;
