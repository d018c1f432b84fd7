//! Several recordings as one: their packets, with the counters and the channel IDs of one Chapter 11 file (IRIG 106-17
//! Chapter 11).
#![tactic(auto)]

mod bodies;
mod fault;
mod frames;
mod joined;
mod laws;
mod listing;
mod moves;
mod packet;
mod records;

pub use fault::MoveFault;
pub use joined::{Joined, JoinedPackets, Part};
pub use laws::{
    an_id_has_the_frames_of_its_channel, joined_frames_keep_their_times,
    joined_recordings_are_a_recording, joined_recordings_are_listed_as_they_tell,
    joined_recordings_keep_each_channel,
};
pub use listing::{JoinEnd, list_moved};
pub use moves::Moves;
pub use packet::moved_packet;
