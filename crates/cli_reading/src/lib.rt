//! The commands that read a recording: its packets are listed, it is judged by itself, a channel's
//! frames are extracted, the frames of all channels are exported, and an old one is brought up to date.
#![tactic(auto)]

mod auditing;
mod exporting;
mod extraction;
mod packet_list;
mod reading;
mod upgrading;
mod written;

pub use auditing::audit_recording;
pub use exporting::export_frames;
pub use extraction::extract_frames;
pub use packet_list::list_packets;
pub use upgrading::upgrade_recording;
