//! The commands that write a whole Chapter 11 file (IRIG 106-17 Chapter 11) of a recording, and its packets as a
//! stream.
#![tactic(auto)]

mod channels;
mod command;
mod discard;
mod files;
mod joined_channels;
mod joined_file;
mod joining;
mod laws;
mod listed;
mod passes;
mod run_records;
mod several;
mod stream;
mod summed;
mod uncreated;
mod whole_file;
mod writing;

pub use command::write_chapter11;
pub use several::write_joined;
pub use stream::stream_chapter11;
