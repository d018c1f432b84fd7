//! The channels of a Chapter 11 file of several recordings (IRIG 106-17 Chapter 11): which channel of which
//! recordings has which channel ID in it.
#![tactic(auto)]

mod channels;
mod given;
mod laws;
mod named;
mod runs;
mod taken;

pub use channels::{FileChannel, RunChannel};
pub use given::{file_channels, id_in_file, time_channel};
pub use laws::{
    a_file_of_one_run_keeps_its_ids, channels_of_a_file_are_named_once, there_is_one_numbering,
};
pub use named::{NamedIds, named_channels};
pub use runs::runs_of;
