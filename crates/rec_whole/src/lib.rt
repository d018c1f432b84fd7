//! A whole Chapter 11 file (IRIG 106-17 Chapter 11) of a recording.
#![tactic(auto)]

mod channels;
mod laws;
mod names;
mod refusal;
mod whole;

pub use channels::setup_channels;
pub use laws::{
    a_whole_file_has_no_other_frames, a_whole_file_has_no_refusal_beside_it,
    a_whole_file_is_read_as_it_is_told, a_whole_file_is_read_back, a_whole_file_keeps_the_frames,
    a_whole_file_keeps_what_is_recorded, packets_of_a_whole_file_are_short,
    there_is_one_whole_file, times_of_a_recordings_file_stand_late,
};
pub use names::FileNames;
pub use refusal::{WholeEnd, WholeRefusal};
pub use whole::{file_setup, write_whole_file};
