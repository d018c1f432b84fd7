//! The whole Chapter 11 file of several recordings: what a reader finds in it, and that the audit says yes of it where it
//! does of each recording. The crate has laws alone, which run nothing.
#![tactic(auto)]

mod approved;
mod files;
mod ids;

pub use approved::approved_recordings_have_an_approved_file;
pub use files::{a_joined_file_is_read_back, a_joined_file_keeps_each_channel};
pub use ids::ids_of_a_file_are_of_one_channel;
