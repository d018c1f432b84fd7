//! The whole file of a recording in memory: a caller of `write_whole_file` that says what a reader finds.
#![tactic(auto)]

mod written;

pub use written::whole_file_of;
