//! The recorder theorem of a whole Chapter 11 file: what a recorder wrote, a reader finds in the whole file of it.
//! The crate has laws alone, which run nothing.
#![tactic(auto)]

mod theorem;

pub use theorem::what_is_recorded_is_in_its_whole_file;
