//! One clock for a Chapter 11 file of several recordings (IRIG 106-17 Chapter 11): its origin, and the counters
//! that it gives to theirs.
#![tactic(auto)]

mod laws;
mod moved;
mod start;

pub use laws::{a_start_lies_before_all_origins, moved_counters_keep_their_times};
pub use moved::moved_counter;
pub use start::{earliest, file_start};
