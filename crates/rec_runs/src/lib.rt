//! Recordings that follow one another and become one file: what becomes of a channel's programs and
//! ends (IRIG 106-17 Chapter 11, in this project's profile).
#![tactic(auto)]

mod channel;
mod laws;
mod record_moves;
mod records;
mod told;

pub use laws::{
    a_channel_that_begins_is_not_moved, no_more_than_the_limit_is_added,
    one_recording_keeps_its_versions, the_same_instructions_are_equal, versions_rise_through_a_run,
};
pub use record_moves::{RecordMoves, continue_in};
pub use records::RunRecords;
