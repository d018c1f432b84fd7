//! The recorder theorem: what a recorder wrote, a reader finds. The crate has laws alone, which run
//! nothing.
#![tactic(auto)]

mod cut;
mod existence;
mod interleaving;
mod ranges;
mod reading;
mod theorem;
mod upgraded;

pub use cut::a_cut_recording_is_read_back;
pub use existence::there_are_recordings;
pub use interleaving::every_interleaving_is_read_back;
pub use ranges::{a_spec_is_in_range, an_event_is_in_range};
pub use reading::a_recording_is_read_back;
pub use rec_run::a_job_is_in_range;
pub use theorem::what_is_recorded_is_found;
pub use upgraded::an_old_recording_becomes_a_new_one;
