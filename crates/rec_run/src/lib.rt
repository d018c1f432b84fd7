//! The recorder of many channels: a thread for each channel's source, one for the changes of the
//! filters, and the writer on the caller's.
#![tactic(auto)]

mod control;
mod ending;
mod job;
mod pause;
mod ranges;
mod recording;
mod report;
mod stop;
mod threads;
mod worker;
mod writer;

pub use control::Control;
pub use control::change::{Answer, Change, Told};
pub use control::log::ControlLog;
pub use ending::Ending;
pub use job::{Job, jobs_ok};
pub use ranges::{a_count_is_in_range, a_job_is_in_range, a_lane_is_in_range};
pub use rec_channel::MAX_RING;
pub use recording::record;
pub use report::{ChannelReport, Done, Report, RunFault};
pub use threads::setup::the_spare_buffers_are_enough;
