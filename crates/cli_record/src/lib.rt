//! The command that records channels, through the threads of the recorder.
#![tactic(auto)]

mod changes;
mod command;
mod fault;
mod files;
mod jobs;
mod report;

pub use command::record_channels;
