//! What the command `record` reads, and how its answers and its output go out: all that needs no
//! recorder. What it hands to the recorder is made above it.
#![tactic(auto)]

mod announced;
mod asked;
mod closing;
mod errors;
mod lines;
mod listed;
mod opened;
mod retried;

pub use announced::AnnouncedOutput;
pub use asked::{Asked, NoMemory, Refusal, Reply, next_asked};
pub use closing::ClosingSource;
pub use errors::print_error;
pub use lines::Lines;
pub use opened::{Source, open_feed, read_filter, read_settings};
pub use retried::Retried;
