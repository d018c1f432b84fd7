//! What the commands of the program share: the texts and files that they read, how they print on
//! standard output, how they end, and the words that name channels and views.
#![tactic(auto)]

mod channel_word;
mod created;
mod ending;
mod forced;
mod hint;
mod input;
mod inputs;
mod listed;
mod output;
mod output_file;
mod own_place;
mod recording_fault;
mod run_refusal;
mod view;

pub use channel_word::channel_in;
pub use created::{LockFile, create_output};
pub use ending::{ANSWERED, CommandEnding, STREAM};
pub use forced::force_to_disk;
pub use input::{MAX_LISTING, MAX_TEXT, bounded_text, text_in, whole_text};
pub use inputs::{Inputs, refuse_output_into, refuse_output_into_input};
pub use listed::{ListedFault, listed_program};
pub use output::{finish, print_line, print_text};
pub use output_file::{OUTPUT_PIECE, OutputFile, buffered_output, write_held};
pub use recording_fault::RecordingFault;
pub use run_refusal::RunRefusal;
pub use view::{ViewFault, view_of};
