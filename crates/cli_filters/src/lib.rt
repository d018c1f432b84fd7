//! The commands on one filter, and the run without words.
#![tactic(auto)]

mod filters;
mod no_words;
mod outcome;

pub use filters::{assemble_file, disassemble_file, run_file, verify_file};
pub use no_words::answer_lines;
