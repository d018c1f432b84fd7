//! The filter machine: runs a verified program on a view of a frame (bpf(4), "FILTER MACHINE").
#![tactic(auto)]

mod kind;
mod laws;
mod machine;
mod operation;
mod operations;
mod prepared;
mod progress;
mod registers;
mod scratch;

pub use laws::{
    a_program_of_512_instructions_runs_as_before, a_valid_program_returns, runs_once,
    the_longest_view,
};
pub use machine::{MAX_VIEW, Outcome, run};
pub use prepared::Prepared;
