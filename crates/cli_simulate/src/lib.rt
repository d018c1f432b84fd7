//! The command that drives the recorder's core by a script of events.
#![tactic(auto)]

mod script;
mod simulation;

pub use simulation::simulate_script;
