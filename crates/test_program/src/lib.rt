//! The tests of the program, by its public calls: runs without words, the settings of recordings, calls
//! of files that a signal interrupts, how lines go out, how refusals of several recordings are printed, and the limits in
//! help.
#![tactic(auto)]

#[cfg(test)]
mod command_line;
#[cfg(test)]
mod endings;
#[cfg(test)]
mod help;
#[cfg(test)]
mod printed;
#[cfg(test)]
mod retried;
#[cfg(test)]
mod settings;
#[cfg(test)]
mod setup_file;
