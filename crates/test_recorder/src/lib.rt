//! The tests of what records, by the public calls of its crates: a channel's slot and lane, the writer,
//! the core, single calls at full size, and whole recordings.
#![tactic(auto)]

#[cfg(test)]
mod channel;
#[cfg(test)]
mod lane;
#[cfg(test)]
mod recorder;
#[cfg(test)]
mod serving;
#[cfg(test)]
mod shared;
#[cfg(test)]
mod sizes;
#[cfg(test)]
mod world;
#[cfg(test)]
mod writer;
