//! Tests beside slow readings of definitions. One judge walks every path of a program, where the
//! verifier has masks; one reads a channel's pieces from plain lists of all frames and versions,
//! where the lane keeps none; one looks back through all packets of a recording, where the audit
//! goes through them once; one works out each answer of a recorder's core anew from lists of all
//! that happened. A search walks all states of small recorders.
#![tactic(auto)]

#[cfg(test)]
mod approval;
#[cfg(test)]
mod draws;
#[cfg(test)]
mod packets;
#[cfg(test)]
mod pieces;
#[cfg(test)]
mod search;
#[cfg(test)]
mod shared;
#[cfg(test)]
mod standing;
#[cfg(test)]
mod tests;
#[cfg(test)]
mod world;
