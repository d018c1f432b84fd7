//! The tests of filters, frames, packets, blocks, and of the parts of a Chapter 11 file, by the public calls of
//! their crates. They stand in one crate, since a crate with tests of its own is proved twice.
#![tactic(auto)]

#[cfg(test)]
mod assembler;
#[cfg(test)]
mod blocks;
#[cfg(test)]
mod clock;
#[cfg(test)]
mod disassembler;
#[cfg(test)]
mod frame_and_feed;
#[cfg(test)]
mod index;
#[cfg(test)]
mod insn;
#[cfg(test)]
mod machine;
#[cfg(test)]
mod merge;
#[cfg(test)]
mod numbering;
#[cfg(test)]
mod packet;
#[cfg(test)]
mod setup;
#[cfg(test)]
mod shared;
#[cfg(test)]
mod verifier;
