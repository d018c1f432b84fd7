//! The index of a Chapter 11 file (IRIG 106-17 Chapter 11, recording index): nodes that name its packets,
//! and roots that name its nodes.
#![tactic(auto)]

mod body;
mod entry;
mod index;
mod laws;

pub use entry::{NodeEntry, RootEntry};
pub use index::{FilePacket, Index, IndexPacket, MOST_NAMED};
pub use laws::{an_index_is_read_back, an_index_names_all, the_limits_of_an_index};
