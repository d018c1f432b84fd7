//! The order of a Chapter 11 file (IRIG 106-17 Chapter 11): the pieces of channels, cut where a packet would
//! be too long, in time or in bytes, and merged by their counters, with time packets ahead of them.
#![tactic(auto)]

mod channels;
mod laws;
mod piece;
mod placed;
mod source;
mod waiting;

pub use channels::{MergedChannel, MergedChannels};
pub use laws::{
    a_merge_has_no_other_channel, a_merge_keeps_each_channel, frames_are_cut_in_one_way,
    frames_have_pieces, pieces_are_short, pieces_of_frames_are_the_cut, time_packets_stand_ahead,
    time_packets_stand_late,
};
pub use piece::{PIECE_TICKS, PieceSoFar};
pub use placed::{NextPiece, Placed, next_piece, next_placed};
pub use source::{Head, PieceFault, PieceSource};
