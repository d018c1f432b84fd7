//! The pieces of one channel. A [`Lane`] runs the filter in force on each frame that is offered,
//! packs the accepted ones into packets, and gives the pieces of the channel's recording: each
//! program that came into force, the packets of frames, and the channel's end.
#![tactic(auto)]

mod lane;
mod laws;
mod offered;
mod piece;
mod spec;
mod version;

pub use lane::Lane;
pub use laws::{
    a_packet_is_of_less_than_a_span, accepted_frames_are_one_list,
    few_pieces_become_certain_at_a_time, groups_are_frames_of_one_version,
    later_versions_leave_the_frames, packets_are_longest_fronts, packets_are_of_longest_parts,
    pieces_are_of_their_channel, pieces_hold_the_accepted_frames, pieces_so_far_begin_all_pieces,
    the_filter_takes_the_longest_view, without_a_span_the_limit_alone_makes_packets,
};
pub use offered::{Offered, OfferedKnown};
pub use piece::{DataPiece, EndPiece, Piece, ProgramPiece};
pub use spec::LaneSpec;
