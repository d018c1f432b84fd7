//! A whole Chapter 11 file (IRIG 106-17 Chapter 11): what goes out of the pieces of a recording's channels,
//! to the byte.
#![tactic(auto)]

mod builder;
mod counts;
mod end;
mod file;
mod kind;
mod laws;
mod limits;
mod numbers;
mod owned;
mod piece_block;
mod placing;
mod send;
mod sent;
mod setup;
mod setup_block;
mod time_block;
mod times;

pub use builder::PieceBuilder;
pub use counts::FileCounts;
pub use end::{FileEnd, FileFault, Refusal};
pub use file::write_file;
pub use kind::{BlockHead, BlockKind};
pub use laws::{
    a_frame_that_goes_on_fits, a_whole_file_begins_with_its_setup,
    a_whole_file_has_no_other_channel, a_whole_file_is_indexed, a_whole_file_is_well_formed,
    a_whole_file_keeps_each_channel, bodies_of_a_whole_file_are_read_back,
    headers_never_lie_far_behind, packets_lie_near_their_times, packets_of_pieces_are_read_back,
    the_limits_of_a_file, the_setup_of_a_whole_file_is_read_back,
    times_of_a_whole_file_are_the_clocks, times_of_a_whole_file_stand_ahead,
    times_of_a_whole_file_stand_late,
};
pub use limits::{MAX_SETUP_LEN, MAX_TICKS_AHEAD, MAX_TICKS_BACK};
pub use numbers::SequenceNumbers;
pub use owned::{FramesBody, OwnedPiece, RecordBody};
pub use piece_block::{piece_body, piece_head};
pub use send::{header_of, send_packet};
pub use setup::FileSetup;
pub use setup_block::setup_body;
pub use times::FileTimes;
