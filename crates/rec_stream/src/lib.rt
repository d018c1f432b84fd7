//! A recording as a stream of packets of a whole Chapter 11 file (IRIG 106-17 Chapter 11): each goes out as soon as it
//! can, while the recording grows.
#![tactic(auto)]

mod channels;
mod counts;
mod course;
mod due;
mod end;
mod laws;
mod limits;
mod made;
mod named;
mod origin;
mod packet;
mod pieces;
mod sent;
mod stage;
mod time;
mod waiting;
mod writing;

pub use counts::StreamCounts;
pub use end::{StreamEnd, StreamRefusal};
pub use laws::{
    a_stream_grows_with_its_recording, a_stream_is_read_back, a_stream_is_well_formed,
    a_stream_keeps_each_channel, no_piece_of_a_steady_stream_is_late,
    setup_records_of_a_stream_say_its_channels, times_of_a_stream_are_the_clocks,
};
pub use limits::SETUP_TICKS;
pub use writing::write_stream;
