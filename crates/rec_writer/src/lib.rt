//! The writer of a recording: pieces of channels to bytes. Each piece is one packet, which has gone
//! to the output when the call that put it returns.
#![tactic(auto)]

mod fault;
mod laws;
mod numbers;
mod packet;
mod writer;

pub use fault::WriteFault;
pub use laws::{
    a_channel_of_no_frames_is_recorded_as_its_end, a_recording_has_at_most_64_channels,
    a_recording_of_one_channel_is_of_its_pieces, later_pieces_are_written_after_the_others,
    what_a_writer_put_is_a_recording,
};
pub use packet::packet_len;
pub use rec_channel::MAX_CHANNELS;
pub use writer::Writer;
