//! Packets of a recording (IRIG 106-17 Chapter 11, in this project's profile): the packet header,
//! and the bodies that are written and read.
#![tactic(auto)]

mod class;
mod flags;
mod frames;
mod header;
mod laws;
mod length;
mod limit;
mod output;
mod records;
mod sum;

pub use class::{ClassFault, What, classify};
pub use frames::{
    Blank, BodyFault, DataBody, DataBuilder, FrameWalk, Frames, MAX_SPEED, ReadFrame,
    decode_frames, first_frame, held_frames,
};
pub use header::{
    COMPUTER_GENERATED_DATA, ETHERNET_DATA, HEADER_LEN, Header, HeaderFault,
    MAX_ETHERNET_PACKET_LEN, SYNC_PATTERN,
};
pub use laws::{
    a_frame_fits_if_its_packet_does, a_packet_holds_one_thing, a_sum_goes_on_from_whole_words,
    a_written_packet_has_its_sum, body_has_one_reading, filler_adds_nothing_to_a_sum,
    header_has_one_spelling, least_limit_holds_the_longest_frame, one_changed_byte_changes_the_sum,
    packets_have_their_lengths, record_has_one_reading, the_limits_of_a_packet,
    the_numbers_of_a_body, the_numbers_of_a_header,
};
pub use length::{packet_len, written_len};
pub use limit::{Limit, MAX_LIMIT, MIN_LIMIT};
pub use output::{PACKET_PARTS, write_packet, write_parts};
pub use records::{
    END_RECORD_LEN, INSN_LEN, MAX_PROGRAM_RECORD_LEN, PROGRAM_HEAD_LEN, ProgramRecord,
    RECORD_CHANNEL, Record, RecordFault, decode_record, end_body, program_body,
};
pub use sum::{CHECKSUM_LEN, body_sum};
