//! The recording's own records in packets of computer-generated data: how they are written and
//! read.
mod decode;
mod encode;
mod record;

use bpf_insn::MAX_INSNS;
pub use decode::{RecordFault, decode_record};
pub use encode::{END_RECORD_LEN, end_body, program_body};
pub use record::{ProgramRecord, Record};

/// The channel ID of the packets of records.
pub const RECORD_CHANNEL: u16 = 0;

/// The tag of the records, in their bytes 4 to 7.
pub(crate) const RECORD_TAG: [u8; 4] = [b'C', b'B', b'P', b'R'];

/// The kind of a program's record.
pub(crate) const PROGRAM_RECORD: u16 = 1;

/// The kind of the record of a channel's end.
pub(crate) const END_RECORD: u16 = 2;

/// The number of bytes with which each record begins, the channel last.
pub(crate) const RECORD_HEAD_LEN: usize = 12;

/// The number of bytes of a program's record before its instructions.
pub const PROGRAM_HEAD_LEN: usize = 28;

/// The number of bytes of an instruction in a program's record.
pub const INSN_LEN: usize = 8;

/// The greatest number of bytes of a program's record that is written.
pub const MAX_PROGRAM_RECORD_LEN: usize = PROGRAM_HEAD_LEN + INSN_LEN * MAX_INSNS;
