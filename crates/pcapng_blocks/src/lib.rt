//! The blocks of a pcapng file (the capture format of Wireshark and libpcap), written to an output:
//! section headers, interface descriptions and enhanced packets, with their options.
#![tactic(auto)]

mod block;
mod fault;
mod laws;
mod option;
mod output;

pub use block::{Block, LINK_TYPE_ETHERNET};
pub use fault::BlockFault;
pub use laws::{blocks_are_read_back, bytes_hold_one_list_of_blocks};
pub use option::{BlockOption, CRC_ERROR, FLAGS_FCS_LEN_BIT, SYMBOL_ERROR};
pub use output::write_block;
