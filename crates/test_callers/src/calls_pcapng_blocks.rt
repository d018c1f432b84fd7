//! A caller of `pcapng_blocks`, as its page has it.

ghost use Rattle.std.specs.Prelude.{◌<◌, ◌^◌, length};

use pcapng_blocks::{Block, BlockFault, BlockOption, LINK_TYPE_ETHERNET, write_block};
use std::io::Write;

/// Writes a capture of one Ethernet frame, of which the time is in seconds since 1970.
pub fn write_capture<W: Write>(out: &mut W, frame: &[u8], seconds: u64) -> Result<(), BlockFault>
    requires { length frame.now < 2 ^ 16 }
{
    write_block(out, &Block::Section)?;
    let interface = Block::Interface {
        link_type: LINK_TYPE_ETHERNET,
        snap_len: 0,
        options: &[BlockOption::TimeResolution(0)],
    };
    write_block(out, &interface)?;
    let packet = Block::Packet {
        interface: 0,
        time: seconds,
        bytes: frame,
        options: &[],
    };
    write_block(out, &packet)
}
