//! Tests of the blocks of pcapng files. Their bytes are by the pcapng specification, worked by hand.

ghost use Rattle.pcapng_blocks.specs.Blocks.{IsBlock};
ghost use Rattle.pcapng_blocks.specs.Views.{block_data};

use pcapng_blocks::*;
use std::alloc::Global;
use std::io;
use std::io::{ErrorKind, Write};
use std::test::Fail;
use test_samples::all_bytes;

/// Takes as many bytes, and then fails.
#[derive(Drop)]
struct Narrow {
    taken: Vec<u8>,
    room: usize,
}

impl Write for Narrow {
    fn write(&mut self, buf: &[u8]) -> io::Result<usize> {
        let count = self.room.min(buf.len());
        if count == 0 {
            return Err(io::Error::from(ErrorKind::StorageFull));
        }
        self.room -= count;
        match self.taken.extend_from_slice(&buf[..count]) {
            Ok(()) => Ok(count),
            Err(_) => Err(io::Error::from(ErrorKind::OutOfMemory)),
        }
    }

    fn flush(&mut self) -> io::Result<()> {
        Ok(())
    }
}

/// Whether a block has these bytes, and an output that fails the first of them.
fn is_written_as(alloc: Global, block: &Block<'_>, text: &str) -> Result<bool, Fail>
    requires { IsBlock (block_data block.now) }
{
    let wanted = all_bytes(alloc, text)?;
    let mut out = Vec::new(alloc);
    let mut holds = write_block(&mut out, block) == Ok(()) && out == wanted;
    for room in 0..wanted.len() {
        let taken = Vec::new(alloc);
        let mut out = Narrow { taken, room };
        holds &= write_block(&mut out, block) == Err(BlockFault::Output);
        holds &= out.taken.as_slice() == &wanted[..room];
    }
    Ok(holds)
}

#[test]
fn a_section_header_has_the_bytes_of_the_specification(rt: HostRuntime) -> Result<(), Fail> {
    let text = "0a0d0d0a 1c000000 4d3c2b1a 0100 0000 ffffffffffffffff 1c000000";
    assert!(rt; is_written_as(rt.alloc(), &Block::Section, text)?);
    Ok(())
}

#[test]
fn an_interface_has_the_bytes_of_the_specification(rt: HostRuntime) -> Result<(), Fail> {
    let block = Block::Interface {
        link_type: LINK_TYPE_ETHERNET,
        snap_len: 262_144,
        options: &[
            BlockOption::InterfaceName(b"eth10"),
            BlockOption::TimeResolution(7),
            BlockOption::FcsLen(4),
            BlockOption::TimeOffset(1_764_590_400),
            BlockOption::Comment(b"four"),
        ],
    };
    let text =
        "01000000 48000000 0100 0000 00000400 0200 0500 6574683130 000000 0900 0100 07 000000 \
            0d00 0100 04 000000 0e00 0800 40832d6900000000 0100 0400 666f7572 00000000 48000000";
    assert!(rt; is_written_as(rt.alloc(), &block, text)?);
    Ok(())
}

#[test]
fn a_packet_has_the_bytes_of_the_specification(rt: HostRuntime) -> Result<(), Fail> {
    // a time of more than 32 bits, and a length that is padded
    let odd = Block::Packet {
        interface: 2,
        time: 0x0000_0102_0304_0506,
        bytes: &[0xaa, 0xbb, 0xcc, 0xdd, 0xee],
        options: &[],
    };
    let text =
        "06000000 28000000 02000000 02010000 06050403 05000000 05000000 aabbccddee 000000 28000000";
    assert!(rt; is_written_as(rt.alloc(), &odd, text)?);
    let marked = Block::Packet {
        interface: 0,
        time: 1,
        bytes: &[0xaa, 0xbb, 0xcc, 0xdd],
        options: &[BlockOption::PacketFlags(CRC_ERROR)],
    };
    let text = "06000000 30000000 00000000 00000000 01000000 04000000 04000000 aabbccdd \
            0200 0400 00000001 00000000 30000000";
    assert!(rt; is_written_as(rt.alloc(), &marked, text)?);
    Ok(())
}
