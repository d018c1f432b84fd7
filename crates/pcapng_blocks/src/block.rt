//! The blocks.

use crate::option::BlockOption;

/// The type of a section header block.
pub(crate) const SECTION_HEADER: u32 = 0x0a0d_0d0a;
/// The type of an interface description block.
pub(crate) const INTERFACE_DESCRIPTION: u32 = 1;
/// The type of an enhanced packet block.
pub(crate) const ENHANCED_PACKET: u32 = 6;

/// The number by which a reader finds the order of bytes.
pub(crate) const BYTE_ORDER_MAGIC: u32 = 0x1a2b_3c4d;
/// The major version of the format.
pub(crate) const MAJOR_VERSION: u16 = 1;
/// The minor version of the format.
pub(crate) const MINOR_VERSION: u16 = 0;

/// The link type of Ethernet frames.
pub const LINK_TYPE_ETHERNET: u16 = 1;

/// A block. The section of a header goes to the file's end, with the lowest byte of each number
/// first.
#[derive(Clone, Copy, Debug, PartialEq, Eq)]
pub enum Block<'a> {
    /// A section header. The interfaces behind it are numbered from 0.
    Section,
    /// An interface of the section.
    Interface {
        /// What its packets are, as [`LINK_TYPE_ETHERNET`].
        link_type: u16,
        /// The greatest number of bytes that is captured of a packet. 0 is no limit.
        snap_len: u32,
        /// Its options.
        options: &'a [BlockOption<'a>],
    },
    /// A packet, with all of its bytes.
    Packet {
        /// The number of its interface.
        interface: u32,
        /// Its time, in its interface's unit.
        time: u64,
        /// Its bytes.
        bytes: &'a [u8],
        /// Its options.
        options: &'a [BlockOption<'a>],
    },
}
