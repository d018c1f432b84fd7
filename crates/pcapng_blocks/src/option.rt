//! The options of blocks.

ghost use Rattle.std.specs.Prelude.{◌≡◌};
ghost use Rattle.pcapng_blocks.specs.declared.option.BlockOption.TheVariants.{PacketFlags};

/// The code of a comment, in any block (opt_comment).
pub(crate) const COMMENT: u16 = 1;
/// The code of a packet's flags (epb_flags).
pub(crate) const PACKET_FLAGS: u16 = 2;
/// The code of an interface's name (if_name).
pub(crate) const INTERFACE_NAME: u16 = 2;
/// The code of the unit of an interface's times (if_tsresol).
pub(crate) const TIME_RESOLUTION: u16 = 9;
/// The code of the length of an interface's check sequences, in bytes (if_fcslen).
pub(crate) const FCS_LEN: u16 = 13;
/// The code of what is added to an interface's times (if_tsoffset).
pub(crate) const TIME_OFFSET: u16 = 14;

/// The lowest bit of a packet's flags that has the length of its check sequence, in bytes (epb_flags,
/// bits 5 to 8).
pub const FLAGS_FCS_LEN_BIT: u32 = 5;

/// The bit of a packet's flags that reports a wrong check sequence (epb_flags, bit 24).
pub const CRC_ERROR: u32 = 1 << 24;

/// The bit of a packet's flags that reports a wrong symbol on the wire (epb_flags, bit 31).
pub const SYMBOL_ERROR: u32 = 1 << 31;

/// An option of a block. A comment and a name have at most 65,535 bytes.
#[derive(Clone, Copy, Debug, PartialEq, Eq)]
pub enum BlockOption<'a> {
    /// A comment in UTF-8, for any block.
    Comment(&'a [u8]),
    /// An interface's name in UTF-8.
    InterfaceName(&'a [u8]),
    /// The unit of an interface's times: 10^-n seconds for a number n up to 127.
    TimeResolution(u8),
    /// The number of bytes of the frame check sequence (FCS) at the end of each packet.
    FcsLen(u8),
    /// What is added to an interface's times, in seconds, below 2^63.
    TimeOffset(u64),
    /// A packet's flags, as [`CRC_ERROR`].
    PacketFlags(u32),
}

impl Default for BlockOption<'_> {
    /// The flags of a packet without an error: it stands in the free places of an `ArrayVec`.
    fn default() -> Self
        ensures { result ≡ PacketFlags 0 }
    {
        BlockOption::PacketFlags(0)
    }
}
