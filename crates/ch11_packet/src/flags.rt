//! The flags of a packet.
ghost use Rattle.std.specs.Prelude.{◌≡◌, ◌<◌, ◌↔◌, IsTrue};
ghost use Rattle.ch11_packet.specs.Flags.{has_bit, HasChecksum, IsPlain};

/// The bit of the flags that reports a secondary header.
const SECONDARY_HEADER: u32 = 7;

/// The bit of the flags that reports times in a secondary header's format.
const SECONDARY_TIMES: u32 = 6;

/// The two bits of the flags that report a data checksum: both are set for one of 32 bits.
const CHECKSUM_HIGH: u32 = 1;

const CHECKSUM_LOW: u32 = 0;

/// Whether a packet with these flags has no secondary header, no times in its format, and no data
/// checksum but one of 32 bits.
pub(crate) fn is_plain(flags: u8) -> bool
    ensures { IsTrue result ↔ IsPlain flags }
{
    !has_flag(flags, SECONDARY_HEADER)
        && !has_flag(flags, SECONDARY_TIMES)
        && has_flag(flags, CHECKSUM_HIGH) == has_flag(flags, CHECKSUM_LOW)
}

/// Whether a packet with these flags has a data checksum of 32 bits.
pub(crate) fn has_checksum(flags: u8) -> bool
    ensures { IsTrue result ↔ HasChecksum flags }
{
    has_flag(flags, CHECKSUM_HIGH) && has_flag(flags, CHECKSUM_LOW)
}

/// Whether this bit of the flags is set.
fn has_flag(flags: u8, bit: u32) -> bool
    requires { bit < 8 }
    ensures { result ≡ has_bit flags bit }
{
    (flags >> bit) % 2 == 1
}
