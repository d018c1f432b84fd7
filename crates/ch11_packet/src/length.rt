//! How long a packet is.
ghost use Rattle.std.specs.Prelude.{◌≡◌, ◌^◌, ◌<◌};
ghost use Rattle.ch11_packet.specs.PacketLen.{packet_len, written_len};
ghost use Rattle.ch11_packet.specs.Profiles.Profile.{WithSum};

use crate::header::HEADER_LEN;
use crate::sum::CHECKSUM_LEN;

/// The length of a packet with `data_len` bytes of data, in bytes: with its header and its filler,
/// and without its data checksum. A limit counts this.
pub fn packet_len(data_len: usize) -> usize
    requires { packet_len data_len < 2 ^ 64 }
    ensures { result ≡ packet_len data_len }
{
    (HEADER_LEN + data_len).next_multiple_of(4)
}

/// The length of a packet with `data_len` bytes of data as it is written, in bytes: with its header,
/// its filler and its data checksum.
pub fn written_len(data_len: usize) -> usize
    requires { written_len WithSum data_len < 2 ^ 64 }
    ensures { result ≡ written_len WithSum data_len }
{
    packet_len(data_len) + CHECKSUM_LEN
}
