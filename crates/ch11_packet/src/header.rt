//! The packet header, both ways.
ghost use Rattle.std.specs.Prelude.{◌≡◌, ◌↔◌, IsTrue, take};
ghost use Rattle.ch11_packet.specs.Header.{IsHeader, LengthsFit, header_of, header_sum};

use crate::flags::has_checksum;
use crate::sum::CHECKSUM_LEN;
use eth_frame::{COUNTER_BITS, counter_bytes, counter_of};
use thiserror::Error;

/// The packet sync pattern: the first two bytes of each packet, the lowest byte first.
pub const SYNC_PATTERN: u16 = 0xeb25;

/// The number of bytes of a packet header.
pub const HEADER_LEN: usize = 24;

/// The number of bytes of a packet header that its checksum covers: eleven words.
pub(crate) const CHECKED_LEN: usize = 22;

/// The data type of Ethernet data, Format 0.
pub const ETHERNET_DATA: u8 = 0x68;

/// The data type of computer-generated data, Format 0.
pub const COMPUTER_GENERATED_DATA: u8 = 0x00;

/// The greatest length of a packet of Ethernet data, in bytes.
pub const MAX_ETHERNET_PACKET_LEN: u32 = 524_288;

/// A packet header (IRIG 106-17 Chapter 11). Its sync pattern and its checksum aren't fields, since
/// they follow from the fields.
#[derive(Clone, Copy, Debug, PartialEq, Eq)]
pub struct Header {
    /// The channel ID.
    pub channel: u16,
    /// The packet length: of the whole packet with this header, its filler and its data checksum,
    /// in bytes. A multiple of 4; for Ethernet data at most [`MAX_ETHERNET_PACKET_LEN`].
    pub packet_len: u32,
    /// The data length: of the packet's body without its trailing filler and its data checksum, in
    /// bytes. At most the packet length without the header, and without the data checksum of 32 bits
    /// where the flags report one.
    pub data_len: u32,
    /// The data type version.
    pub version: u8,
    /// The sequence number: the number of packets of the channel before this one, modulo 256.
    pub sequence: u8,
    /// The packet flags: bits 1 and 0 are both set for a data checksum of 32 bits.
    pub flags: u8,
    /// The data type, as [`ETHERNET_DATA`].
    pub kind: u8,
    /// The relative time counter, below 2^48.
    pub counter: u64,
    pub ghost in_range: { IsHeader
        (header_of channel packet_len data_len version sequence flags kind counter) },
}

/// Why 24 bytes are no packet header, in the order in which faults are looked for.
#[derive(Clone, Copy, Debug, PartialEq, Eq, Error)]
pub enum HeaderFault {
    /// The bytes don't begin with the sync pattern.
    #[error("Sync")]
    Sync,
    /// The last two bytes aren't the sum of the eleven words before them.
    #[error("Checksum")]
    Checksum,
    /// The packet length is below the header's, is no multiple of 4 or too great for the data
    /// type, or the data and the data checksum of 32 bits are more than the packet holds.
    #[error("Length")]
    Length,
}

impl Header {
    ghost use Rattle.std.specs.Prelude.{◌≡◌, ◌↔◌, IsSome, IfSome, IfOk, IsOkAnd, Err};
    ghost use Rattle.ch11_packet.specs.declared.header.HeaderFault.{HeaderFault};
    ghost use Rattle.ch11_packet.specs.Header.{HeaderData, IsHeader, header_of, header_bytes, HeaderHasFault};
    ghost use Rattle.ch11_packet.specs.Views.{header_data};

    /// A header of these fields: `None` if the packet length is below the header's, is no multiple
    /// of 4 or too great for the data type, if the data and the data checksum of 32 bits are more
    /// than the packet holds, or if the counter has more than 48 bits.
    #[allow(clippy::too_many_arguments)]
    pub fn new(
        channel: u16,
        packet_len: u32,
        data_len: u32,
        version: u8,
        sequence: u8,
        flags: u8,
        kind: u8,
        counter: u64,
    ) -> Option<Header>
        ensures in_range { IsSome result
            ↔ IsHeader (header_of channel packet_len data_len version sequence flags kind counter) }
        ensures fields { IfSome result (λ header. header_data header
            ≡ header_of channel packet_len data_len version sequence flags kind counter) }
    {
        if !lengths_fit(flags, kind, packet_len, data_len) || counter >> COUNTER_BITS != 0 {
            return None;
        }
        Some(Header {
            channel,
            packet_len,
            data_len,
            version,
            sequence,
            flags,
            kind,
            counter,
        })
    }

    /// The 24 bytes of the header, each number with its lowest byte first.
    #[tactic(auto, unfolding(crate::specs::Header::header_bytes))]
    pub fn encode(&self) -> [u8; HEADER_LEN]
        ensures bytes { result ≡ header_bytes (header_data self.now) }
    {
        let [s0, s1] = SYNC_PATTERN.to_le_bytes();
        let [c0, c1] = self.channel.to_le_bytes();
        let [p0, p1, p2, p3] = self.packet_len.to_le_bytes();
        let [d0, d1, d2, d3] = self.data_len.to_le_bytes();
        let [t0, t1, t2, t3, t4, t5] = counter_bytes(self.counter);
        let [v0, n0, f0, k0] = [self.version, self.sequence, self.flags, self.kind];
        let mut bytes = [
            s0, s1, c0, c1, p0, p1, p2, p3, d0, d1, d2, d3, v0, n0, f0, k0, t0, t1, t2, t3, t4, t5,
            0, 0,
        ];
        let [low, high] = header_sum(&bytes).to_le_bytes();
        bytes[CHECKED_LEN] = low;
        bytes[CHECKED_LEN + 1] = high;
        bytes
    }

    /// The header of these bytes, or the first fault: the sync pattern, then the checksum, then the
    /// lengths.
    #[tactic(auto, using(crate::proofs::Headers::header_checks))]
    pub fn decode(bytes: &[u8; HEADER_LEN]) -> Result<Header, HeaderFault>
        // At Ok.
        ensures spelled { IfOk result (λ header. bytes.now ≡ header_bytes (header_data header)) }
        ensures read_back { (header : HeaderData) → IsHeader header
            → bytes.now ≡ header_bytes header
            → IsOkAnd result (λ read. header_data read ≡ header) }

        // At a fault.
        ensures fault { (fault : HeaderFault)
            → (result ≡ Err fault) ↔ HeaderHasFault bytes.now fault }
    {
        if u16::from_le_bytes([bytes[0], bytes[1]]) != SYNC_PATTERN {
            return Err(HeaderFault::Sync);
        }
        let sum = u16::from_le_bytes([bytes[CHECKED_LEN], bytes[CHECKED_LEN + 1]]);
        if sum != header_sum(bytes) {
            return Err(HeaderFault::Checksum);
        }
        let channel = u16::from_le_bytes([bytes[2], bytes[3]]);
        let packet_len = u32::from_le_bytes([bytes[4], bytes[5], bytes[6], bytes[7]]);
        let data_len = u32::from_le_bytes([bytes[8], bytes[9], bytes[10], bytes[11]]);
        let counter = counter_of([
            bytes[16], bytes[17], bytes[18], bytes[19], bytes[20], bytes[21],
        ]);
        let [version, sequence, flags, kind] = [bytes[12], bytes[13], bytes[14], bytes[15]];
        let header = Header::new(
            channel, packet_len, data_len, version, sequence, flags, kind, counter,
        );
        header.ok_or(HeaderFault::Length)
    }
}

/// Whether a packet with these flags, of this data type and this length is well formed and holds
/// `data_len` bytes of data and the data checksum of 32 bits that the flags report.
fn lengths_fit(flags: u8, kind: u8, packet_len: u32, data_len: u32) -> bool
    ensures fit { IsTrue result ↔ LengthsFit flags kind packet_len data_len }
{
    let checksum_len = if has_checksum(flags) { CHECKSUM_LEN } else { 0 };
    let Some(room) = packet_len.checked_sub((HEADER_LEN + checksum_len) as u32) else {
        return false;
    };
    let short = kind != ETHERNET_DATA || packet_len <= MAX_ETHERNET_PACKET_LEN;
    data_len <= room && packet_len % 4 == 0 && short
}

/// The header's checksum: the sum of the eleven words before its last, modulo 2^16.
fn header_sum(header: &[u8; HEADER_LEN]) -> u16
    ensures sum { result ≡ header_sum (take CHECKED_LEN header.now) }
{
    let mut sum: u16 = 0;
    let mut rest = &header[..CHECKED_LEN];
    'words: while let [low, high, after @ ..] = rest {
        sum = sum.wrapping_add(u16::from_le_bytes([*low, *high]));
        rest = after;
    }
    sum
}
