//! How long a packet of Ethernet data may get.
use crate::frames::{BODY_WORD_LEN, FRAME_HEADER_LEN};
use crate::header::{HEADER_LEN, MAX_ETHERNET_PACKET_LEN};
use crate::sum::CHECKSUM_LEN;
use eth_frame::MAX_FRAME_LEN;
use std::marker::Model;

/// The least limit of a packet's length, in bytes: that of a packet with the longest frame, rounded
/// up to a multiple of 4, without its data checksum.
pub const MIN_LIMIT: u32 = ((HEADER_LEN + BODY_WORD_LEN + FRAME_HEADER_LEN + MAX_FRAME_LEN + 3) / 4
    * 4) as u32;

/// The greatest limit of a packet's length, in bytes: with its data checksum the packet isn't longer
/// than [`MAX_ETHERNET_PACKET_LEN`].
pub const MAX_LIMIT: u32 = MAX_ETHERNET_PACKET_LEN - CHECKSUM_LEN as u32;

/// How long a packet of Ethernet data may get without its data checksum, in bytes: from
/// [`MIN_LIMIT`] to [`MAX_LIMIT`].
#[derive(Clone, Copy, Debug, PartialEq, Eq)]
pub struct Limit {
    bytes: u32,
}

impl Model for Limit {
    ghost use Rattle.std.specs.Prelude.{ℕ, ◌≤◌};
    ghost use Rattle.ch11_packet.specs.declared.limit.TheConstants.{MIN_LIMIT, MAX_LIMIT};

    ghost Value = { ℕ };

    ghost view = { λ l. l.bytes };

    ghost invariant = { λ l. (MIN_LIMIT ≤ l.bytes) × (l.bytes ≤ MAX_LIMIT) };

    ghost inverse = { λ n. record { bytes = n } };
}

impl Limit {
    ghost use Rattle.std.specs.Prelude.{◌≡◌, ◌≤◌, ◌↔◌, IsSome, IfSome};

    /// A limit of `bytes` bytes: `None` below [`MIN_LIMIT`] and above [`MAX_LIMIT`].
    pub fn new(bytes: u32) -> Option<Limit>
        ensures in_range { IsSome result ↔ ((MIN_LIMIT ≤ bytes) × (bytes ≤ MAX_LIMIT)) }
        ensures value { IfSome result (λ limit. limit ≡ bytes) }
    {
        if !(MIN_LIMIT..=MAX_LIMIT).contains(&bytes) {
            return None;
        }
        Some(Limit { bytes })
    }

    /// The limit in bytes.
    pub fn get(self) -> u32
        ensures value { result ≡ self }
        ensures least { MIN_LIMIT ≤ result }
        ensures most { result ≤ MAX_LIMIT }
    {
        self.bytes
    }
}
