//! A counter of 48 bits as its 6 bytes, both ways.
ghost use Rattle.std.specs.Prelude.{◌≡◌, ◌^◌, ◌<◌};
ghost use Rattle.std.specs.Int.{bytes_low_first};
ghost use Rattle.eth_frame.specs.Bytes.{u48_at};

/// The number of bits of a counter.
pub const COUNTER_BITS: u32 = 48;

/// The number of bytes of a counter.
pub const COUNTER_LEN: usize = 6;

/// The 6 bytes of a counter, the lowest first. Bits from the 48th on are left out.
pub fn counter_bytes(counter: u64) -> [u8; COUNTER_LEN]
    ensures bytes { result ≡ bytes_low_first 0 6 counter }
{
    let [c0, c1, c2, c3, c4, c5, _, _] = counter.to_le_bytes();
    [c0, c1, c2, c3, c4, c5]
}

/// The counter of these 6 bytes, the lowest first.
pub fn counter_of(bytes: [u8; COUNTER_LEN]) -> u64
    ensures value { result ≡ u48_at bytes 0 }
    ensures fits { result < 2 ^ 48 }
{
    let [c0, c1, c2, c3, c4, c5] = bytes;
    u64::from_le_bytes([c0, c1, c2, c3, c4, c5, 0, 0])
}
