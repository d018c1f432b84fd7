//! The sum of a packet's data checksum (IRIG 106-17 Chapter 11, packet trailer, 32-bit data checksum).
ghost use Rattle.std.specs.Prelude.{◌≡◌, ◌<◌, length};
ghost use Rattle.ch11_packet.specs.Sums.{body_sum};

/// The number of bytes of a data checksum.
pub const CHECKSUM_LEN: usize = 4;

/// The sum of the words of these bytes, modulo 2^32: of each four of them, the lowest byte first.
/// Where they are no whole words, the fewest zero bytes follow them that make some.
#[tactic(auto, using(crate::proofs::Sums::sum_word))]
pub fn body_sum(bytes: &[u8]) -> u32
    ensures sum { result ≡ body_sum bytes.now }
{
    let mut sum: u32 = 0;
    let mut rest = bytes;
    'words: while let [b0, b1, b2, b3, after @ ..] = rest {
        sum = sum.wrapping_add(u32::from_le_bytes([*b0, *b1, *b2, *b3]));
        rest = after;
    }
    sum.wrapping_add(last_word(rest))
}

/// The number of fewer bytes than a word has, with zero bytes after them.
#[tactic(auto, unfolding(crate::specs::Sums::body_sum))]
fn last_word(bytes: &[u8]) -> u32
    requires { length bytes.now < 4 }
    ensures { result ≡ body_sum bytes.now }
{
    match bytes {
        [] => 0,
        [b0] => u32::from_le_bytes([*b0, 0, 0, 0]),
        [b0, b1] => u32::from_le_bytes([*b0, *b1, 0, 0]),
        [b0, b1, b2, ..] => u32::from_le_bytes([*b0, *b1, *b2, 0]),
    }
}
