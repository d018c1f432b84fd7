//! The sequence numbers of packets.

use std::alloc::{AllocError, Global};
use std::marker::Model;

/// How many channel IDs there are.
const CHANNEL_IDS: usize = 1 << 16;

/// The sequence number of each channel's next packet.
#[derive(Debug, Drop)]
pub struct SequenceNumbers {
    next: Vec<u8>,
}

impl Model for SequenceNumbers {
    ghost use Rattle.std.specs.Prelude.{ℕ, ◌≡◌, ◌^◌, List, length};

    ghost Value = { List ℕ };

    ghost view = { λ n. n.next.items };

    ghost invariant = { λ n. length n.next.items ≡ 2 ^ 16 };
}

impl SequenceNumbers {
    ghost use Rattle.std.specs.Prelude.{ℕ, ◌≡◌, ◌+◌, ◌%◌, ◌<◌, ◌^◌, IfOk, length, slice_index, slice_set};

    /// Numbers that begin at 0. It takes room for each channel ID.
    pub fn new(alloc: Global) -> Result<SequenceNumbers, AllocError>
        ensures len { IfOk result (λ numbers. length numbers ≡ 2 ^ 16) }
        ensures each { IfOk result (λ numbers. (channel : ℕ) → channel < 2 ^ 16
            → slice_index numbers channel ≡ 0) }
    {
        let mut next = Vec::new(alloc);
        next.resize(CHANNEL_IDS, 0)?;
        Ok(SequenceNumbers { next })
    }

    /// The number of a channel's next packet, behind which the next one counts on.
    pub fn take(&mut self, channel: u16) -> u8
        ensures number { result ≡ slice_index self.old channel }
        ensures next { self.new ≡ slice_set self.old channel ((result + 1) % 256) }
    {
        let number = self.next[usize::from(channel)];
        self.next[usize::from(channel)] = number.wrapping_add(1);
        number
    }
}
