//! The packet that an output is given.

use std::alloc::Global;
use std::io;

/// Where the channel of a program's or an end's packet stands.
const RECORD_CHANNEL: usize = 34;

/// The packet that is being written.
#[derive(Drop)]
pub(super) struct OpenPacket {
    bytes: Vec<u8>,
}

impl OpenPacket {
    /// A packet of which nothing was written.
    pub(super) fn new(alloc: Global) -> OpenPacket {
        OpenPacket {
            bytes: Vec::new(alloc),
        }
    }

    /// Adds bytes to the packet; the channel of the packet if it is whole by that.
    pub(super) fn add(&mut self, bytes: &[u8]) -> io::Result<Option<u16>> {
        self.bytes.extend_from_slice(bytes)?;
        let len = u32::from_le_bytes(self.chunk_at(4));
        if len == 0 || self.bytes.len() < len as usize {
            return Ok(None);
        }
        let channel = match self.channel() {
            0 => u16::from_le_bytes(self.chunk_at(RECORD_CHANNEL)),
            channel => channel,
        };
        self.bytes.clear();
        Ok(Some(channel))
    }

    /// The channel ID in the packet's header: 0 for a program and an end.
    pub(super) fn channel(&self) -> u16 {
        u16::from_le_bytes(self.chunk_at(2))
    }

    /// The bytes that stand there; zeros where they weren't written yet.
    fn chunk_at<const N: usize>(&self, at: usize) -> [u8; N] {
        let rest = self.bytes.get(at..).unwrap_or(&[]);
        rest.first_chunk::<N>().copied().unwrap_or([0; N])
    }
}
