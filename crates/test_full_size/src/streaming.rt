//! The recording as a stream, beside the reading of all its bytes.

use rec_reader::{Packet, Reader, Recording};
use std::alloc::Global;
use std::io;
use std::io::Read;

/// The lengths of the pieces, one after the other and then again.
const PIECES: [usize; 7] = [1, 23, 24, 25, 4_093, 65_521, 65_537];

/// Gives bytes in odd pieces.
#[derive(Drop)]
struct Pieces<'a> {
    rest: &'a [u8],
    calls: usize,
}

impl Read for Pieces<'_> {
    fn read(&mut self, buf: &mut [u8]) -> io::Result<usize> {
        let most = PIECES.get(self.calls % PIECES.len()).copied().unwrap_or(1);
        self.calls = self.calls.wrapping_add(1);
        let count = most.min(self.rest.len()).min(buf.len());
        let (front, rest) = self.rest.split_at(count);
        buf[..count].copy_from_slice(front);
        self.rest = rest;
        Ok(count)
    }
}

/// Reads the recording as a stream. How many packets come: `None` unless they are the same, and then
/// the end.
pub(crate) fn stream(alloc: Global, bytes: &[u8], recording: &Recording<'_>) -> Option<u64> {
    let rest = bytes;
    let mut reader = Reader::new(alloc, Pieces { rest, calls: 0 });
    for packet in recording.packets() {
        if !gives(&mut reader, Some(packet)) {
            return None;
        }
    }
    if gives(&mut reader, None) {
        Some(recording.packets().len() as u64)
    } else {
        None
    }
}

/// Whether this packet comes next, or the end.
fn gives(reader: &mut Reader<Pieces<'_>>, wanted: Option<&Packet<'_>>) -> bool {
    match reader.next() {
        Ok(Some(owned)) => match wanted {
            Some(packet) => owned.packet() == *packet,
            None => false,
        },
        Ok(None) => wanted.is_none(),
        Err(_) => false,
    }
}
