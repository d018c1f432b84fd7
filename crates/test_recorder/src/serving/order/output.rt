//! An output that notes each packet, and stalls.

use crate::serving::frames::LONGEST;
use crate::serving::order::calls::Caller;
use crate::serving::order::notes::{Note, Piece};
use ch11_packet::What;
use rec_reader::{Packet, read_recording};
use std::alloc::Global;
use std::io;
use std::io::{ErrorKind, Write};

/// Where a packet's length stands in its header.
const LENGTH: usize = 4;

/// An output that fails at a packet, once it has taken `room` of them.
#[derive(Drop)]
pub(super) struct NotedOutput {
    pub(super) caller: Caller,
    alloc: Global,
    packet: Vec<u8>,
    room: usize,
}

impl NotedOutput {
    /// An output that has taken nothing.
    pub(super) fn new(alloc: Global, caller: Caller, room: usize) -> NotedOutput {
        NotedOutput {
            caller,
            alloc,
            packet: Vec::new(alloc),
            room,
        }
    }

    /// Notes the packet, if it is whole.
    fn note_whole(&mut self) -> io::Result<()> {
        let len = self
            .packet
            .get(LENGTH..)
            .and_then(|rest| rest.first_chunk::<4>());
        let len = len.map_or(0, |bytes| u32::from_le_bytes(*bytes));
        if len == 0 || self.packet.len() < len as usize {
            return Ok(());
        }
        let Some(note) = note_of(self.alloc, self.packet.as_slice()) else {
            return Err(io::Error::from(ErrorKind::InvalidData));
        };
        self.packet.clear();
        self.room = self.room.saturating_sub(1);
        self.caller.note(note);
        Ok(())
    }
}

impl Write for NotedOutput {
    fn write(&mut self, buf: &[u8]) -> io::Result<usize> {
        if self.packet.is_empty() {
            self.caller.note(Note::Begun);
            self.caller.stall();
            if self.room == 0 {
                self.caller.note(Note::Failed);
                return Err(io::Error::from(ErrorKind::StorageFull));
            }
        }
        self.packet.extend_from_slice(buf)?;
        self.note_whole()?;
        Ok(buf.len())
    }

    fn flush(&mut self) -> io::Result<()> {
        self.caller.note(Note::Flushed);
        Ok(())
    }
}

/// What is noted of a packet; `None` if it isn't one of a recording of single frames.
fn note_of(alloc: Global, bytes: &[u8]) -> Option<Note> {
    let recording = read_recording(alloc, bytes).ok()?;
    let [packet] = recording.packets.as_slice() else {
        return None;
    };
    let (channel, piece) = piece_of(packet)?;
    let index = channel.checked_sub(1)?;
    Some(Note::Written(usize::from(index), piece))
}

/// The channel and the piece of a packet.
fn piece_of(packet: &Packet<'_>) -> Option<(u16, Piece)> {
    match packet.what {
        What::Program {
            channel,
            version,
            first,
            ..
        } => {
            let first = u32::try_from(first).ok()?;
            Some((channel, Piece::Program { version, first }))
        }
        What::Frames(1) => {
            let frame = packet.frames()?.frame_at(0)?;
            let number = LONGEST.checked_sub(frame.bytes.len())?;
            let first = u32::try_from(number).ok()?;
            Some((packet.header.channel, Piece::Frames { first }))
        }
        What::End {
            channel,
            offered,
            kept,
            ..
        } => {
            let offered = u32::try_from(offered).ok()?;
            let kept = u32::try_from(kept).ok()?;
            Some((channel, Piece::End { offered, kept }))
        }
        _ => None,
    }
}
