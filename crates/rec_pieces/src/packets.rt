//! Packets that are read at their places.

ghost use Rattle.std.specs.Prelude.{◌≡◌};
ghost use Rattle.std.specs.Option.{option_map};
ghost use Rattle.rec_pieces.specs.Entries.{places_of};

use crate::placed::{FileAt, PlacedRead};
use ch11_merge::PieceFault;
use rec_reader::{OwnedPacket, ReadFaultKind, Reader};
use std::alloc::Global;

/// The packets of a recording, which are read at their places.
pub trait PacketsAt {
    ghost use Rattle.std.specs.Prelude.{Option, IfOk, IfSome};
    ghost use Rattle.rec_pieces.specs.Entries.{IsThere, PacketPlaces};

    // What is read at each place: `None` where it doesn't say that.
    ghost there: { Self → Option PacketPlaces };

    /// The packet at a place.
    ///
    /// # Errors
    ///
    /// [`PieceFault::Device`] if there is none, and [`PieceFault::Memory`] if there was no memory for it.
    fn packet_at(&self, alloc: Global, at: u64) -> Result<OwnedPacket, PieceFault>
        ensures { IfOk result (λ packet. IfSome (there self.now) (λ places.
            IsThere (places at) packet)) };
}

/// The packets of a recording's file.
#[derive(Debug, Drop)]
pub struct FilePackets<'f, F> {
    file: &'f F,
}

impl<'f, F: PlacedRead> FilePackets<'f, F> {
    /// Those of this file.
    pub fn new(file: &'f F) -> FilePackets<'f, F>
        ensures { ⟦<FilePackets<'f, F> as PacketsAt>⟧.there result
            ≡ option_map places_of (F.held file.entry.now) }
    {
        FilePackets { file }
    }
}

impl<'f, F: PlacedRead> PacketsAt for FilePackets<'f, F> {
    ghost use Rattle.std.specs.Option.{option_map};
    ghost use Rattle.rec_pieces.specs.Entries.{places_of};

    ghost there = { λ p. option_map places_of (F.held p.file.now) };

    fn packet_at(&self, alloc: Global, at: u64) -> Result<OwnedPacket, PieceFault> {
        let mut reader = Reader::new(alloc, FileAt::new(self.file, at));
        match reader.next() {
            Ok(Some(packet)) => Ok(packet),
            // the recording is shorter than before
            Ok(None) => Err(PieceFault::Device),
            Err(end) => match end.kind {
                ReadFaultKind::Memory => Err(PieceFault::Memory),
                _ => Err(PieceFault::Device),
            },
        }
    }
}
