//! What the callers of a recorder see, noted in one order.

use std::alloc::Global;
use std::sync::Arc;
use std::sync::atomic::AtomicU64;
use std::test::Fail;

/// A piece that a packet holds. A frame is its number on its channel.
#[derive(Clone, Copy, Debug, PartialEq, Eq)]
pub(super) enum Piece {
    /// The program of a version, and the first frame that met it.
    Program { version: u32, first: u32 },
    /// A packet of one frame.
    Frames { first: u32 },
    /// The channel's end: how many frames were offered and kept.
    End { offered: u32, kept: u32 },
}

/// What is seen of a recorder. A channel is its index among the jobs.
#[derive(Clone, Copy, Debug, PartialEq, Eq)]
pub(super) enum Note {
    /// A channel's source is asked.
    Asked(usize),
    /// It gives a frame.
    Gave(usize),
    /// It says that it has ended.
    Ended(usize),
    /// The control is asked.
    ControlAsked,
    /// It gives a channel a filter that keeps each frame, or none.
    Changed(usize, bool),
    /// It says that it has ended.
    ControlEnded,
    /// It is told the version of its change, and the first frame that may meet it.
    Told { version: u32, mark: u32 },
    /// The output is given the first bytes of a packet.
    Begun,
    /// It has taken a packet, which holds this piece of a channel.
    Written(usize, Piece),
    /// It has failed.
    Failed,
    /// It is flushed.
    Flushed,
}

/// The order in which callers note what they see: the next note's number.
pub(super) type Order = Arc<AtomicU64, Global>;

/// A note with its number.
pub(super) type Numbered = (u64, Note);

/// The notes of all callers in one list; a fault if one is missing.
pub(super) fn in_order(alloc: Global, all: &[&[Numbered]]) -> Result<Vec<Note>, Fail> {
    let mut count = 0usize;
    for notes in all {
        count = count.saturating_add(notes.len());
    }
    let mut places = vec![in alloc; None; count]?;
    for notes in all {
        for (number, note) in *notes {
            if let Some(place) = places.get_mut(*number as usize) {
                *place = Some(*note);
            }
        }
    }
    let mut list = Vec::new(alloc);
    for place in places {
        list.push(place.ok_or("each note")?)?;
    }
    Ok(list)
}
