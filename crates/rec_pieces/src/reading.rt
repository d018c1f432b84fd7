//! The listing of a whole recording.

ghost use Rattle.std.specs.Prelude.{ℕ, ◌≡◌, List, [], IfOk, IfErr};
ghost use Rattle.rec_reader.specs.Readers.{HasRead};
ghost use Rattle.rec_pieces.specs.ListingEnds.{ListsRecording, FailsListing};

use crate::listing::PieceListing;
use rec_reader::{ReadEnd, Reader};
use std::alloc::{AllocError, Global};
use std::io::Read;

/// Why a recording isn't listed.
#[derive(Clone, Copy, Debug, PartialEq, Eq)]
pub enum ListingEnd {
    /// The recording isn't read to its end.
    Reading(ReadEnd),
    /// Out of memory.
    Memory,
}

impl From<ReadEnd> for ListingEnd {
    ghost use Rattle.std.specs.Prelude.{◌≡◌};
    ghost use Rattle.rec_pieces.specs.declared.reading.ListingEnd.TheVariants.{Reading};

    ghost from_gives = { λ end listing. listing ≡ Reading end };

    fn from(end: ReadEnd) -> ListingEnd {
        ListingEnd::Reading(end)
    }
}

impl From<AllocError> for ListingEnd {
    ghost use Rattle.std.specs.Prelude.{◌≡◌};
    ghost use Rattle.rec_pieces.specs.declared.reading.ListingEnd.TheVariants.{Memory};

    ghost from_gives = { λ _ listing. listing ≡ Memory };

    fn from(_error: AllocError) -> ListingEnd {
        ListingEnd::Memory
    }
}

/// Lists the packets of a recording, in one pass with one packet at a time.
///
/// # Errors
///
/// [`ListingEnd::Reading`] if the recording isn't read to its end, and [`ListingEnd::Memory`] if there
/// was no memory for the list.
pub fn list_recording<R: Read>(
    alloc: Global,
    reader: &mut Reader<R>,
) -> Result<PieceListing, ListingEnd>
    ensures whole { IfOk result (λ listing. (recording : List ℕ)
        → HasRead recording [] reader.old → ListsRecording recording listing) }
    ensures fault { IfErr result (λ end. (recording : List ℕ)
        → HasRead recording [] reader.old → FailsListing recording end) }
{
    let mut listing = PieceListing::new(alloc);
    'packets: for _ in 0..u64::MAX {
        let Some(owned) = reader.next()? else {
            return Ok(listing);
        };
        listing.add(alloc, &owned.packet())?;
        reader.give_back(owned);
    }
    // a recording of fewer than 2^64 bytes ends before
    Err(ListingEnd::Memory)
}
