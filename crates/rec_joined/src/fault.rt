//! Why a packet isn't moved.

use std::alloc::AllocError;

/// Why a packet has no place in a file of several recordings.
#[derive(Clone, Copy, Debug, PartialEq, Eq)]
pub enum MoveFault {
    /// The file's clock has no counter of 48 bits for the time of one of its counters.
    Gap,
    /// A number of its record doesn't fit its field, once those of the recordings before are added.
    Sum,
    /// It is neither frames nor a record of a channel that the file has.
    Other,
    /// Out of memory.
    Memory,
}

impl From<AllocError> for MoveFault {
    ghost use Rattle.std.specs.Prelude.{◌≡◌};
    ghost use Rattle.rec_joined.specs.declared.fault.MoveFault.TheVariants.{Memory};

    ghost from_gives = { λ _ fault. fault ≡ Memory };

    fn from(_error: AllocError) -> MoveFault {
        MoveFault::Memory
    }
}
