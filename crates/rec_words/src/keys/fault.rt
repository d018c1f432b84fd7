//! What is wrong with the keys of a table.

use std::alloc::{AllocError, AllocFailed};

/// Why the keys of a table aren't what they must be: the first fault.
#[derive(Drop)]
pub(crate) enum KeyFault {
    /// The table has a key that means nothing; the least of them by its bytes.
    Unknown { key: String },
    /// The table lacks a key that it must have.
    Missing { key: &'static str },
    /// What a key has is of another type, or out of its range.
    Value { key: &'static str },
    /// Out of memory.
    Memory,
}

impl From<AllocError> for KeyFault {
    ghost use Rattle.std.specs.Prelude.{◌≡◌};
    ghost use Rattle.rec_words.specs.declared.keys.fault.KeyFault.TheVariants.{Memory};

    ghost from_gives = { λ _ fault. fault ≡ Memory };

    fn from(_error: AllocError) -> KeyFault {
        KeyFault::Memory
    }
}

impl<T: Drop> From<AllocFailed<T>> for KeyFault {
    ghost use Rattle.std.specs.Prelude.{◌≡◌};
    ghost use Rattle.rec_words.specs.declared.keys.fault.KeyFault.TheVariants.{Memory};

    ghost from_gives = { λ _ fault. fault ≡ Memory };

    fn from(_error: AllocFailed<T>) -> KeyFault {
        KeyFault::Memory
    }
}
