//! Why the setup of a file is refused.

use crate::keys::KeyFault;
use thiserror::Error;

/// Why a text is no setup of a file: the first fault, in the order of the keys in
/// [`FileSettings`](super::FileSettings).
#[derive(Debug, Drop, Error)]
pub enum SetupFault {
    /// The text is no TOML document.
    #[error("setup 1 Syntax")]
    Syntax,
    /// A table has a key that means nothing; the least of them by its bytes.
    #[error("setup 2 Unknown {key}")]
    Unknown { key: String },
    /// A table lacks a key that it must have.
    #[error("setup 3 Missing {key}")]
    Missing { key: &'static str },
    /// What a key has is of another type, out of its range, or already taken.
    #[error("setup 4 Value {key}")]
    Value { key: &'static str },
    /// Out of memory.
    #[error("memory")]
    Memory,
}

impl From<KeyFault> for SetupFault {
    ghost use Rattle.std.specs.Prelude.{◌≡◌};
    ghost use Rattle.rec_words.specs.SetupViews.{setup_fault};

    ghost from_gives = { λ of_key fault. fault ≡ setup_fault of_key };

    fn from(fault: KeyFault) -> SetupFault {
        match fault {
            KeyFault::Unknown { key } => SetupFault::Unknown { key },
            KeyFault::Missing { key } => SetupFault::Missing { key },
            KeyFault::Value { key } => SetupFault::Value { key },
            KeyFault::Memory => SetupFault::Memory,
        }
    }
}
