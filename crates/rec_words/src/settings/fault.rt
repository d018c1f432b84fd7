//! Why settings are refused.

use crate::keys::KeyFault;
use thiserror::Error;

/// Why a text has no settings: the first fault, in the order of the keys in [`Settings`](super::Settings).
#[derive(Debug, Drop, Error)]
pub enum SettingsFault {
    /// The text is no TOML document.
    #[error("settings 1 Syntax")]
    Syntax,
    /// A table has a key that means nothing; the least of them by its bytes.
    #[error("settings 2 Unknown {key}")]
    Unknown { key: String },
    /// A channel lacks a key that it must have.
    #[error("settings 3 Missing {key}")]
    Missing { key: &'static str },
    /// What a key has is of another type, or out of its range.
    #[error("settings 4 Value {key}")]
    Value { key: &'static str },
    /// There is no channel, or there are more than 64.
    #[error("settings 5 Channels")]
    Channels,
    /// A channel has the ID of an earlier one.
    #[error("settings 6 SameChannel {id}")]
    SameChannel { id: u16 },
    /// Out of memory.
    #[error("memory")]
    Memory,
}

impl From<KeyFault> for SettingsFault {
    ghost use Rattle.std.specs.Prelude.{◌≡◌};
    ghost use Rattle.rec_words.specs.SettingsViews.{settings_fault};

    ghost from_gives = { λ of_key fault. fault ≡ settings_fault of_key };

    fn from(fault: KeyFault) -> SettingsFault {
        match fault {
            KeyFault::Unknown { key } => SettingsFault::Unknown { key },
            KeyFault::Missing { key } => SettingsFault::Missing { key },
            KeyFault::Value { key } => SettingsFault::Value { key },
            KeyFault::Memory => SettingsFault::Memory,
        }
    }
}
