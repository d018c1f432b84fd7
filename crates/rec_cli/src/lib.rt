//! The program `bpfrec` as a function over its words, its input and its outputs.
#![tactic(auto)]

mod entry;
mod several;

pub use cli_streams::{LockFile, ViewFault, view_of};
pub use entry::{program, words_unread};
pub use rec_pieces::PlacedRead;
pub use rec_words::{
    ChannelSettings, Settings, SettingsFault, Words, WordsFault, settings_of, words_of,
};
