//! A caller of `rec_words`, as its page has it.

use rec_words::{SettingsFault, settings_of};
use std::alloc::Global;

/// How many channels are set.
pub fn channels(alloc: Global, text: &str) -> Result<usize, SettingsFault> {
    let settings = settings_of(alloc, text)?;
    Ok(settings.channels.len())
}
