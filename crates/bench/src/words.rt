//! The words of one part.

use anyhow::{Context, Result};

/// The word at an index, counted from 0.
pub(crate) fn word(words: &[String], at: usize) -> Result<&str> {
    Ok(words.get(at).context("a word is missing")?.as_str())
}

/// The number that the word at an index writes.
pub(crate) fn number(words: &[String], at: usize) -> Result<u64> {
    Ok(word(words, at)?.parse::<u64>()?)
}
