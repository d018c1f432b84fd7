//! Channels, as words name them.

ghost use Rattle.std.specs.Prelude.{ℕ, ◌≤◌, ◌^◌, MatchOption};
ghost use Rattle.cli_streams.specs.Digits.{SaysNumber};

/// The channel that a word names: a number from 0 to 65,535, in decimal digits alone.
pub fn channel_in(word: &str) -> Option<u16>
    ensures { MatchOption result
        ((number : ℕ) → SaysNumber word.now number → 2 ^ 16 ≤ number)
        (λ channel. SaysNumber word.now channel) }
{
    if word.starts_with('+') {
        return None;
    }
    match word.parse() {
        Ok(channel) => Some(channel),
        Err(_) => None,
    }
}
