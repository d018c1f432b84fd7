//! How often a stream repeats itself.

/// How many ticks of 100 ns behind a setup record it goes out once more: 10 s.
pub const SETUP_TICKS: u64 = 100_000_000;
