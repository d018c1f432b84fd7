//! How many channels and filters a recording may have, and how far a channel may run ahead.

/// How many versions a channel's history may have.
pub const MAX_VERSIONS: usize = 1024;

/// The most channels of a recording, beside channel 0.
pub const MAX_CHANNELS: usize = 64;

/// The most pieces that a channel's ring may have room for.
pub const MAX_RING: usize = 4096;
