//! How far counters of a file may lie apart.

/// How many ticks of 100 ns a header's counter may lie behind one ahead of it: a second.
pub const MAX_TICKS_BACK: u64 = 10_000_000;

/// How many ticks a piece's counter may lie ahead of the greatest that went out: a week.
pub const MAX_TICKS_AHEAD: u64 = 6_048_000_000_000;

/// The greatest length of the packet of a setup record, in bytes.
pub const MAX_SETUP_LEN: usize = 134_217_728;
