//! Where a time packet stands.

/// The moment that a time packet says, in hundredths of a second since 1970-01-01, and the counter
/// in its header.
#[derive(Clone, Copy, Debug, PartialEq, Eq)]
pub struct TimePoint {
    pub moment: i64,
    pub tick: u64,
}
