//! The recorder theorem, used: a caller of `record` that says what a reader finds.
#![tactic(auto)]

mod used;

pub use used::record_and_find;
