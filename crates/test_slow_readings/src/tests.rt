//! The code beside its slow readings.

mod audit;
mod lane;
mod machine;
mod spans;
mod standing;
mod strangers;
mod sums;
mod verifier;
mod world;
