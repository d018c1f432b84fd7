//! The verifier of filter programs: which programs may be installed, and a path as the proof of
//! an unset scratch word.
#![tactic(auto)]

mod fault;
mod flaw;
mod flow;
mod laws;
mod masks;
mod path;
mod verified;
mod verifier;

pub use fault::{Refused, VerifyFault};
pub use laws::a_valid_program_stays_valid;
pub use path::check_path;
pub use verified::Verified;
pub use verifier::verify;
