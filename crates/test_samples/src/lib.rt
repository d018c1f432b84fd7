//! What the tests of several crates share: a recording's packets and other bytes as hexadecimal texts,
//! programs as listings, comparisons, and a control without changes.
//!
//! `CHECKED` are the packets of a recording of 248 bytes as it is written: of channel 1, which kept the
//! second of two frames. `REJECTING`, `ACCEPTING`, `FRAMES` and `END` are the same packets as the first
//! profile has them, without data checksums: 232 bytes, which are read.
#![tactic(auto)]

mod comparison;
mod control;

use bpf_insn::parse_listing;
use bpf_verify::{Verified, verify};
pub use comparison::{Differing, compared, compared_in};
pub use control::NoChanges;
use std::alloc::Global;
use std::sync::Arc;
use std::test::Fail;

/// The record of a program that keeps nothing.
pub const REJECTING: &str = "25eb 0000 3c000000 24000000 08 00 00 00 100000000000 9deb \
    00000000 43425052 0100 0100 00000000 0000000000000000 0100 0000 0600000000000000";

/// The record of a program that keeps all.
pub const ACCEPTING: &str = "25eb 0000 3c000000 24000000 08 01 00 00 200000000000 adec \
    00000000 43425052 0100 0100 01000000 0100000000000000 0100 0000 0600000001000000";

/// The frame that is kept.
pub const FRAMES: &str = "25eb 0100 3c000000 22000000 08 00 00 68 200000000000 ac53 \
    01000000 200000000000 0000 12000003 ffffffffffff 020000000001 0806 a1b2c3d4 0000";

/// The record of the channel's end.
pub const END: &str = "25eb 0000 34000000 1c000000 08 02 00 00 200000000000 9ded \
    00000000 43425052 0200 0100 0200000000000000 0100000000000000";

/// The same four packets with their data checksums.
pub const CHECKED: [&str; 4] = [
    "25eb 0000 40000000 24000000 08 00 03 00 100000000000 a4eb \
        00000000 43425052 0100 0100 00000000 0000000000000000 0100 0000 0600000000000000 4b425152",
    "25eb 0000 40000000 24000000 08 01 03 00 200000000000 b4ec \
        00000000 43425052 0100 0100 01000000 0100000000000000 0100 0000 0600000001000000 4e425152",
    "25eb 0100 40000000 22000000 08 00 03 68 200000000000 b353 \
        01000000 200000000000 0000 12000003 ffffffffffff 020000000001 0806 a1b2c3d4 0000 fcdaa4b6",
    "25eb 0000 38000000 1c000000 08 02 03 00 200000000000 a4ed \
        00000000 43425052 0200 0100 0200000000000000 0100000000000000 48425152",
];

/// All bytes of a hexadecimal text, in which spaces may stand.
pub fn all_bytes(alloc: Global, text: &str) -> Result<Vec<u8>, Fail> {
    let digits = text.replace(alloc, " ", "")?;
    Ok(hex::decode(alloc, digits.as_str())?)
}

/// All bytes of hexadecimal texts, in which spaces may stand.
pub fn joined_bytes(alloc: Global, texts: &[&str]) -> Result<Vec<u8>, Fail> {
    let mut all = Vec::new(alloc);
    for text in texts {
        all.extend_from_slice(all_bytes(alloc, text)?.as_slice())?;
    }
    Ok(all)
}

/// The program of a listing, which is valid.
pub fn program(alloc: Global, listing: &str) -> Result<Arc<Verified, Global>, Fail> {
    Ok(Arc::new(alloc, verify(parse_listing(alloc, listing)?)?)?)
}
