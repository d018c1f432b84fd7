//! Tests, and the bytes that they share.
use crate::shared::bytes;
use bpf_insn::{Insn, parse_listing};
use bpf_verify::verify;
use ch11_packet::*;
use eth_frame::Frame;
use std::alloc::Global;
use std::test::Fail;
use test_samples::all_bytes;

mod class;
mod frames;
mod header;
mod output;
mod records;
mod sum;

/// A broadcast ARP frame without a payload, with its check sequence, and one byte more.
const ARP: &str = "ffffffffffff 020000000001 0806 a1b2c3d4 e5";

/// The body of this frame without its last byte, at counter 16 and with speed 3.
const BODY: &str = "01000000 100000000000 0000 12000003 ffffffffffff 020000000001 0806 a1b2c3d4";

/// The body of the frame of 19 bytes, with its filler.
const ODD_BODY: &str =
    "01000000 100000000000 0000 13000003 ffffffffffff 020000000001 0806 a1b2c3d4 e5 00";

/// Replaces a byte.
fn put(body: &mut [u8], at: usize, value: u8) {
    if let Some(byte) = body.get_mut(at) {
        *byte = value;
    }
}
