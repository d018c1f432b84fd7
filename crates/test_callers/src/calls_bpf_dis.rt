//! A caller of `bpf_dis`, as its page has it.

use bpf_dis::text_of;
use bpf_insn::parse_listing;
use std::test::Fail;

/// The text of a listed program.
pub fn text_of_listing(rt: &HostRuntime, listing: &str) -> Result<String, Fail> {
    let program = parse_listing(rt.alloc(), listing)?;
    // Of "2,21 0 0 7,6 0 0 1," it is "jeq #7,L1,L1" and "L1: ret #1".
    Ok(text_of(rt.alloc(), program.as_slice())?)
}
