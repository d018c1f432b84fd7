//! A caller of `bpf_verify`, as its page has it.

use bpf_insn::parse_listing;
use bpf_verify::{VerifyFault, check_path, verify};

/// Says whether a listed program may be installed, and of an unset read that its path is one.
pub fn say_verdict(rt: &HostRuntime, listing: &str) -> Result<(), anyhow::Error> {
    match verify(parse_listing(rt.alloc(), listing)?) {
        Ok(verified) => println!(rt; "valid {}", verified.len())?,
        Err(refused) => {
            if let VerifyFault::Unset { word, path, .. } = &refused.fault {
                let unset = check_path(&refused.program, path, *word); // always true
                println!(rt; "unset on this path: {unset}")?;
            }
            println!(rt; "{}", refused.fault)?; // refused 8 Unset 3 0 0 1 3
        }
    }
    Ok(())
}
