//! A caller of `bpf_insn`, as its page has it.

use bpf_insn::{Form, ListingFault, form_of, parse_listing};

/// The number of instructions of a listing that return.
pub fn returns_in(rt: &HostRuntime, listing: &str) -> Result<usize, ListingFault> {
    let program = parse_listing(rt.alloc(), listing)?;
    let mut count = 0usize;
    for insn in &program {
        if matches!(form_of(*insn), Some(Form::RetK | Form::RetA)) {
            count = count.saturating_add(1);
        }
    }
    Ok(count)
}
