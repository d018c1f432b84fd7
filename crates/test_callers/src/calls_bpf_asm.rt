//! A caller of `bpf_asm`, as its page has it.

use bpf_asm::{AsmFault, assemble};
use bpf_insn::Insn;

/// The filter that accepts the frames of one EtherType.
pub fn filter_of(rt: &HostRuntime, ether_type: u16) -> Result<Vec<Insn>, AsmFault> {
    let text = format!(in rt.alloc(); "ldh [12]\njne #{ether_type}, drop\nret #-1\ndrop: ret #0")?;
    assemble(rt.alloc(), text.as_str())
}
