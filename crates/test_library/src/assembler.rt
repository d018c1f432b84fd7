//! The assembler by subject: tokens and their numbers, lines, whole programs.
use bpf_asm::{AsmFault, assemble};
use bpf_insn::Insn;
use std::test::Fail;

mod lines;
mod programs;
mod tokens;

fn insn(code: u16, jt: u8, jf: u8, k: u32) -> Insn {
    Insn { code, jt, jf, k }
}
