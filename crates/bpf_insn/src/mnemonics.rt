//! The mnemonics of loads, operations and tests in the text of the Linux kernel's `bpf_asm`.
ghost use Rattle.std.specs.Prelude.{◌≡◌};
ghost use Rattle.bpf_insn.specs.Mnemonics.{load_name, op_name, cond_name};

use crate::form::{Cond, Op, Size};

/// The mnemonic of a load into the accumulator.
pub fn load_mnemonic(size: Size) -> &'static str
    ensures table { result.now ≡ load_name size }
{
    match size {
        Size::W => "ld",
        Size::H => "ldh",
        Size::B => "ldb",
    }
}

/// The mnemonic of an operation.
pub fn op_mnemonic(op: Op) -> &'static str
    ensures table { result.now ≡ op_name op }
{
    match op {
        Op::Add => "add",
        Op::Sub => "sub",
        Op::Mul => "mul",
        Op::Div => "div",
        Op::Or => "or",
        Op::And => "and",
        Op::Lsh => "lsh",
        Op::Rsh => "rsh",
        Op::Mod => "mod",
        Op::Xor => "xor",
    }
}

/// The mnemonic of a test.
pub fn cond_mnemonic(cond: Cond) -> &'static str
    ensures table { result.now ≡ cond_name cond }
{
    match cond {
        Cond::Eq => "jeq",
        Cond::Gt => "jgt",
        Cond::Ge => "jge",
        Cond::Set => "jset",
    }
}
