//! Instruction forms: what an instruction does, by its code, in one table both ways.
ghost use Rattle.std.specs.Prelude.{◌≡◌};
ghost use Rattle.bpf_insn.specs.Forms.{form, code_of};

use crate::insn::Insn;

/// How many bytes a load takes from the view.
#[derive(Clone, Copy, Debug, PartialEq, Eq)]
pub enum Size {
    /// A word, 4 bytes.
    W,
    /// A half-word, 2 bytes.
    H,
    /// A byte.
    B,
}

/// Where the second operand of an operation or a test comes from.
#[derive(Clone, Copy, Debug, PartialEq, Eq)]
pub enum Src {
    /// The constant `k`.
    K,
    /// The index register `X`.
    X,
}

/// An operation on the accumulator and an operand.
#[derive(Clone, Copy, Debug, PartialEq, Eq)]
pub enum Op {
    Add,
    Sub,
    Mul,
    Div,
    Or,
    And,
    Lsh,
    Rsh,
    Mod,
    Xor,
}

/// What a test asks of the accumulator and an operand.
#[derive(Clone, Copy, Debug, PartialEq, Eq)]
pub enum Cond {
    /// They are equal.
    Eq,
    /// The accumulator is greater.
    Gt,
    /// The accumulator is greater or equal.
    Ge,
    /// They have a set bit in common.
    Set,
}

/// What an instruction does, by its code (bpf(4), "FILTER MACHINE"). The view is the part of a
/// frame that a program sees.
#[derive(Clone, Copy, Debug, PartialEq, Eq)]
pub enum Form {
    /// `A = k`
    LdImm,
    /// `A =` the bytes of the view at `k`
    LdAbs(Size),
    /// `A =` the bytes of the view at `X + k`
    LdInd(Size),
    /// `A = M[k]`
    LdMem,
    /// `A =` the view's length
    LdLen,
    /// `X = k`
    LdxImm,
    /// `X = M[k]`
    LdxMem,
    /// `X =` the view's length
    LdxLen,
    /// `X = 4 * (` the byte of the view at `k` `& 0xf)`
    LdxMsh,
    /// `M[k] = A`
    St,
    /// `M[k] = X`
    Stx,
    /// `A = A op operand`
    Alu(Op, Src),
    /// `A = -A`
    Neg,
    /// Goes on `k` instructions after the next.
    Ja,
    /// Goes on `jt` instructions after the next where the test holds, else `jf`.
    Test(Cond, Src),
    /// Returns `k`.
    RetK,
    /// Returns `A`.
    RetA,
    /// `X = A`
    Tax,
    /// `A = X`
    Txa,
}

/// The form of an instruction, by its code alone; `None` if the code is not legal.
#[inline(always)]
pub fn form_of(insn: Insn) -> Option<Form>
    ensures table { result ≡ form insn.code }
{
    let form = match insn.code {
        0x00 => Form::LdImm,
        0x20 => Form::LdAbs(Size::W),
        0x28 => Form::LdAbs(Size::H),
        0x30 => Form::LdAbs(Size::B),
        0x40 => Form::LdInd(Size::W),
        0x48 => Form::LdInd(Size::H),
        0x50 => Form::LdInd(Size::B),
        0x60 => Form::LdMem,
        0x80 => Form::LdLen,
        0x01 => Form::LdxImm,
        0x61 => Form::LdxMem,
        0x81 => Form::LdxLen,
        0xb1 => Form::LdxMsh,
        0x02 => Form::St,
        0x03 => Form::Stx,
        0x04 => Form::Alu(Op::Add, Src::K),
        0x0c => Form::Alu(Op::Add, Src::X),
        0x14 => Form::Alu(Op::Sub, Src::K),
        0x1c => Form::Alu(Op::Sub, Src::X),
        0x24 => Form::Alu(Op::Mul, Src::K),
        0x2c => Form::Alu(Op::Mul, Src::X),
        0x34 => Form::Alu(Op::Div, Src::K),
        0x3c => Form::Alu(Op::Div, Src::X),
        0x44 => Form::Alu(Op::Or, Src::K),
        0x4c => Form::Alu(Op::Or, Src::X),
        0x54 => Form::Alu(Op::And, Src::K),
        0x5c => Form::Alu(Op::And, Src::X),
        0x64 => Form::Alu(Op::Lsh, Src::K),
        0x6c => Form::Alu(Op::Lsh, Src::X),
        0x74 => Form::Alu(Op::Rsh, Src::K),
        0x7c => Form::Alu(Op::Rsh, Src::X),
        0x84 => Form::Neg,
        0x94 => Form::Alu(Op::Mod, Src::K),
        0x9c => Form::Alu(Op::Mod, Src::X),
        0xa4 => Form::Alu(Op::Xor, Src::K),
        0xac => Form::Alu(Op::Xor, Src::X),
        0x05 => Form::Ja,
        0x15 => Form::Test(Cond::Eq, Src::K),
        0x1d => Form::Test(Cond::Eq, Src::X),
        0x25 => Form::Test(Cond::Gt, Src::K),
        0x2d => Form::Test(Cond::Gt, Src::X),
        0x35 => Form::Test(Cond::Ge, Src::K),
        0x3d => Form::Test(Cond::Ge, Src::X),
        0x45 => Form::Test(Cond::Set, Src::K),
        0x4d => Form::Test(Cond::Set, Src::X),
        0x06 => Form::RetK,
        0x16 => Form::RetA,
        0x07 => Form::Tax,
        0x87 => Form::Txa,
        _ => return None,
    };
    Some(form)
}

/// The code of a form: the one code that has it.
pub fn code_of(form: Form) -> u16
    ensures table { result ≡ code_of form }
{
    match form {
        Form::LdImm => 0x00,
        Form::LdAbs(Size::W) => 0x20,
        Form::LdAbs(Size::H) => 0x28,
        Form::LdAbs(Size::B) => 0x30,
        Form::LdInd(Size::W) => 0x40,
        Form::LdInd(Size::H) => 0x48,
        Form::LdInd(Size::B) => 0x50,
        Form::LdMem => 0x60,
        Form::LdLen => 0x80,
        Form::LdxImm => 0x01,
        Form::LdxMem => 0x61,
        Form::LdxLen => 0x81,
        Form::LdxMsh => 0xb1,
        Form::St => 0x02,
        Form::Stx => 0x03,
        Form::Alu(Op::Add, Src::K) => 0x04,
        Form::Alu(Op::Add, Src::X) => 0x0c,
        Form::Alu(Op::Sub, Src::K) => 0x14,
        Form::Alu(Op::Sub, Src::X) => 0x1c,
        Form::Alu(Op::Mul, Src::K) => 0x24,
        Form::Alu(Op::Mul, Src::X) => 0x2c,
        Form::Alu(Op::Div, Src::K) => 0x34,
        Form::Alu(Op::Div, Src::X) => 0x3c,
        Form::Alu(Op::Or, Src::K) => 0x44,
        Form::Alu(Op::Or, Src::X) => 0x4c,
        Form::Alu(Op::And, Src::K) => 0x54,
        Form::Alu(Op::And, Src::X) => 0x5c,
        Form::Alu(Op::Lsh, Src::K) => 0x64,
        Form::Alu(Op::Lsh, Src::X) => 0x6c,
        Form::Alu(Op::Rsh, Src::K) => 0x74,
        Form::Alu(Op::Rsh, Src::X) => 0x7c,
        Form::Neg => 0x84,
        Form::Alu(Op::Mod, Src::K) => 0x94,
        Form::Alu(Op::Mod, Src::X) => 0x9c,
        Form::Alu(Op::Xor, Src::K) => 0xa4,
        Form::Alu(Op::Xor, Src::X) => 0xac,
        Form::Ja => 0x05,
        Form::Test(Cond::Eq, Src::K) => 0x15,
        Form::Test(Cond::Eq, Src::X) => 0x1d,
        Form::Test(Cond::Gt, Src::K) => 0x25,
        Form::Test(Cond::Gt, Src::X) => 0x2d,
        Form::Test(Cond::Ge, Src::K) => 0x35,
        Form::Test(Cond::Ge, Src::X) => 0x3d,
        Form::Test(Cond::Set, Src::K) => 0x45,
        Form::Test(Cond::Set, Src::X) => 0x4d,
        Form::RetK => 0x06,
        Form::RetA => 0x16,
        Form::Tax => 0x07,
        Form::Txa => 0x87,
    }
}
