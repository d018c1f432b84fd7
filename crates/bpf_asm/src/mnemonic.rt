//! The mnemonics, by their names.

ghost use Rattle.std.specs.Prelude.{◌≡◌};
ghost use Rattle.bpf_asm.specs.Mnemonics.{mnemonic_of, memory_mnemonic_of, jump_mnemonic_of, alu_mnemonic_of, other_mnemonic_of};

use bpf_insn::{Cond, Op};

/// What the first name of an instruction says.
#[derive(Clone, Copy, PartialEq, Eq)]
pub(crate) enum Mnemonic {
    Ld,
    Ldi,
    Ldh,
    Ldb,
    Ldx,
    Ldxi,
    Ldxb,
    St,
    Stx,
    Jmp,
    /// A test: `jeq`, `jgt`, `jge`, `jset`.
    Test(Cond),
    /// The test whose label is taken where it fails: `jne`, `jlt`, `jle`.
    Inverted(Cond),
    Alu(Op),
    Neg,
    Tax,
    Txa,
    Ret,
}

/// The mnemonic that a name is.
pub(crate) fn read_mnemonic(name: &[u8]) -> Option<Mnemonic>
    ensures table { result ≡ mnemonic_of name.now }
{
    memory_mnemonic(name)
        .or(jump_mnemonic(name))
        .or(alu_mnemonic(name))
        .or(other_mnemonic(name))
}

/// The load or store that a name is. Each group of names has its own function, since the proof of a
/// match tells each name from all before it.
fn memory_mnemonic(name: &[u8]) -> Option<Mnemonic>
    ensures table { result ≡ memory_mnemonic_of name.now }
{
    let mnemonic = match name {
        b"ld" => Mnemonic::Ld,
        b"ldi" => Mnemonic::Ldi,
        b"ldh" => Mnemonic::Ldh,
        b"ldb" => Mnemonic::Ldb,
        b"ldx" => Mnemonic::Ldx,
        b"ldxi" => Mnemonic::Ldxi,
        b"ldxb" => Mnemonic::Ldxb,
        b"st" => Mnemonic::St,
        b"stx" => Mnemonic::Stx,
        _ => return None,
    };
    Some(mnemonic)
}

/// The jump or test that a name is.
fn jump_mnemonic(name: &[u8]) -> Option<Mnemonic>
    ensures table { result ≡ jump_mnemonic_of name.now }
{
    let mnemonic = match name {
        b"jmp" | b"ja" => Mnemonic::Jmp,
        b"jeq" => Mnemonic::Test(Cond::Eq),
        b"jgt" => Mnemonic::Test(Cond::Gt),
        b"jge" => Mnemonic::Test(Cond::Ge),
        b"jset" => Mnemonic::Test(Cond::Set),
        b"jneq" | b"jne" => Mnemonic::Inverted(Cond::Eq),
        b"jlt" => Mnemonic::Inverted(Cond::Ge),
        b"jle" => Mnemonic::Inverted(Cond::Gt),
        _ => return None,
    };
    Some(mnemonic)
}

/// The operation on the accumulator that a name is.
fn alu_mnemonic(name: &[u8]) -> Option<Mnemonic>
    ensures table { result ≡ alu_mnemonic_of name.now }
{
    let mnemonic = match name {
        b"add" => Mnemonic::Alu(Op::Add),
        b"sub" => Mnemonic::Alu(Op::Sub),
        b"mul" => Mnemonic::Alu(Op::Mul),
        b"div" => Mnemonic::Alu(Op::Div),
        b"mod" => Mnemonic::Alu(Op::Mod),
        b"and" => Mnemonic::Alu(Op::And),
        b"or" => Mnemonic::Alu(Op::Or),
        b"xor" => Mnemonic::Alu(Op::Xor),
        b"lsh" => Mnemonic::Alu(Op::Lsh),
        b"rsh" => Mnemonic::Alu(Op::Rsh),
        b"neg" => Mnemonic::Neg,
        _ => return None,
    };
    Some(mnemonic)
}

/// The transfer between registers or the return that a name is.
fn other_mnemonic(name: &[u8]) -> Option<Mnemonic>
    ensures table { result ≡ other_mnemonic_of name.now }
{
    let mnemonic = match name {
        b"tax" => Mnemonic::Tax,
        b"txa" => Mnemonic::Txa,
        b"ret" => Mnemonic::Ret,
        _ => return None,
    };
    Some(mnemonic)
}
