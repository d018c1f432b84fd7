//! A valid program, by its type.
ghost use Rattle.std.specs.Prelude.{◌≡◌, ◌<◌, ◌≤◌, ◌↔◌, length, IsTrue};
ghost use Rattle.bpf_insn.specs.Bytes.{AreInRange};
ghost use Rattle.bpf_verify.specs.Validity.{Valid};

use bpf_insn::{Insn, MAX_INSNS};
use std::marker::Model;

/// A valid program: it may run on every frame.
#[derive(Debug, Drop)]
pub struct Verified {
    insns: Vec<Insn>,
}

impl Model for Verified {
    ghost use Rattle.std.specs.Prelude.{List};
    ghost use Rattle.bpf_insn.specs.declared.insn.Insn.{Insn};
    ghost use Rattle.bpf_insn.specs.Bytes.{AreInRange};
    ghost use Rattle.bpf_verify.specs.Validity.{Valid};

    ghost Value = { List Insn };

    ghost view = { λ v. v.insns.items };

    ghost invariant = { λ v. Valid v.insns.items × AreInRange v.insns.items };
}

impl Verified {
    /// A program that was found valid.
    pub(crate) fn new(insns: Vec<Insn>) -> Verified
        requires valid { Valid insns.items }
        requires in_range { AreInRange insns.items }
        ensures program { result ≡ insns.items }
    {
        Verified { insns }
    }

    /// The program's instructions.
    pub fn insns(&self) -> &[Insn]
        ensures program { result.now ≡ self.now }
        ensures valid { Valid self.now }
        ensures in_range { AreInRange self.now }
    {
        self.insns.as_slice()
    }

    /// The number of the program's instructions: 1 to [`bpf_insn::MAX_INSNS`].
    #[allow(clippy::len_without_is_empty)]
    pub fn len(&self) -> usize
        ensures length { result ≡ length self.now }
        ensures some { 0 < result }
        ensures fits { result ≤ MAX_INSNS }
    {
        self.insns.len()
    }

    /// Whether both are the same program.
    pub fn same(&self, other: &Verified) -> bool
        ensures decides { IsTrue result ↔ (self.now ≡ other.now) }
    {
        are_same(self.insns(), other.insns())
    }
}

/// Whether two lists of instructions are the same.
fn are_same(insns: &[Insn], others: &[Insn]) -> bool
    ensures decides { IsTrue result ↔ (insns.now ≡ others.now) }
{
    insns == others
}
