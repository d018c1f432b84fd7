//! What an instruction uses beside its code, by its form: its fields, and the scratch words.
ghost use Rattle.std.specs.Prelude.{ℕ, ◌≡◌, ◌↔◌, Some, IsTrue};
ghost use Rattle.bpf_insn.specs.Uses.{uses_k, uses_distances, FormReadsWord, FormWritesWord};
ghost use Rattle.bpf_insn.specs.declared.insn.Insn.{Insn};

use crate::form::{Form, Src};

/// Whether the form has a constant, an offset into the view, a scratch word's number or a
/// distance in `k`.
pub fn uses_k(form: Form) -> bool
    ensures table { result ≡ uses_k form }
{
    !matches!(
        form,
        Form::LdLen
            | Form::LdxLen
            | Form::Alu(_, Src::X)
            | Form::Neg
            | Form::Test(_, Src::X)
            | Form::RetA
            | Form::Tax
            | Form::Txa
    )
}

/// Whether the form has distances in `jt` and `jf`.
pub fn uses_distances(form: Form) -> bool
    ensures table { result ≡ uses_distances form }
{
    matches!(form, Form::Test(_, _))
}

/// Whether an instruction of this form reads the scratch word `k`.
pub fn reads_scratch(form: Form) -> bool
    ensures decides { (insn : Insn) (word : ℕ)
        → FormReadsWord (Some form) insn word ↔ (IsTrue result × (insn.k ≡ word)) }
{
    matches!(form, Form::LdMem | Form::LdxMem)
}

/// Whether an instruction of this form writes the scratch word `k`.
pub fn writes_scratch(form: Form) -> bool
    ensures decides { (insn : Insn) (word : ℕ)
        → FormWritesWord (Some form) insn word ↔ (IsTrue result × (insn.k ≡ word)) }
{
    matches!(form, Form::St | Form::Stx)
}
