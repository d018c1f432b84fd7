//! The instruction at an index: where it leads, and which scratch word it reads or writes.
ghost use Rattle.std.specs.Prelude.{ℕ, ◌≡◌, ◌↔◌, Some, None, slice_get, IfSome, IfNone, IsTrue};
ghost use Rattle.bpf_insn.specs.Flow.{FormLeads};
ghost use Rattle.bpf_insn.specs.Forms.{form};
ghost use Rattle.bpf_insn.specs.Uses.{FormReadsWord, FormWritesWord};
ghost use Rattle.bpf_insn.specs.declared.insn.Insn.{Insn};
ghost use Rattle.bpf_verify.specs.ControlFlow.{Edge, ReadsWord, WritesWord};
ghost use Rattle.bpf_verify.specs.ByForm.{IsAt};

use bpf_insn::{Form, Insn, Targets, form_of, reads_scratch, successors, writes_scratch};

/// The instruction at an index with its form; `None` if no instruction stands there or it has no
/// form.
pub(crate) fn instruction_at(insns: &[Insn], at: usize) -> Option<(Form, Insn)>
    ensures some { IfSome result (λ r. IsAt insns.now at r.0 r.1) }
    ensures none { IfNone result ((insn : Insn)
        → slice_get insns.now at ≡ Some insn → form insn.code ≡ None) }
{
    let Some(&insn) = insns.get(at) else {
        return None;
    };
    let Some(form) = form_of(insn) else {
        return None;
    };
    Some((form, insn))
}

/// Whether the instruction at an index reads a scratch word.
pub(crate) fn reads(insns: &[Insn], at: u16, word: u32) -> bool
    ensures { IsTrue result ↔ ReadsWord insns.now at word }
{
    match instruction_at(insns, usize::from(at)) {
        Some((form, insn)) => reads_word(form, insn, word),
        None => false,
    }
}

/// Whether an edge leads from one index to another, and the instruction that it leads from does
/// not write the scratch word.
pub(crate) fn leads_unwritten(insns: &[Insn], from: u16, to: u16, word: u32) -> bool
    ensures { IsTrue result ↔ (Edge insns.now from to × (¬ WritesWord insns.now from word)) }
{
    match instruction_at(insns, usize::from(from)) {
        Some((form, insn)) => leads_to(form, insn, from, to) && !writes_word(form, insn, word),
        None => false,
    }
}

/// Whether an instruction leads from its index to another.
fn leads_to(form: Form, insn: Insn, from: u16, to: u16) -> bool
    ensures { IsTrue result ↔ FormLeads (Some form) insn from to }
{
    let to = usize::from(to);
    match successors(form, insn, usize::from(from)) {
        Targets::Nowhere => false,
        Targets::One(next) => to == next,
        Targets::Two(one, other) => to == one || to == other,
    }
}

/// Whether an instruction reads a scratch word.
fn reads_word(form: Form, insn: Insn, word: u32) -> bool
    ensures { IsTrue result ↔ FormReadsWord (Some form) insn word }
{
    reads_scratch(form) && insn.k == word
}

/// Whether an instruction writes a scratch word.
fn writes_word(form: Form, insn: Insn, word: u32) -> bool
    ensures { IsTrue result ↔ FormWritesWord (Some form) insn word }
{
    writes_scratch(form) && insn.k == word
}
