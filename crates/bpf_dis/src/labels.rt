//! Which lines of a text have a label: those to which jumps lead.

ghost use Rattle.std.specs.Prelude.{◌≡◌, ◌<◌, ◌^◌, Some, length, IfOk, IfErr};
ghost use Rattle.bpf_insn.specs.Flow.{FormJumpsOut};
ghost use Rattle.bpf_dis.specs.Targets.{LabelsTargets, LabelsAll};
ghost use Rattle.bpf_dis.specs.Faults.{HasText};

use bpf_insn::{Form, Insn, Targets, form_of, jump_targets};
use std::alloc::{AllocError, Global};

/// For each instruction of a program that has a text, whether a jump leads to it.
pub(crate) fn label_all(alloc: Global, program: &[Insn]) -> Result<Vec<bool>, AllocError>
    requires { HasText program.now }
    // At Ok.
    ensures size { IfOk result (λ labelled. length labelled.items ≡ length program.now) }
    ensures targets { IfOk result (λ labelled. LabelsAll program.now labelled.items) }
    // Out of memory: only where there is an instruction.
    ensures memory { IfErr result (λ _. 0 < length program.now) }
{
    let mut labelled = Vec::new(alloc);
    labelled.resize(program.len(), false)?;
    'insns: for at in 0..program.len() {
        let insn = program[at];
        if let Some(form) = form_of(insn) {
            label_targets(&mut labelled, form, insn, at);
        }
    }
    Ok(labelled)
}

/// Adds the indexes to which the instruction with this index may jump.
fn label_targets(labelled: &mut Vec<bool>, form: Form, insn: Insn, at: usize)
    requires at { at < 2 ^ 62 }
    requires inside { ¬ FormJumpsOut (length labelled.old.items) (Some form) insn at }
    ensures size { length labelled.new.items ≡ length labelled.old.items }
    ensures added { LabelsTargets labelled.old.items (Some form) insn at labelled.new.items }
{
    match jump_targets(form, insn, at) {
        Targets::Nowhere => {}
        Targets::One(to) => labelled[to] = true,
        Targets::Two(one, other) => {
            labelled[one] = true;
            labelled[other] = true;
        }
    }
}
