//! Which programs have a text, and the first fault of one that has none.

ghost use Rattle.std.specs.Prelude.{◌≡◌, ◌↔◌, ◌<◌, ◌^◌, All, IsTrue, IfNone, MatchOption};
ghost use Rattle.bpf_insn.specs.Bytes.{InRange, AreInRange};
ghost use Rattle.bpf_insn.specs.Flow.{FormJumpsOut};
ghost use Rattle.bpf_insn.specs.Forms.{form};
ghost use Rattle.bpf_dis.specs.Faults.{UnusedAreZero, FormIsSaid, HasText, IsTextFaultOf, FormHasFault};

use crate::fault::DisFault;
use bpf_insn::{Form, Insn, form_of, jumps_out, uses_distances, uses_k};

/// The first fault of a program that has no text.
pub(crate) fn first_fault(program: &[Insn]) -> Option<DisFault>
    ensures fault { MatchOption result
        (HasText program.now)
        (λ fault. IsTextFaultOf program.now fault) }
    ensures range { IfNone result (AreInRange program.now) }
{
    'insns: for at in 0..program.len() {
        if let Some(fault) = fault_at(program[at], at, program.len()) {
            return Some(fault);
        }
    }
    None
}

/// The fault of the instruction with this index in a program of `len` instructions.
fn fault_at(insn: Insn, at: usize, len: usize) -> Option<DisFault>
    requires { at < 2 ^ 62 }
    ensures range { InRange insn }
    ensures fault { MatchOption result
        (FormIsSaid (form insn.code) insn × ¬ FormJumpsOut len (form insn.code) insn at)
        (λ fault. FormHasFault len (form insn.code) at insn fault) }
{
    let Some(form) = form_of(insn) else {
        return Some(DisFault::NoForm(at));
    };
    if !unused_are_zero(form, insn) {
        Some(DisFault::NoForm(at))
    } else if jumps_out(form, insn, at, len) {
        Some(DisFault::JumpOut(at))
    } else {
        None
    }
}

/// Whether each field that an instruction of this form does not use is 0.
fn unused_are_zero(form: Form, insn: Insn) -> bool
    ensures { IsTrue result ↔ UnusedAreZero form insn }
{
    (uses_k(form) || insn.k == 0) && (uses_distances(form) || (insn.jt == 0 && insn.jf == 0))
}
