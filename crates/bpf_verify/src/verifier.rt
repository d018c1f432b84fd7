//! The verifier: the conditions of a valid program, one after the other.
ghost use Rattle.std.specs.Prelude.{ℕ, ◌≡◌, ◌+◌, ◌<◌, ◌≤◌, ◌⊎◌, ◌↔◌, length, Some, slice_get, MatchOption, IsOk, IfOk, IfErr, IfNone, IsTrue};
ghost use Rattle.bpf_insn.specs.Bytes.{InRange, AreInRange};
ghost use Rattle.bpf_insn.specs.Forms.{form};
ghost use Rattle.bpf_verify.specs.Validity.{Valid, FormDividesByZero, FormReturns, EndsWithReturn};
ghost use Rattle.bpf_verify.specs.ByForm.{FormUsesWordPastScratch};
ghost use Rattle.bpf_verify.specs.Refusals.{Refuses};
ghost use Rattle.bpf_verify.specs.Flaws.{HasFlaw, BreaksAs, BreaksAt, HasLength, IsWellFormed, NoneBreaksBelow, NoUnsetReadBelow};

use crate::fault::{Refused, VerifyFault};
use crate::flaw::Flaw;
use crate::masks::{first_unset, written_masks};
use crate::path::path_to;
use crate::verified::Verified;
use bpf_insn::{
    Form, Insn, MAX_INSNS, Op, SCRATCH_WORDS, Src, form_of, jumps_out, reads_scratch,
    writes_scratch,
};

/// Takes a valid program, and refuses any other with its first fault: its length, then the least
/// index at which an instruction breaks a condition, then the missing return at its end, then the
/// least index at which an instruction reads a scratch word that some path leaves unset.
///
/// The program is given back either way, and no memory is taken.
pub fn verify(program: Vec<Insn>) -> Result<Verified, Refused>
    ensures decides { IsOk result ↔ Valid program.items }
    ensures accepted { IfOk result (λ v. v ≡ program.items) }
    ensures valid { IfOk result (λ v. Valid v) }
    ensures in_range { IfOk result (λ v. AreInRange v) }
    ensures back { IfErr result (λ r. r.program ≡ program) }
    ensures refused { IfErr result (λ r. Refuses program.items r.fault) }
{
    let insns = program.as_slice();
    match flaw_of(insns) {
        Some(flaw) => {
            let fault = fault_of(insns, flaw);
            Err(Refused { program, fault })
        }
        None => Ok(Verified::new(program)),
    }
}

/// The first flaw of a program.
fn flaw_of(insns: &[Insn]) -> Option<Flaw>
    ensures flaw { MatchOption result (Valid insns.now) (λ flaw. HasFlaw insns.now flaw) }
    ensures in_range { IfNone result (AreInRange insns.now) }
{
    if insns.is_empty() {
        return Some(Flaw::Empty);
    }
    if insns.len() > MAX_INSNS {
        return Some(Flaw::TooLong);
    }
    if let Some(flaw) = first_break(insns) {
        return Some(flaw);
    }
    if !ends_with_return(insns) {
        return Some(Flaw::NoReturn);
    }
    unset_read(insns)
}

/// The refusal of a program that has this flaw, with the path to an unset read.
fn fault_of(insns: &[Insn], flaw: Flaw) -> VerifyFault
    requires { HasFlaw insns.now flaw }
    ensures { Refuses insns.now result }
{
    match flaw {
        Flaw::Empty => VerifyFault::Empty,
        Flaw::TooLong => VerifyFault::TooLong,
        Flaw::BadOpcode(at) => VerifyFault::BadOpcode(at),
        Flaw::BadScratch(at) => VerifyFault::BadScratch(at),
        Flaw::ZeroDivisor(at) => VerifyFault::ZeroDivisor(at),
        Flaw::JumpOut(at) => VerifyFault::JumpOut(at),
        Flaw::NoReturn => VerifyFault::NoReturn,
        Flaw::Unset { at, word } => {
            let masks = written_masks(insns);
            let path = path_to(insns, &masks, at, word);
            VerifyFault::Unset { at, word, path }
        }
    }
}

/// The first instruction that breaks one of the four conditions on single instructions.
fn first_break(insns: &[Insn]) -> Option<Flaw>
    requires { HasLength insns.now }
    ensures flaw { MatchOption result
        (NoneBreaksBelow insns.now (length insns.now))
        (λ flaw. HasFlaw insns.now flaw) }
    ensures in_range { IfNone result (AreInRange insns.now) }
{
    'places: for at in 0..insns.len() {
        if let Some(flaw) = break_at(insns, at, insns[at]) {
            return Some(flaw);
        }
    }
    None
}

/// The one of the four conditions on single instructions that instruction `at` breaks.
fn break_at(insns: &[Insn], at: usize, insn: Insn) -> Option<Flaw>
    requires length { HasLength insns.now }
    requires insn { slice_get insns.now at ≡ Some insn }
    requires place { at < length insns.now }
    ensures flaw { MatchOption result
        (¬ BreaksAt insns.now at)
        (λ flaw. BreaksAs insns.now at flaw) }
    ensures in_range { InRange insn }
{
    let place = at as u16;
    let Some(form) = form_of(insn) else {
        return Some(Flaw::BadOpcode(place));
    };
    if uses_word_past_scratch(form, insn) {
        Some(Flaw::BadScratch(place))
    } else if divides_by_zero(form, insn) {
        Some(Flaw::ZeroDivisor(place))
    } else if jumps_out(form, insn, at, insns.len()) {
        Some(Flaw::JumpOut(place))
    } else {
        None
    }
}

/// Whether an instruction reads or writes a scratch word past the last.
fn uses_word_past_scratch(form: Form, insn: Insn) -> bool
    ensures { IsTrue result ↔ FormUsesWordPastScratch form insn }
{
    (reads_scratch(form) || writes_scratch(form)) && insn.k as usize >= SCRATCH_WORDS
}

/// Whether an instruction divides by the constant 0.
fn divides_by_zero(form: Form, insn: Insn) -> bool
    ensures { IsTrue result ↔ FormDividesByZero (Some form) insn }
{
    matches!(form, Form::Alu(Op::Div | Op::Mod, Src::K)) && insn.k == 0
}

/// Whether the last instruction returns.
fn ends_with_return(insns: &[Insn]) -> bool
    requires { 0 < length insns.now }
    ensures { IsTrue result ↔ EndsWithReturn insns.now }
{
    let last = insns[insns.len() - 1];
    returns(form_of(last))
}

/// Whether an instruction of this form returns.
fn returns(form: Option<Form>) -> bool
    ensures { IsTrue result ↔ FormReturns form }
{
    matches!(form, Some(Form::RetK | Form::RetA))
}

/// The first read of a scratch word that some path leaves unset.
fn unset_read(insns: &[Insn]) -> Option<Flaw>
    requires { IsWellFormed insns.now }
    ensures { MatchOption result (NoUnsetReadBelow insns.now (length insns.now))
        (λ flaw. HasFlaw insns.now flaw) }
{
    let masks = written_masks(insns);
    let Some((at, word)) = first_unset(insns, &masks) else {
        return None;
    };
    Some(Flaw::Unset { at, word })
}
