//! The text of a program.

ghost use Rattle.std.specs.Prelude.{◌≡◌, ◌≤◌, ◌<◌, ◌⊎◌, length, MatchResult, IfOk, IfErr, IsErrOf, string_bytes};
ghost use Rattle.bpf_insn.specs.declared.insn.TheConstants.{MAX_INSNS};
ghost use Rattle.bpf_asm.specs.Denotes.{Denotes};
ghost use Rattle.bpf_dis.specs.declared.fault.DisFault.{DisFault};
ghost use Rattle.bpf_dis.specs.Faults.{HasText, IsTextFaultOf};
ghost use Rattle.bpf_dis.specs.ProgramText.{program_text};

use crate::check::first_fault;
use crate::fault::DisFault;
use crate::labels::label_all;
use crate::line::write_line;
use bpf_insn::Insn;
use std::alloc::{AllocError, Global};

/// The text of a program in the language of `bpf_asm`: a line for each instruction, each ended by
/// a line feed, with a label in front where a jump leads there. Numbers are decimal. Of at most
/// [`bpf_insn::MAX_INSNS`] instructions, the text denotes this very program.
///
/// The fault is that of the first instruction that has no line: [`DisFault::NoForm`] where a text
/// can't say it, else [`DisFault::JumpOut`] where it can jump out of the program.
pub fn text_of(alloc: Global, program: &[Insn]) -> Result<String, DisFault>
    // At Ok.
    ensures text { IfOk result (λ text. string_bytes text ≡ program_text program.now) }
    ensures denotes { IfOk result (λ text.
        length program.now ≤ MAX_INSNS → Denotes (string_bytes text) program.now) }
    // At Ok and at each fault: only memory depends on more than the program.
    ensures fault { MatchResult result
        (λ _. HasText program.now)
        (λ fault. (fault ≡ DisFault.Memory) ⊎ IsTextFaultOf program.now fault) }
    ensures first { (fault : DisFault) → IsTextFaultOf program.now fault → IsErrOf result fault }
    // Out of memory: only for a program that has a text, and an instruction.
    ensures memory { IfErr result (λ fault.
        fault ≡ DisFault.Memory → HasText program.now × (0 < length program.now)) }
{
    if let Some(fault) = first_fault(program) {
        return Err(fault);
    }
    Ok(write_lines(alloc, program)?)
}

/// The lines of a program that has a text.
fn write_lines(alloc: Global, program: &[Insn]) -> Result<String, AllocError>
    requires { HasText program.now }
    ensures { MatchResult result
        (λ text. string_bytes text ≡ program_text program.now)
        (λ _. 0 < length program.now) }
{
    let labelled = label_all(alloc, program)?;
    let mut text = String::new(alloc);
    'lines: for at in 0..program.len() {
        write_line(&mut text, labelled[at], program[at], at)?;
    }
    Ok(text)
}
