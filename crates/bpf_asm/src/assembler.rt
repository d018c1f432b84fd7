//! From a text to its program: the two passes, one after the other.

ghost use Rattle.std.specs.Prelude.{◌≡◌, ◌≤◌, ◌<◌, ◌⊎◌, vec_len, IfOk, IfErr};
ghost use Rattle.std.specs.Option.{option_copied};
ghost use Rattle.bpf_insn.specs.declared.insn.TheConstants.{MAX_INSNS as most};
ghost use Rattle.bpf_asm.specs.Blanked.{without_comments, lines_of};
ghost use Rattle.bpf_asm.specs.Denotes.{Denotes};
ghost use Rattle.bpf_asm.specs.FirstFault.{FirstFault, DenotesNone, KeepsSomething};
ghost use Rattle.bpf_asm.specs.Drafts.{ReadsLines, LinksAll, LinksInsn, LinksTarget, LinksLabel};

use crate::draft::{Draft, Unlinked};
use crate::fault::AsmFault;
use crate::labels::LabelTable;
use crate::line::next_line;
use crate::template::{Jump, Template};
use crate::text::Text;
use bpf_insn::{Insn, code_of};
use std::alloc::Global;

/// The program of a text in the language of the Linux kernel's `bpf_asm` (Linux networking
/// documentation, "Linux Socket Filtering"), or the text's first fault.
///
/// The faults of lines come first, in the text's order; then labels that no instruction follows;
/// then, jump by jump, the labels that jumps name. An empty text is the empty program.
pub fn assemble(alloc: Global, text: &str) -> Result<Vec<Insn>, AsmFault>
    // At Ok.
    ensures program { IfOk result (λ program. Denotes text.now program.items) }
    // At a fault: only memory depends on more than the text.
    ensures refused { IfErr result (λ fault.
        (fault ≡ AsmFault.Memory) ⊎ (FirstFault text.now fault × DenotesNone text.now)) }
    // Out of memory: only for a label or an instruction, after lines without a fault.
    ensures memory { IfErr result (λ fault.
        fault ≡ AsmFault.Memory → KeepsSomething (lines_of (without_comments text.now))) }
{
    let draft = read_lines(alloc, text)?;
    if let Some(line) = draft.unfollowed {
        return Err(AsmFault::Syntax { line });
    }
    link(alloc, &draft)
}

/// The first pass: the instructions with their labels left open, and the labels.
fn read_lines<'a>(alloc: Global, text: &'a str) -> Result<Draft<'a>, AsmFault>
    ensures lines { ReadsLines (lines_of (without_comments text.now)) result }
    ensures memory { IfErr result (λ fault.
        fault ≡ AsmFault.Memory → KeepsSomething (lines_of (without_comments text.now))) }
{
    let mut draft = Draft::new(alloc);
    let mut rest = Text::of(text);
    let mut line = 1;
    'lines: loop {
        draft.add_line(rest, line)?;
        let Some(after) = next_line(rest) else {
            return Ok(draft);
        };
        rest = after;
        line += 1;
    }
}

/// The second pass: the instructions with offsets in place of labels.
fn link(alloc: Global, draft: &Draft<'_>) -> Result<Vec<Insn>, AsmFault>
    requires { vec_len draft.now.insns ≤ most }
    ensures program { LinksAll draft.now result }
    ensures memory { IfErr result (λ fault.
        fault ≡ AsmFault.Memory → 0 < vec_len draft.now.insns) }
{
    let mut program = Vec::new(alloc);
    'insns: for unlinked in &draft.insns {
        let insn = link_insn(&draft.labels, unlinked, program.len() as u32)?;
        program.push(insn)?;
    }
    Ok(program)
}

/// The instruction with this index, with offsets in place of labels.
fn link_insn(labels: &LabelTable<'_>, unlinked: &Unlinked<'_>, at: u32) -> Result<Insn, AsmFault>
    ensures { LinksInsn labels.now at unlinked.now result }
{
    let Template { form, k, jump } = unlinked.template;
    let line = unlinked.line;
    let (jt, jf, k) = match jump {
        Jump::NoJump => (0, 0, k),
        Jump::Always(name) => (0, 0, offset(labels, name, at, line)?),
        Jump::Branch(holds, fails) => {
            let jt = short_offset(labels, holds, at, line)?;
            let jf = short_offset(labels, fails, at, line)?;
            (jt, jf, k)
        }
    };
    let code = code_of(form);
    Ok(Insn { code, jt, jf, k })
}

/// The offset in a test, which is a byte; a label that is left out is the next instruction.
fn short_offset(
    labels: &LabelTable<'_>,
    target: Option<&[u8]>,
    at: u32,
    line: usize,
) -> Result<u8, AsmFault>
    ensures { LinksTarget labels.now at line (option_copied target.entry) result }
{
    let Some(name) = target else {
        return Ok(0);
    };
    let offset = offset(labels, name, at, line)?;
    if offset > 255 {
        return Err(AsmFault::TooFar { line });
    }
    Ok(offset as u8)
}

/// How many instructions lie between the one with this index and a label.
fn offset(labels: &LabelTable<'_>, name: &[u8], at: u32, line: usize) -> Result<u32, AsmFault>
    ensures { LinksLabel labels.now at line name.now result }
{
    let Some(target) = labels.index_of(name) else {
        return Err(AsmFault::LabelMissing { line });
    };
    if target <= at {
        return Err(AsmFault::Backward { line });
    }
    Ok(target - at - 1)
}
