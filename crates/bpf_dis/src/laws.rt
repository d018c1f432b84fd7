//! Laws of the definitions, with nothing to run.

ghost use Rattle.std.specs.Prelude.{ℕ, ◌≡◌, ◌≤◌, ◌↔◌, List, All, IsTrue, length};
ghost use Rattle.bpf_insn.specs.declared.insn.Insn.{Insn};
ghost use Rattle.bpf_insn.specs.declared.insn.TheConstants.{MAX_INSNS};
ghost use Rattle.bpf_insn.specs.Bytes.{AreInRange};
ghost use Rattle.bpf_asm.specs.Denotes.{Denotes};
ghost use Rattle.bpf_asm.specs.FirstFault.{HasFirstFault};
ghost use Rattle.bpf_dis.specs.Faults.{HasText};
ghost use Rattle.bpf_dis.specs.ProgramText.{program_text};
ghost use Rattle.bpf_dis.specs.Targets.{is_target, SomeJumpLeads};

use bpf_asm::{
    a_text_denotes_a_program_or_has_one_first_fault, a_text_denotes_at_most_one_program,
    the_instruction_of_a_line_fits_its_form,
};
use bpf_insn::each_form_has_one_code;

/// Law: the text of a program denotes that program in the assembler's language. A program may have
/// no instruction; one of more than `MAX_INSNS` is beyond that language.
pub fn text_denotes_program()
    ensures { (program : List Insn) → AreInRange program → length program ≤ MAX_INSNS
        → HasText program → Denotes (program_text program) program }
{}

/// Law: the text of a program has no fault and denotes no other program. So the assembler gives
/// that program for it, except where memory runs out.
pub fn the_text_of_a_program_is_assembled_to_it()
    ensures faultless { (program : List Insn) → AreInRange program → length program ≤ MAX_INSNS
        → HasText program → ¬ HasFirstFault (program_text program) }
    ensures program { (program other : List Insn) → AreInRange program → length program ≤ MAX_INSNS
        → HasText program → Denotes (program_text program) other → other ≡ program }
{
    a_text_denotes_a_program_or_has_one_first_fault();
    a_text_denotes_at_most_one_program();
}

/// Law: a program that some text denotes has a text.
pub fn the_program_of_a_text_has_a_text()
    ensures { (text : List ℕ) (program : List Insn) → Denotes text program → HasText program }
{
    each_form_has_one_code();
    the_instruction_of_a_line_fits_its_form();
}

/// Law: the lines with a label are those of the indexes to which an instruction may jump.
pub fn labels_stand_where_jumps_lead()
    ensures { (program : List Insn) (to : ℕ) →
        IsTrue (is_target program to) ↔ SomeJumpLeads program to }
{}
