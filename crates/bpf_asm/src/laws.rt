//! Laws of the definitions, with nothing to run.

ghost use Rattle.std.specs.Prelude.{◌≡◌, ◌↔◌, ◌⊎◌, ℕ, List, Some, Ok, Err};
ghost use Rattle.bpf_insn.specs.declared.insn.Insn.{Insn};
ghost use Rattle.bpf_insn.specs.declared.form.Op.{Op};
ghost use Rattle.bpf_insn.specs.declared.form.Cond.{Cond};
ghost use Rattle.bpf_insn.specs.Mnemonics.{op_name, cond_name};
ghost use Rattle.bpf_asm.specs.declared.mnemonic.Mnemonic.TheVariants.{Alu, Test};
ghost use Rattle.bpf_asm.specs.Mnemonics.{mnemonic_of, LoadNamesAreRead};
ghost use Rattle.bpf_asm.specs.Blanked.{without_comments};
ghost use Rattle.bpf_asm.specs.Comments.{Blanks};
ghost use Rattle.bpf_asm.specs.Lexing.{Spells};
ghost use Rattle.bpf_asm.specs.Tokens.{Token, lexemes};
ghost use Rattle.bpf_asm.specs.Operands.{Operand, operand_of};
ghost use Rattle.bpf_asm.specs.Lines.{insn_of_tokens, reading_of};
ghost use Rattle.bpf_asm.specs.Templates.{Template, FitsForm};
ghost use Rattle.bpf_asm.specs.Grammar.{IsOperand, WritesInsn, Shape, HasShape, shape_reading};
ghost use Rattle.bpf_asm.specs.InsnFaults.{InsnBreaks, HasInsnFault, fault_reading};
ghost use Rattle.bpf_asm.specs.declared.fault.LineFault.{LineFault};
ghost use Rattle.bpf_asm.specs.Denotes.{Denotes, DenotesSome};
ghost use Rattle.bpf_asm.specs.FirstFault.{FirstFault, HasFirstFault};
ghost use Rattle.bpf_asm.specs.declared.fault.AsmFault.{AsmFault};
ghost use Rattle.bpf_asm.specs.Examples.{arp_text, arp_program};

/// Law: a text without its comments is what the comments and the bytes between them say, and
/// nothing else.
pub fn comments_are_blanked()
    ensures { (text shown : List ℕ) → Blanks text shown ↔ (shown ≡ without_comments text) }
{}

/// Law: a line has the tokens that it is put together from, blanks between them, and no others.
pub fn lines_are_cut_into_tokens()
    ensures { (line : List ℕ) (spellings : List (List ℕ)) →
        Spells line spellings ↔ (lexemes line ≡ spellings) }
{}

/// Law: the mnemonics that `bpf_insn` has for loads, operations and tests are read as these.
pub fn mnemonics_of_instructions_are_read()
    ensures loads { LoadNamesAreRead }
    ensures ops { (op : Op) → mnemonic_of (op_name op) ≡ Some (Alu op) }
    ensures conds { (cond : Cond) → mnemonic_of (cond_name cond) ≡ Some (Test cond) }
{}

/// Law: tokens are read as the operand that the grammar has, so they are at most one operand.
pub fn operands_are_read_by_the_grammar()
    ensures { (tokens : List Token) (operand : Operand) →
        (operand_of tokens ≡ Some operand) ↔ IsOperand operand tokens }
{}

/// Law: the instruction of a line has the labels of its form, and a constant that its form doesn't
/// use is 0.
pub fn the_instruction_of_a_line_fits_its_form()
    ensures { (template : Template) (tokens : List Token) →
        WritesInsn template tokens → FitsForm template }
{}

/// Law: a line is read without a fault exactly where the grammar has it, and it has one shape.
pub fn lines_are_read_by_the_grammar()
    ensures grammar { (line : List ℕ) (shape : Shape) →
        (reading_of line ≡ Ok (shape_reading shape)) ↔ HasShape line shape }
    ensures once { (line : List ℕ) (first second : Shape) →
        HasShape line first → HasShape line second → first ≡ second }
{}

/// Law: the fault that is read of an instruction, and of a line after its labels, is exactly the
/// one that the grammar has.
pub fn faults_of_instructions_are_those_of_the_grammar()
    ensures insn { (tokens : List Token) (fault : LineFault) →
        (insn_of_tokens tokens ≡ Err fault) ↔ InsnBreaks tokens fault }
    ensures line { (line : List ℕ) (labels : List (List ℕ)) (fault : LineFault) →
        (reading_of line ≡ Ok (fault_reading labels fault)) ↔ HasInsnFault line labels fault }
{}

/// Law: a text denotes at most one program.
pub fn a_text_denotes_at_most_one_program()
    ensures { (text : List ℕ) (first second : List Insn) →
        Denotes text first → Denotes text second → first ≡ second }
{}

/// Law: the text of the ARP filter, a worked example, denotes the ARP filter.
pub fn the_arp_text_denotes_the_arp_filter()
    ensures { Denotes arp_text arp_program }
{}

/// Law: a text denotes a program or has a first fault, never both, and no two first faults.
pub fn a_text_denotes_a_program_or_has_one_first_fault()
    ensures either { (text : List ℕ) → DenotesSome text ⊎ HasFirstFault text }
    ensures never_both { (text : List ℕ) (program : List Insn) (fault : AsmFault) →
        Denotes text program → ¬ FirstFault text fault }
    ensures once { (text : List ℕ) (first second : AsmFault) →
        FirstFault text first → FirstFault text second → first ≡ second }
{}
