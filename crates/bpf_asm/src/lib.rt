//! The assembler of filter programs: reads the text of the Linux kernel's `bpf_asm` (Linux
//! networking documentation, "Linux Socket Filtering"), line by line.
#![tactic(auto)]

mod assembler;
mod draft;
mod fault;
mod labels;
mod laws;
mod line;
mod mnemonic;
mod number;
mod operand;
mod template;
mod text;
mod token;

pub use assembler::assemble;
pub use fault::AsmFault;
pub use laws::{
    a_text_denotes_a_program_or_has_one_first_fault, a_text_denotes_at_most_one_program,
    comments_are_blanked, faults_of_instructions_are_those_of_the_grammar,
    lines_are_cut_into_tokens, lines_are_read_by_the_grammar, mnemonics_of_instructions_are_read,
    operands_are_read_by_the_grammar, the_arp_text_denotes_the_arp_filter,
    the_instruction_of_a_line_fits_its_form,
};
