//! The disassembler of filter programs: writes a program in the text of the Linux kernel's
//! `bpf_asm` (Linux networking documentation, "Linux Socket Filtering").
#![tactic(auto)]

mod check;
mod fault;
mod labels;
mod laws;
mod line;
mod text;

pub use fault::DisFault;
pub use laws::{
    labels_stand_where_jumps_lead, text_denotes_program, the_program_of_a_text_has_a_text,
    the_text_of_a_program_is_assembled_to_it,
};
pub use text::text_of;
