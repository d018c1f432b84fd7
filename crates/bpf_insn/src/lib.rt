//! Instructions of the classic BSD Packet Filter: their fields, their stored form, the table of
//! legal codes with what follows from it, and the numeric listing (McCanne and Jacobson 1993;
//! bpf(4)).
#![tactic(auto)]

mod flow;
mod form;
mod insn;
mod laws;
mod mnemonics;
mod parse;
mod print;
mod stretch;
mod uses;

pub use flow::{Targets, jump_targets, jumps_out, successors};
pub use form::{Cond, Form, Op, Size, Src, code_of, form_of};
pub use insn::{Insn, MAX_INSNS, SCRATCH_WORDS};
pub use laws::{
    a_printed_listing_reads_as_its_program, each_form_has_one_code, the_limits_of_a_program,
};
pub use mnemonics::{cond_mnemonic, load_mnemonic, op_mnemonic};
pub use parse::{ListingFault, parse_listing};
pub use print::print_listing;
pub use uses::{reads_scratch, uses_distances, uses_k, writes_scratch};
