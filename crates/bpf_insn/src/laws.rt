//! Laws of instructions and listings, with nothing to run.
ghost use Rattle.std.specs.Prelude.{ℕ, ◌≡◌, ◌≤◌, ◌↔◌, List, Some, Ok, length};
ghost use Rattle.bpf_insn.specs.declared.insn.Insn.{Insn};
ghost use Rattle.bpf_insn.specs.declared.form.Form.{Form};
ghost use Rattle.bpf_insn.specs.Bytes.{AreInRange};
ghost use Rattle.bpf_insn.specs.Forms.{form, code_of};
ghost use Rattle.bpf_insn.specs.Listing.{listing};
ghost use Rattle.bpf_insn.specs.Printed.{listing_text};

use crate::insn::{MAX_INSNS, SCRATCH_WORDS};

/// Law: a form has one code, and that code has the form.
pub fn each_form_has_one_code()
    ensures { (code : ℕ) (f : Form) → (form code ≡ Some f) ↔ (code ≡ code_of f) }
{}

/// Law: a program has at most 4,096 instructions, and there are 16 scratch words.
pub fn the_limits_of_a_program()
    ensures insns { MAX_INSNS ≡ 4096 }
    ensures words { SCRATCH_WORDS ≡ 16 }
{}

/// Law: a printed listing reads as the program that was printed, whose numbers are those of their
/// fields' types.
pub fn a_printed_listing_reads_as_its_program()
    ensures { (program : List Insn) → length program ≤ 65535 → AreInRange program
        → listing (listing_text program) ≡ Ok program }
{}
