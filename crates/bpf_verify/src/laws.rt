//! Laws of valid programs, which run nothing.
ghost use Rattle.std.specs.Prelude.{ℕ, ◌≤◌, List};
ghost use Rattle.bpf_insn.specs.declared.insn.Insn.{Insn};
ghost use Rattle.bpf_verify.specs.Validity.{Valid, ValidWithin};

/// Law: a program that is valid within some number of instructions is valid within more of them;
/// so each that was valid when a program had at most 512 instructions is valid now.
pub fn a_valid_program_stays_valid()
    ensures more { (most more : ℕ) (program : List Insn) → most ≤ more
        → ValidWithin most program → ValidWithin more program }
    ensures first_profile { (program : List Insn) → ValidWithin 512 program → Valid program }
{}
