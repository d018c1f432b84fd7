//! Laws of the machine, with nothing to run.
ghost use Rattle.std.specs.Prelude.{◌≡◌, ◌≤◌, ℕ, List, length};
ghost use Rattle.bpf_insn.specs.declared.insn.Insn.{Insn};
ghost use Rattle.bpf_verify.specs.Validity.{Valid, ValidWithin};
ghost use Rattle.bpf_machine.specs.Machine.{State, Successor, Step, Runs, IsReached, IsStuck};

use crate::machine::MAX_VIEW;
use bpf_verify::a_valid_program_stays_valid;

/// Law: a state has at most one step. So a program on a view returns at most one value, in one
/// count of steps; and where it returns, no state that it reaches is stuck.
pub fn runs_once()
    ensures one_step { (program : List Insn) (view : List ℕ) (s : State) (next other : Successor)
        → Step program view s next → Step program view s other → next ≡ other }
    ensures one_run { (program : List Insn) (view : List ℕ) (steps value count other : ℕ)
        → Runs program view steps value → Runs program view count other
        → (steps ≡ count) × (value ≡ other) }
    ensures never_stuck { (program : List Insn) (view : List ℕ) (steps value : ℕ) (s : State)
        → Runs program view steps value → IsReached program view s → ¬ IsStuck program view s }
{}

/// Law: a valid program returns a value on every view, within as many steps as it has
/// instructions.
pub fn a_valid_program_returns()
    ensures { (program : List Insn) (view : List ℕ) → Valid program
        → (steps : ℕ) × (value : ℕ) × Runs program view steps value × (steps ≤ length program) }
{}

/// Law: the longest view has 16,379 bytes.
pub fn the_longest_view()
    ensures { MAX_VIEW ≡ 16379 }
{}

/// Law: a program that was valid when a program had at most 512 instructions is valid, and returns
/// a value on every view, within as many steps as it has instructions. It is the value that it
/// returned: a run is of the program and the view alone, and there is one ([`runs_once`]).
pub fn a_program_of_512_instructions_runs_as_before()
    ensures valid { (program : List Insn) → ValidWithin 512 program → Valid program }
    ensures returns { (program : List Insn) (view : List ℕ) → ValidWithin 512 program
        → (steps : ℕ) × (value : ℕ) × Runs program view steps value × (steps ≤ length program) }
{
    a_valid_program_stays_valid();
}
