//! Where an instruction leads: the targets of a jump, and the indexes at which a run may go on.
ghost use Rattle.std.specs.Prelude.{◌≡◌, ◌↔◌, ◌<◌, ◌^◌, Some, IsTrue};
ghost use Rattle.bpf_insn.specs.Flow.{jump_targets, successors, FormJumpsOut};
ghost use Rattle.bpf_insn.specs.Views.{targets_data};

use crate::form::Form;
use crate::insn::Insn;

/// Indexes to which an instruction leads: at most two.
#[derive(Clone, Copy, Debug, PartialEq, Eq)]
pub enum Targets {
    /// It leads nowhere.
    Nowhere,
    /// It leads to one.
    One(usize),
    /// A test leads to the first where it holds, and to the second where it does not.
    Two(usize, usize),
}

/// The targets of a jump at index `at`: a distance is counted from the next instruction, so they
/// may lie past the program's end. An index in a slice of instructions, of 8 bytes each, is below
/// 2^62.
pub fn jump_targets(form: Form, insn: Insn, at: usize) -> Targets
    requires { at < 2 ^ 62 }
    ensures targets { targets_data result ≡ jump_targets (Some form) insn at }
{
    let next = at + 1;
    match form {
        Form::Ja => Targets::One(next + insn.k as usize),
        Form::Test(_, _) => {
            Targets::Two(next + usize::from(insn.jt), next + usize::from(insn.jf))
        }
        _ => Targets::Nowhere,
    }
}

/// The indexes at which a run may go on after the instruction at index `at`: a jump's targets,
/// else the next; nowhere after a return.
pub fn successors(form: Form, insn: Insn, at: usize) -> Targets
    requires { at < 2 ^ 62 }
    ensures successors { targets_data result ≡ successors (Some form) insn at }
{
    match form {
        Form::RetK | Form::RetA => Targets::Nowhere,
        Form::Ja | Form::Test(_, _) => jump_targets(form, insn, at),
        _ => Targets::One(at + 1),
    }
}

/// Whether a jump at index `at` has a target at or past the end of a program of `len`
/// instructions.
pub fn jumps_out(form: Form, insn: Insn, at: usize, len: usize) -> bool
    requires { at < 2 ^ 62 }
    ensures decides { IsTrue result ↔ FormJumpsOut len (Some form) insn at }
{
    match jump_targets(form, insn, at) {
        Targets::Nowhere => false,
        Targets::One(to) => to >= len,
        Targets::Two(one, other) => one >= len || other >= len,
    }
}
