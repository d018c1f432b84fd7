//! Why a program has no text.

ghost use Rattle.std.specs.Prelude.{◌≡◌};
ghost use Rattle.bpf_dis.specs.declared.fault.DisFault.TheVariants.{Memory};

use std::alloc::AllocError;
use thiserror::Error;

/// Why a program has no text, with the index of an instruction, counted from 0.
#[derive(Clone, Copy, Debug, PartialEq, Eq, Error)]
pub enum DisFault {
    /// The code of the instruction is not legal, or a field that it does not use is not 0: a text
    /// shows neither.
    #[error("dis 1 NoForm {0}")]
    NoForm(usize),
    /// The instruction can jump to an index at or past the program's end, where no line is.
    #[error("dis 2 JumpOut {0}")]
    JumpOut(usize),
    /// Out of memory for the text.
    #[error("memory")]
    Memory,
}

impl From<AllocError> for DisFault {
    ghost from_gives = { λ _ fault. fault ≡ Memory };

    fn from(_error: AllocError) -> DisFault {
        DisFault::Memory
    }
}
