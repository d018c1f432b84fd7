//! Why a text is no program.

ghost use Rattle.std.specs.Prelude.{◌≡◌};
ghost use Rattle.bpf_asm.specs.FirstFault.{in_line};
ghost use Rattle.bpf_asm.specs.declared.fault.AsmFault.TheVariants.{Memory};

use std::alloc::{AllocError, AllocFailed};
use thiserror::Error;

/// What is wrong with one line of a text, looked at by itself.
#[derive(Clone, Copy, PartialEq, Eq)]
pub(crate) enum LineFault {
    /// A byte that no token has, a comment without an end, or tokens that are no operand.
    Syntax,
    /// A number that is spelled wrong, or too large.
    Number,
    /// The line's first name is neither a label nor a mnemonic.
    UnknownMnemonic,
    /// The mnemonic does not take this operand.
    OperandNotAllowed,
}

/// Why a text is no program. Lines are counted from 1.
#[derive(Clone, Copy, Debug, PartialEq, Eq, Error)]
pub enum AsmFault {
    /// A byte that no token has, a comment without an end, tokens that are no operand, or labels
    /// that no instruction follows.
    #[error("asm 1 Syntax line {line}")]
    Syntax { line: usize },
    /// A number that is spelled wrong, or too large.
    #[error("asm 2 Number line {line}")]
    Number { line: usize },
    /// The line's first name is neither a label nor a mnemonic.
    #[error("asm 3 UnknownMnemonic line {line}")]
    UnknownMnemonic { line: usize },
    /// The mnemonic does not take this operand.
    #[error("asm 4 OperandNotAllowed line {line}")]
    OperandNotAllowed { line: usize },
    /// The jump in this line names a label that no line has.
    #[error("asm 5 LabelMissing line {line}")]
    LabelMissing { line: usize },
    /// A label of this line is the second of its name.
    #[error("asm 6 LabelTwice line {line}")]
    LabelTwice { line: usize },
    /// The jump in this line leads to itself or to an instruction before it.
    #[error("asm 7 Backward line {line}")]
    Backward { line: usize },
    /// The test in this line leads over more than 255 instructions.
    #[error("asm 8 TooFar line {line}")]
    TooFar { line: usize },
    /// There are more instructions than a program may have.
    #[error("asm 9 TooLong")]
    TooLong,
    /// Out of memory for the labels or the program.
    #[error("memory")]
    Memory,
}

impl From<AllocError> for AsmFault {
    ghost from_gives = { λ _ fault. fault ≡ Memory };

    fn from(_error: AllocError) -> AsmFault {
        AsmFault::Memory
    }
}

impl<T: Drop> From<AllocFailed<T>> for AsmFault {
    ghost from_gives = { λ _ fault. fault ≡ Memory };

    fn from(_error: AllocFailed<T>) -> AsmFault {
        AsmFault::Memory
    }
}

impl LineFault {
    /// This fault, in this line of a text.
    pub(crate) fn in_line(self, line: usize) -> AsmFault
        ensures { result ≡ in_line line self }
    {
        match self {
            LineFault::Syntax => AsmFault::Syntax { line },
            LineFault::Number => AsmFault::Number { line },
            LineFault::UnknownMnemonic => AsmFault::UnknownMnemonic { line },
            LineFault::OperandNotAllowed => AsmFault::OperandNotAllowed { line },
        }
    }
}
