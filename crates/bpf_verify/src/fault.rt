//! Why a program is not valid.
use arrayvec::ArrayVec;
use bpf_insn::{Insn, MAX_INSNS};
use std::fmt;
use thiserror::Error;

/// Why a program is not valid. An instruction is named by its index, counted from 0.
#[derive(Clone, Debug, Drop, PartialEq, Eq, Error)]
pub enum VerifyFault {
    /// The program has no instruction.
    #[error("refused 1 Empty")]
    Empty,
    /// The program has more than [`MAX_INSNS`] instructions.
    #[error("refused 2 TooLong")]
    TooLong,
    /// The code of the instruction is not legal.
    #[error("refused 3 BadOpcode {0}")]
    BadOpcode(u16),
    /// The instruction reads or writes a scratch word past the last ([`bpf_insn::SCRATCH_WORDS`]).
    #[error("refused 4 BadScratch {0}")]
    BadScratch(u16),
    /// The instruction divides by the constant 0, whether it is ever reached or not.
    #[error("refused 5 ZeroDivisor {0}")]
    ZeroDivisor(u16),
    /// The instruction has a target at or past the program's end.
    #[error("refused 6 JumpOut {0}")]
    JumpOut(u16),
    /// The last instruction does not return.
    #[error("refused 7 NoReturn")]
    NoReturn,
    /// The instruction at `at` reads the scratch word `word`, and no earlier instruction on
    /// `path` writes it: the indexes from the first instruction to `at`, both included.
    #[error("refused 8 Unset {at} {word}{}", Indexes(.path.as_slice()))]
    Unset {
        at: u16,
        word: u32,
        path: ArrayVec<u16, MAX_INSNS>,
    },
}

/// Indexes as they are printed: each in decimal, with a space before it.
#[derive(Clone, Copy)]
struct Indexes<'a>(&'a [u16]);

impl fmt::Display for Indexes<'_> {
    fn fmt<W: fmt::Write>(&self, f: &mut fmt::Formatter<W>) -> fmt::Result {
        'indexes: for at in self.0 {
            write!(f, " {at}")?;
        }
        Ok(())
    }
}

/// A program that is not valid, given back with its first fault.
#[derive(Debug, Drop, Error)]
#[error("{fault}")]
pub struct Refused {
    /// The program, as it was passed.
    pub program: Vec<Insn>,
    /// The first condition that it breaks.
    pub fault: VerifyFault,
}
