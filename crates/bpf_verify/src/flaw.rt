//! The first condition that a program breaks, in a few bytes: a refusal's path is as long as a
//! program may be, and is found once, where the program is refused.

/// The first condition that a program breaks. An instruction is named by its index.
#[derive(Clone, Copy)]
pub(crate) enum Flaw {
    /// The program has no instruction.
    Empty,
    /// The program has more than [`bpf_insn::MAX_INSNS`] instructions.
    TooLong,
    /// The code of the instruction is not legal.
    BadOpcode(u16),
    /// The instruction reads or writes a scratch word past the last.
    BadScratch(u16),
    /// The instruction divides by the constant 0.
    ZeroDivisor(u16),
    /// The instruction has a target at or past the program's end.
    JumpOut(u16),
    /// The last instruction does not return.
    NoReturn,
    /// The instruction at `at` reads the scratch word `word`, which some path leaves unset.
    Unset { at: u16, word: u32 },
}
