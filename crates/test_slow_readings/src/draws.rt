//! Numbers and small programs drawn from a seed.

ghost use Rattle.std.specs.Prelude.{◌<◌};

use bpf_insn::{Form, Insn, form_of};
use std::alloc::{AllocError, Global};

/// The most instructions of a program that is drawn.
const MOST_INSNS: u8 = 8;

/// The codes that are drawn, the more often the more often they stand here: loads and stores of
/// scratch words, tests, jumps, divisions and remainders, and a few that only go on or return.
const CODES: [u16; 34] = [
    0x60, 0x60, 0x60, 0x60, 0x61, 0x61, 0x61, 0x02, 0x02, 0x02, 0x02, 0x03, 0x03, 0x03, 0x03, 0x15,
    0x15, 0x1d, 0x1d, 0x25, 0x2d, 0x35, 0x3d, 0x45, 0x4d, 0x05, 0x05, 0x05, 0x34, 0x94, 0x3c, 0x9c,
    0x07, 0x06,
];

/// The codes that are drawn for programs that run: loads of the view, tests, and a few others.
const RUNNING_CODES: [u16; 40] = [
    0x20, 0x28, 0x28, 0x30, 0x30, 0x20, 0x28, 0x30, 0x15, 0x15, 0x15, 0x15, 0x15, 0x15, 0x15, 0x25,
    0x35, 0x45, 0x1d, 0x2d, 0x3d, 0x4d, 0x48, 0x50, 0xb1, 0x00, 0x01, 0x80, 0x02, 0x60, 0x04, 0x0c,
    0x54, 0x74, 0x64, 0x84, 0x05, 0x07, 0x87, 0x06,
];

/// A small linear congruential generator, which draws the same programs from the same seed.
#[derive(Drop)]
pub(crate) struct Draws {
    state: u64,
}

impl Draws {
    /// The beginning of the series that a seed stands for.
    pub(crate) fn from_seed(seed: u64) -> Draws {
        Draws { state: seed }
    }

    /// A number below `bound`.
    pub(crate) fn below(&mut self, bound: u8) -> u8
        requires { 0 < bound }
        ensures { result < bound }
    {
        self.state = self
            .state
            .wrapping_mul(6364136223846793005)
            .wrapping_add(1442695040888963407);
        ((self.state >> 33) % u64::from(bound)) as u8
    }

    /// True once in `times` draws or so.
    fn once_in(&mut self, times: u8) -> bool
        requires { 0 < times }
    {
        self.below(times) == 0
    }

    /// A program of at least one instruction, and more often a long one than a short one.
    pub(crate) fn program(&mut self, alloc: Global) -> Result<Vec<Insn>, AllocError> {
        let last = self.below(MOST_INSNS).max(self.below(MOST_INSNS));
        let mut program = Vec::new(alloc);
        for place in 0..=last {
            program.push(self.insn(last.saturating_sub(place)))?;
        }
        Ok(program)
    }

    /// A program that most often is valid, whose loads and tests stand beside each other.
    pub(crate) fn running_program(&mut self, alloc: Global) -> Result<Vec<Insn>, AllocError> {
        let last = self.below(16);
        let mut program = Vec::new(alloc);
        for at in 0..last {
            let after = last.saturating_sub(at);
            program.push(Insn {
                code: RUNNING_CODES[usize::from(self.below(RUNNING_CODES.len() as u8))],
                jt: self.below(after.clamp(1, 3)),
                jf: self.below(after.clamp(1, 3)),
                k: u32::from(self.below(after.clamp(1, 5))),
            })?;
        }
        let code = if self.once_in(2) { 0x06 } else { 0x16 };
        program.push(Insn {
            code,
            jt: 0,
            jf: 0,
            k: 9,
        })?;
        Ok(program)
    }

    /// An instruction with `after` others behind it. The fields that its form does not use are
    /// drawn too, since they must not matter.
    fn insn(&mut self, after: u8) -> Insn {
        let code = self.code(after);
        let jt = self.distance(after);
        let jf = self.distance(after);
        let mut insn = Insn { code, jt, jf, k: 0 };
        insn.k = match form_of(insn) {
            Some(Form::LdMem | Form::LdxMem | Form::St | Form::Stx) => self.word(),
            Some(Form::Ja) => self.far_distance(after),
            _ => u32::from(self.below(5)),
        };
        insn
    }

    /// A code: mostly a return in the last place, and now and then any number at all.
    fn code(&mut self, after: u8) -> u16 {
        if self.once_in(40) {
            return u16::from_le_bytes([self.below(255), self.below(3)]);
        }
        if after == 0 && !self.once_in(10) {
            return if self.once_in(2) { 0x06 } else { 0x16 };
        }
        CODES[usize::from(self.below(CODES.len() as u8))]
    }

    /// How many of the `after` instructions a test passes over; now and then too many.
    fn distance(&mut self, after: u8) -> u8 {
        if after == 0 || self.once_in(40) {
            return after.saturating_add(self.below(3));
        }
        self.below(after)
    }

    /// The same for a jump, and now and then a distance that would lead back if the sum wrapped.
    fn far_distance(&mut self, after: u8) -> u32 {
        if self.once_in(16) {
            return u32::MAX - u32::from(self.below(8));
        }
        u32::from(self.distance(after))
    }

    /// The number of a scratch word: mostly one of the first few, so that loads meet stores, and
    /// now and then one of the last, or one that does not exist, by a little or by a lot.
    fn word(&mut self) -> u32 {
        match self.below(32) {
            0 => u32::from(self.below(18)),
            1 => u32::from(self.below(4)) + 14,
            2 if self.once_in(2) => (32 << self.below(27)) | u32::from(self.below(2)),
            _ => u32::from(self.below(2)),
        }
    }
}
