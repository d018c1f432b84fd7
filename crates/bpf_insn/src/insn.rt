//! An instruction: its fields, its stored form, and how many of it a program may have.
ghost use Rattle.std.specs.Prelude.{◌≡◌};

/// The greatest number of instructions that a program may have.
pub const MAX_INSNS: usize = 4096;

/// The number of scratch words, `BPF_MEMWORDS` of bpf(4).
pub const SCRATCH_WORDS: usize = 16;

/// One instruction of a filter program, as `struct bpf_insn` of bpf(4).
#[derive(Clone, Copy, Debug, PartialEq, Eq)]
pub struct Insn {
    /// The operation code: class, size, mode, operation and source.
    pub code: u16,
    /// How many instructions a test skips where it holds.
    pub jt: u8,
    /// How many instructions a test skips where it does not hold.
    pub jf: u8,
    /// A constant, an offset into the view, a scratch word's number, or a jump's distance.
    pub k: u32,
}

impl Insn {
    ghost use Rattle.std.specs.Prelude.{◌≡◌};
    ghost use Rattle.bpf_insn.specs.Bytes.{InRange, insn_bytes};

    /// The 8 bytes in which an instruction is stored: `code`, `jt`, `jf`, `k`, the numbers of
    /// several bytes with the lowest byte first.
    pub fn to_bytes(self) -> [u8; 8]
        ensures layout { result ≡ insn_bytes self }
    {
        let code = self.code.to_le_bytes();
        let k = self.k.to_le_bytes();
        [code[0], code[1], self.jt, self.jf, k[0], k[1], k[2], k[3]]
    }

    /// The instruction that is stored in these 8 bytes.
    pub fn from_bytes(bytes: [u8; 8]) -> Insn
        ensures stored { insn_bytes result ≡ bytes }
        ensures inverse { (insn : Insn) → InRange insn → insn_bytes insn ≡ bytes → result ≡ insn }
    {
        let [code_0, code_1, jt, jf, k_0, k_1, k_2, k_3] = bytes;
        Insn {
            code: u16::from_le_bytes([code_0, code_1]),
            jt,
            jf,
            k: u32::from_le_bytes([k_0, k_1, k_2, k_3]),
        }
    }
}
