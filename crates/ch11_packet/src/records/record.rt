//! A record that is read.
ghost use Rattle.std.specs.Prelude.{ℕ, ◌≡◌, ◌*◌, length, slice_get};
ghost use Rattle.ch11_packet.specs.declared.records.TheConstants.{INSN_LEN};
ghost use Rattle.ch11_packet.specs.RecordsRead.{stored_insns};

use crate::records::INSN_LEN;
use bpf_insn::Insn;

/// One of the recording's own records.
#[derive(Clone, Copy, Debug, PartialEq, Eq)]
pub enum Record<'a> {
    /// A program that came into force.
    Program(ProgramRecord<'a>),
    /// The end of a channel.
    End {
        /// The channel, 1 to 65,535.
        channel: u16,
        /// The number of frames offered.
        offered: u64,
        /// The number of those kept.
        kept: u64,
    },
}

/// The record of a program that came into force on a channel. Its instructions are borrowed from
/// the body, and may be any.
#[derive(Clone, Copy, Debug, PartialEq, Eq)]
pub struct ProgramRecord<'a> {
    /// The channel, 1 to 65,535.
    pub channel: u16,
    /// The number of programs of the channel before this one.
    pub version: u32,
    /// The number of the first frame that met the program.
    pub first: u64,
    /// The number of the instructions.
    pub count: u16,
    pub(crate) insns: &'a [u8],
    pub ghost whole: { length insns.now ≡ INSN_LEN * count },
}

impl<'a> ProgramRecord<'a> {
    ghost use Rattle.std.specs.Prelude.{◌≡◌, length, slice_get};
    ghost use Rattle.ch11_packet.specs.Views.{record_insns};

    /// Instruction `at`, counted from 0: `None` from the count on.
    pub fn insn_at(&self, at: u16) -> Option<Insn>
        ensures at { result ≡ slice_get (record_insns self.now) at }
        ensures count { length (record_insns self.now) ≡ self.now.count }
    {
        stored_insn(self.insns, at)
    }
}

/// Instruction `at` of those that are stored in these bytes.
fn stored_insn(insns: &[u8], at: u16) -> Option<Insn>
    ensures at { (count : ℕ) → length insns.now ≡ INSN_LEN * count
        → result ≡ slice_get (stored_insns count insns.now) at }
{
    let start = INSN_LEN * usize::from(at);
    let bytes = insns.get(start..start + INSN_LEN)?;
    let [b0, b1, b2, b3, b4, b5, b6, b7] = bytes else {
        return None;
    };
    Some(Insn::from_bytes([*b0, *b1, *b2, *b3, *b4, *b5, *b6, *b7]))
}
