//! What is kept of a channel of recordings that follow one another.

ghost use Rattle.std.specs.Prelude.{◌≡◌, IfOk, OnOk, OnErr};
ghost use Rattle.ch11_packet.specs.Views.{record_insns};
ghost use Rattle.rec_reader.specs.Auditors.{counted_more};
ghost use Rattle.rec_reader.specs.Channels.Saying.{OfProgram};
ghost use Rattle.rec_reader.specs.Views.{program_data};
ghost use Rattle.rec_runs.specs.FilePrograms.{is_greatest_behind};
ghost use Rattle.rec_runs.specs.Moves.{moves_in_state};
ghost use Rattle.rec_runs.specs.ProgramMoves.{repeats_last};
ghost use Rattle.rec_runs.specs.RunStates.{last_program_data, run_data, run_after, next_run, unnamed_run, sums_with, version_gone_on, with_program};
ghost use Rattle.rec_runs.specs.ToldData.{told_data};

use crate::record_moves::RecordMoves;
use crate::told::ToldOfRun;
use bpf_insn::Insn;
use ch11_packet::ProgramRecord;
use std::alloc::{AllocError, Global};

/// The version from which on none fits.
const VERSION_LIMIT: u64 = 1 << 32;

/// A program of the file: its version there, at most 2^32, and its instructions.
#[derive(Debug, Drop)]
pub(crate) struct LastProgram {
    pub version: u64,
    pub insns: Vec<Insn>,
}

impl LastProgram {
    /// Whether a recording's first program repeats it, with this version and these instructions.
    fn is_repeated(&self, version: u32, insns: &[Insn]) -> bool
        ensures { result ≡ repeats_last (last_program_data self.now) version insns.now }
    {
        version == 0 && self.insns.as_slice() == insns
    }
}

/// How many frames ends offered, and how many of them they kept: `None` from 2^64 on.
#[derive(Clone, Copy, Debug)]
pub(crate) struct EndSums {
    pub offered: Option<u64>,
    pub kept: Option<u64>,
}

impl EndSums {
    /// The sums with an end more.
    fn with(self, offered: u64, kept: u64) -> EndSums
        ensures { result ≡ sums_with self (record { offered = offered; kept = kept }) }
    {
        EndSums {
            offered: sum_with(self.offered, offered),
            kept: sum_with(self.kept, kept),
        }
    }
}

/// What is kept of a channel: the program of the file that has the greatest version so far; what is
/// added to the versions of the recording's programs, and the place of the one that is left out;
/// whether the recording has a program so far; and the sums of the ends in the recordings before, and
/// of all so far.
#[derive(Debug, Drop)]
pub(crate) struct ChannelRun {
    pub last: Option<LastProgram>,
    pub versions: u64,
    pub same: Option<u64>,
    pub is_begun: bool,
    pub before: EndSums,
    pub sums: EndSums,
}

impl ChannelRun {
    /// What is kept of a channel that no recording has.
    pub fn unnamed() -> ChannelRun
        ensures { run_data result ≡ unnamed_run }
    {
        let none = EndSums {
            offered: Some(0),
            kept: Some(0),
        };
        ChannelRun {
            last: None,
            versions: 0,
            same: None,
            is_begun: false,
            before: none,
            sums: none,
        }
    }

    /// Takes what the packet at this place says of the channel.
    pub fn take(&mut self, alloc: Global, at: u64, told: &ToldOfRun<'_>) -> Result<(), AllocError>
        ensures state { OnOk result (run_data self.new
            ≡ run_after at (told_data told.now) (run_data self.old)) }
        ensures unchanged { OnErr result (self.new ≡ self.old) }
    {
        match told {
            ToldOfRun::Program(program) => self.take_program(alloc, at, program),
            ToldOfRun::End { offered, kept } => {
                self.sums = self.sums.with(*offered, *kept);
                Ok(())
            }
        }
    }

    /// Takes a program of the channel.
    fn take_program(
        &mut self,
        alloc: Global,
        at: u64,
        program: &ProgramRecord<'_>,
    ) -> Result<(), AllocError>
        ensures state { OnOk result (run_data self.new
            ≡ run_after at (OfProgram (program_data program.now)) (run_data self.old)) }
        ensures unchanged { OnErr result (self.new ≡ self.old) }
    {
        let insns = insns_of(alloc, program)?;
        match self.gone_on(program.version, insns.as_slice()) {
            Some(version) => {
                self.versions = version;
                self.same = Some(at);
            }
            None => {
                let version = self.versions.saturating_add(u64::from(program.version));
                self.add_program(version.min(VERSION_LIMIT), insns);
            }
        }
        self.is_begun = true;
        Ok(())
    }

    /// The version of the file's last program, if this is the recording's first and repeats it.
    fn gone_on(&self, version: u32, insns: &[Insn]) -> Option<u64>
        ensures { result ≡ version_gone_on (run_data self.now) version insns.now }
    {
        let last = self.last.as_ref()?;
        if !self.is_begun && last.is_repeated(version, insns) {
            Some(last.version)
        } else {
            None
        }
    }

    /// Adds a program of the file: it is kept if none before it has a greater version.
    fn add_program(&mut self, version: u64, insns: Vec<Insn>)
        ensures { run_data self.new
            ≡ with_program (run_data self.old) (record { version = version; insns = insns.items }) }
    {
        if self.is_greatest(version) {
            self.last = Some(LastProgram { version, insns });
        }
    }

    /// Whether no program of the file so far has a greater version.
    fn is_greatest(&self, version: u64) -> bool
        ensures { result ≡ is_greatest_behind (run_data self.now).last version }
    {
        match &self.last {
            Some(last) => last.version <= version,
            None => true,
        }
    }

    /// Begins the next recording of the run.
    pub fn begin_next(&mut self)
        ensures { self.new ≡ next_run self.old }
    {
        self.versions = match &self.last {
            Some(last) => last.version.saturating_add(1).min(VERSION_LIMIT),
            None => 0,
        };
        self.same = None;
        self.is_begun = false;
        self.before = self.sums;
    }

    /// What becomes of the channel's programs and its end in the recording in hand.
    pub fn moves(&self, channel: u16) -> RecordMoves
        ensures { result ≡ moves_in_state channel (run_data self.now) }
    {
        RecordMoves {
            channel,
            versions: self.versions,
            same: self.same,
            offered: self.before.offered,
            kept: self.before.kept,
            continues: false,
        }
    }
}

/// A sum with a number more: `None` from 2^64 on.
fn sum_with(sum: Option<u64>, more: u64) -> Option<u64>
    ensures { result ≡ counted_more sum more }
{
    sum?.checked_add(more)
}

/// The instructions of a record.
fn insns_of(alloc: Global, program: &ProgramRecord<'_>) -> Result<Vec<Insn>, AllocError>
    ensures { IfOk result (λ insns. insns.items ≡ record_insns program.now) }
{
    let mut insns = Vec::with_capacity(alloc, usize::from(program.count))?;
    'insns: for at in 0..program.count {
        let Some(insn) = program.insn_at(at) else {
            unreachable!()
        };
        insns.push(insn)?;
    }
    Ok(insns)
}
