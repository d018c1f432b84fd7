//! What an audit keeps of a channel.

ghost use Rattle.std.specs.Prelude.{ℕ, ◌≡◌, ◌↔◌, None, Some, IsTrue, IfOk, OnOk, MatchResult, MatchOption, All};
ghost use Rattle.bpf_machine.specs.Machine.{Runs};
ghost use Rattle.eth_frame.specs.Frame.{view};
ghost use Rattle.eth_frame.specs.Views.{frame_data};
ghost use Rattle.ch11_packet.specs.Views.{read_frame_data, record_insns};
ghost use Rattle.rec_reader.specs.Channels.Saying.{OfFrames, OfProgram};
ghost use Rattle.rec_reader.specs.Audits.{Accepts, RefusesFirst, FollowsProgram, WereOffered, IsClosing, line_with};
ghost use Rattle.rec_reader.specs.Auditors.{unnamed_state, counted, counted_more, state_after, JudgesState};
ghost use Rattle.rec_reader.specs.Views.{program_data, said_data};

use crate::audits::answer::{AuditFault, AuditLine};
use crate::audits::said::Said;
use bpf_insn::Insn;
use bpf_machine::{Outcome, run, runs_once};
use bpf_verify::{Verified, verify};
use ch11_packet::{Frames, ProgramRecord, ReadFrame};
use eth_frame::Frame;
use std::alloc::{AllocError, Global};

/// A program of a channel, as its record says.
#[derive(Debug, Drop)]
pub(crate) struct ChannelProgram {
    pub version: u32,
    pub first: u64,
    pub insns: Verified,
}

/// A channel's end, as its record says.
#[derive(Clone, Copy, Debug)]
pub(crate) struct ChannelEnd {
    pub offered: u64,
    pub kept: u64,
}

/// What is kept of a channel: the number of its programs and the last of them, the number of its
/// frames, which is `None` past `u64::MAX`, and its end.
#[derive(Debug, Drop)]
pub(crate) struct ChannelState {
    pub programs: u64,
    pub last: Option<ChannelProgram>,
    pub frames: Option<u64>,
    pub end: Option<ChannelEnd>,
}

impl ChannelState {
    /// What is kept of a channel that no packet named.
    pub fn unnamed() -> ChannelState
        ensures { result ≡ unnamed_state }
    {
        ChannelState {
            programs: 0,
            last: None,
            frames: Some(0),
            end: None,
        }
    }

    /// Takes what the packet with this number says of the channel, or returns its fault.
    pub fn take(&mut self, alloc: Global, number: u64, said: &Said<'_>) -> Result<(), AuditFault>
        ensures judged { JudgesState number self.old (said_data said.now) result }
        ensures state { OnOk result (self.new ≡ state_after self.old (said_data said.now)) }
    {
        if self.end.is_some() {
            return Err(AuditFault::Order { packet: number });
        }
        match said {
            Said::Frames(frames) => self.take_frames(number, frames),
            Said::Program(program) => self.take_program(alloc, number, program),
            Said::End(end) => {
                self.end = Some(*end);
                Ok(())
            }
        }
    }

    /// Takes the frames of a packet, before the channel's end.
    fn take_frames(&mut self, number: u64, frames: &Frames<'_>) -> Result<(), AuditFault>
        requires { self.old.end ≡ None }
        ensures judged { JudgesState number self.old (OfFrames frames.now) result }
        ensures state { OnOk result (self.new ≡ state_after self.old (OfFrames frames.now)) }
    {
        let Some(last) = &self.last else {
            return Err(AuditFault::NoProgram { packet: number });
        };
        if let Some(frame) = first_refused(&last.insns, frames) {
            return Err(AuditFault::NotAccepted {
                packet: number,
                frame,
            });
        }
        self.frames = counted_on(self.frames, frames.count());
        Ok(())
    }

    /// Takes a program, before the channel's end.
    fn take_program(
        &mut self,
        alloc: Global,
        number: u64,
        program: &ProgramRecord<'_>,
    ) -> Result<(), AuditFault>
        requires { self.old.end ≡ None }
        ensures judged { JudgesState number self.old (OfProgram (program_data program.now)) result }
        ensures state { OnOk result
            (self.new ≡ state_after self.old (OfProgram (program_data program.now))) }
    {
        if !self.is_followed_by(program) {
            return Err(AuditFault::Order { packet: number });
        }
        let insns = match verify(stored_insns(alloc, program)?) {
            Ok(insns) => insns,
            Err(_) => return Err(AuditFault::BadProgram { packet: number }),
        };
        self.programs = self.programs.saturating_add(1);
        self.last = Some(ChannelProgram {
            version: program.version,
            first: program.first,
            insns,
        });
        Ok(())
    }

    /// The channel's line at the end, or its fault.
    pub fn close(&self, channel: u16) -> Result<AuditLine, AuditFault>
        ensures closed { (frames : ℕ) → self.now.frames ≡ counted frames
            → MatchResult result
            (λ line. IsClosing channel self.now.end self.now.last frames None)
            (λ fault. IsClosing channel self.now.end self.now.last frames (Some fault)) }
        ensures line { (frames : ℕ) → self.now.frames ≡ counted frames
            → IfOk result (λ line. line ≡ line_with channel self.now.programs frames self.now.end) }
    {
        let Some(ChannelEnd { offered, kept }) = self.end else {
            return Err(AuditFault::NoEnd { channel });
        };
        let right = is_count(self.frames, kept) && kept <= offered && self.were_offered(offered);
        if !right {
            return Err(AuditFault::Counts { channel });
        }
        Ok(AuditLine {
            channel,
            programs: self.programs,
            frames: kept,
            offered,
        })
    }

    /// Whether a program may come next.
    fn is_followed_by(&self, program: &ProgramRecord<'_>) -> bool
        ensures { IsTrue result ↔ FollowsProgram self.now.last (program_data program.now) }
    {
        match &self.last {
            None => program.first == 0,
            Some(last) => last.version < program.version && last.first < program.first,
        }
    }

    /// Whether this number of frames may have been offered.
    fn were_offered(&self, offered: u64) -> bool
        ensures { IsTrue result ↔ WereOffered self.now.last offered }
    {
        match &self.last {
            None => offered == 0,
            Some(last) => last.first < offered,
        }
    }
}

/// A count with a number more: `None` past `u64::MAX`.
fn counted_on(count: Option<u64>, more: u16) -> Option<u64>
    ensures { result ≡ counted_more count more }
{
    count?.checked_add(u64::from(more))
}

/// Whether a count is this number.
fn is_count(count: Option<u64>, number: u64) -> bool
    ensures { (counting : ℕ) → count ≡ counted counting → (IsTrue result ↔ (number ≡ counting)) }
{
    match count {
        Some(counted) => number == counted,
        None => false,
    }
}

/// The instructions of a record.
fn stored_insns(alloc: Global, program: &ProgramRecord<'_>) -> Result<Vec<Insn>, AllocError>
    ensures { IfOk result (λ insns. insns.items ≡ record_insns program.now) }
{
    let mut insns = Vec::with_capacity(alloc, usize::from(program.count))?;
    'insns: for at in 0..program.count {
        let Some(insn) = program.insn_at(at) else {
            unreachable!()
        };
        insns.push(insn)?;
    }
    Ok(insns)
}

/// The number of the first frame that a program doesn't accept.
fn first_refused(program: &Verified, frames: &Frames<'_>) -> Option<u16>
    ensures { MatchOption result (All (Accepts program.now) frames.now)
        (RefusesFirst program.now frames.now) }
{
    // a packet has at most 65,535 frames, so each number fits
    let _ = frames.count();
    let mut number = 0;
    'frames: for frame in frames.walk() {
        if !accepts(program, &frame) {
            return Some(number);
        }
        number += 1;
    }
    None
}

/// Whether a program accepts a frame: it is whole, and the program doesn't return 0 on its view.
fn accepts(program: &Verified, read: &ReadFrame<'_>) -> bool
    ensures { IsTrue result ↔ Accepts program.now (read_frame_data read.now) }
{
    runs_once();
    // the program is valid by its type
    let _ = program.insns();
    match read.frame() {
        Some(frame) => run_on(program, &frame).value != 0,
        None => false,
    }
}

/// Runs a program on a frame: it sees the frame without its check sequence.
fn run_on(program: &Verified, frame: &Frame<'_>) -> Outcome
    ensures { Runs program.now (view (frame_data frame.now)) result.steps result.value }
{
    run(program, frame.view())
}
