//! The packets that go out ahead of pieces: setup records and time packets.

ghost use Rattle.std.specs.Prelude.{ℕ, ◌≡◌, ◌<◌, ◌^◌, OnOk, MatchResult, length};
ghost use Rattle.ch11_clock.specs.CivilTime.{IsCivilTime};
ghost use Rattle.ch11_file.specs.WholeFile.{setup_text};
ghost use Rattle.rec_stream.specs.StreamBlocks.{StreamState, StreamSetupGoes, SetupIsDue, StreamTimeIsNext, behind_time};
ghost use Rattle.rec_stream.specs.StreamEnds.{StreamPast, GoingFails, HoldsStreamFront};
ghost use Rattle.rec_stream.specs.Sending.{HasGone};

use crate::end::{StreamEnd, StreamRefusal};
use crate::sent::Sent;
use ch11_clock::{CivilTime, TimePoint, time_body};
use ch11_file::{BlockHead, BlockKind, FileFault, FileSetup, setup_body};
use std::alloc::Global;
use std::io::Write;

/// Sends the setup record of a stream whose first time packet says this time, ahead of the time packet of this tick.
pub(crate) fn put_setup<W: Write>(
    alloc: Global,
    setup: &FileSetup<'_>,
    time: CivilTime,
    tick: u64,
    sent: &mut Sent,
    out: &mut W,
) -> Result<(), FileFault>
    requires time { IsCivilTime time }
    requires number { length setup.now.channels.now < 2 ^ 16 }
    requires tick { tick < 2 ^ 48 }
    ensures sent { (past : StreamPast) (old next : StreamState) → past.facts.setup ≡ setup.now
        → HasGone past (W.contents out.old) sent.old old
        → StreamSetupGoes past.facts old (setup_text setup.now time) tick next
        → MatchResult result (λ _. HasGone past (W.contents out.new) sent.new next)
        (λ _. HoldsStreamFront past (W.contents out.new)) }
    ensures other { OnOk result (sent.new.counts.other ≡ sent.old.counts.other) }
{
    let head = BlockHead {
        kind: BlockKind::Setup,
        channel: 0,
        counter: tick,
    };
    let body = setup_body(alloc, setup, time)?;
    sent.put(out, head, &body)
}

/// Sends a time packet, ahead of which no setup record is due.
pub(crate) fn put_time<W: Write>(
    setup: &FileSetup<'_>,
    point: TimePoint,
    sent: &mut Sent,
    out: &mut W,
) -> Result<(), StreamEnd>
    requires tick { point.tick < 2 ^ 48 }
    ensures sent { (past : StreamPast) (old : StreamState) → past.facts.setup ≡ setup.now
        → HasGone past (W.contents out.old) sent.old old
        → StreamTimeIsNext past.facts.rules old old.time old.left point.moment point.tick
        → ¬ SetupIsDue old.setup point.tick
        → MatchResult result
        (λ _. HasGone past (W.contents out.new) sent.new (behind_time old point.tick))
        (GoingFails past (W.contents out.new)) }
    ensures other { OnOk result (sent.new.counts.other ≡ sent.old.counts.other) }
{
    let Some(body) = time_body(point.moment, setup.is_external) else {
        return Err(StreamEnd::Refused(StreamRefusal::Year));
    };
    let head = BlockHead {
        kind: BlockKind::Time,
        channel: setup.time_channel,
        counter: point.tick,
    };
    match sent.put(out, head, &body) {
        Ok(()) => Ok(()),
        Err(fault) => Err(StreamEnd::from(fault)),
    }
}
