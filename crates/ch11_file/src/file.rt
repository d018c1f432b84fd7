//! A whole file, written packet by packet.

ghost use Rattle.std.specs.Prelude.{ℕ, ◌≡◌, ◌<◌, ◌≤◌, ◌^◌, List, Option, Some, OnOk, IfSome, MatchResult, length};
ghost use Rattle.ch11_clock.specs.CivilTime.{IsTimeOf};
ghost use Rattle.ch11_merge.specs.Merging.{ChannelLeft};
ghost use Rattle.ch11_merge.specs.Placing.{SayLeft};
ghost use Rattle.ch11_index.specs.declared.index.TheConstants.{MOST_NAMED};
ghost use Rattle.ch11_file.specs.declared.owned.OwnedPiece.{OwnedPiece};
ghost use Rattle.ch11_file.specs.OwnedPieces.{owned_data};
ghost use Rattle.ch11_file.specs.FileTimes.{WalksTimes, tick_of};
ghost use Rattle.ch11_file.specs.WholeFile.{FileFacts, facts_of, merge_state};
ghost use Rattle.ch11_file.specs.WholeFile.FileStage.{BeforeSetup, Merging};
ghost use Rattle.ch11_file.specs.FileEnds.{FileFails, HoldsFile};
ghost use Rattle.ch11_file.specs.Sending.{HasPlaced, HasSent};

use crate::counts::FileCounts;
use crate::end::{FileEnd, FileFault, Refusal};
use crate::owned::OwnedPiece;
use crate::placing::place_all;
use crate::sent::Sent;
use crate::setup::FileSetup;
use crate::setup_block::put_setup;
use crate::time_block::put_time;
use crate::times::FileTimes;
use ch11_clock::{CivilTime, Clock, TimePoint, civil_time};
use ch11_merge::{MergedChannels, PieceSource};
use std::alloc::Global;
use std::io::Write;

/// Writes a whole file of the pieces that are left of channels. Its time packets are those of a recording
/// with this least counter. A node of its index and a root name at most `most`.
pub fn write_file<S: PieceSource<Piece = OwnedPiece>, W: Write>(
    alloc: Global,
    channels: &mut MergedChannels<S>,
    setup: &FileSetup<'_>,
    clock: &Clock,
    least: u64,
    most: u16,
    out: &mut W,
) -> Result<FileCounts, FileEnd>
    requires owned { (piece : OwnedPiece) → S.data_of piece ≡ owned_data piece }
    requires least { least < 2 ^ 48 }
    requires some { 0 < most }
    requires few { most ≤ MOST_NAMED }
    requires number { length setup.now.channels.now < 2 ^ 16 }
    ensures { (left : List ChannelLeft) → SayLeft S.left channels.old left
        → MatchResult result
        (HoldsFile (facts_of setup.now clock.now least most left) (W.contents out.old)
        (W.contents out.new))
        (FileFails (facts_of setup.now clock.now least most left) (W.contents out.old)
        (W.contents out.new)) }
{
    let mut times = FileTimes::new(clock, least);
    let Some(first) = times.next() else {
        return Err(FileEnd::Refused(Refusal::Origin));
    };
    let Some(time) = civil_time(first.moment) else {
        return Err(FileEnd::Refused(Refusal::Year));
    };
    let mut sent = match Sent::new(alloc, most) {
        Ok(sent) => sent,
        Err(_) => return Err(FileEnd::Write(FileFault::Memory)),
    };
    put_front(alloc, setup, first, time, &mut times, &mut sent, out)?;
    put_rest(alloc, channels, setup, &mut times, &mut sent, out)?;
    Ok(sent.counts())
}

/// Sends the setup record, and the first time packet, which says this time.
fn put_front<W: Write>(
    alloc: Global,
    setup: &FileSetup<'_>,
    first: TimePoint,
    time: CivilTime,
    times: &mut FileTimes<'_>,
    sent: &mut Sent,
    out: &mut W,
) -> Result<(), FileEnd>
    requires first { times.old.next ≡ Some first }
    requires tick { first.tick < 2 ^ 48 }
    requires time { IsTimeOf time first.moment }
    requires number { length setup.now.channels.now < 2 ^ 16 }
    ensures put { (facts : FileFacts) (before : Option (List ℕ)) (left : List ChannelLeft)
        → facts.setup ≡ setup.now
        → WalksTimes facts.least facts.rules times.old.next times.old.points
        → HasSent facts before (W.contents out.old) sent.old
        (merge_state BeforeSetup first.tick left)
        → MatchResult result (λ _. HasSent facts before (W.contents out.new) sent.new
        (merge_state Merging (tick_of times.new.next) left)
        × WalksTimes facts.least facts.rules times.new.next times.new.points)
        (FileFails facts before (W.contents out.new)) }
    ensures fits { OnOk result (IfSome times.new.next (λ point. point.tick < 2 ^ 48)) }
{
    match put_setup(alloc, setup, time, first.tick, sent, out) {
        Ok(()) => put_time(alloc, setup, times, sent, out),
        Err(fault) => Err(FileEnd::Write(fault)),
    }
}

/// Sends all packets behind the first time packet.
fn put_rest<S: PieceSource<Piece = OwnedPiece>, W: Write>(
    alloc: Global,
    channels: &mut MergedChannels<S>,
    setup: &FileSetup<'_>,
    times: &mut FileTimes<'_>,
    sent: &mut Sent,
    out: &mut W,
) -> Result<(), FileEnd>
    requires owned { (piece : OwnedPiece) → S.data_of piece ≡ owned_data piece }
    requires fits { IfSome times.old.next (λ point. point.tick < 2 ^ 48) }
    ensures { (facts : FileFacts) (before : Option (List ℕ)) → facts.setup ≡ setup.now
        → HasPlaced S.left facts before (W.contents out.old) sent.old times.old.next
        times.old.points channels.old
        → MatchResult result (λ _. HoldsFile facts before (W.contents out.new) sent.new.counts)
        (FileFails facts before (W.contents out.new)) }
{
    place_all(alloc, channels, setup, times, sent, out)?;
    match sent.put_index(alloc, out, true) {
        Ok(()) => Ok(()),
        Err(fault) => Err(FileEnd::Write(fault)),
    }
}
