//! A time packet.

ghost use Rattle.std.specs.Prelude.{ℕ, ◌≡◌, ◌<◌, ◌^◌, List, Option, IfSome, OnOk, MatchResult};
ghost use Rattle.ch11_merge.specs.Merging.{ChannelLeft};
ghost use Rattle.ch11_file.specs.FileTimes.{WalksTimes, tick_of};
ghost use Rattle.ch11_file.specs.WholeFile.{FileFacts, FileStage, TimeIsDue, merge_state};
ghost use Rattle.ch11_file.specs.WholeFile.FileStage.{Merging};
ghost use Rattle.ch11_file.specs.FileEnds.{FileFails};
ghost use Rattle.ch11_file.specs.Sending.{HasSent};

use crate::end::{FileEnd, Refusal};
use crate::kind::{BlockHead, BlockKind};
use crate::sent::Sent;
use crate::setup::FileSetup;
use crate::times::FileTimes;
use ch11_clock::time_body;
use ch11_merge::PieceFault;
use std::alloc::Global;
use std::io::Write;

/// Sends the next time packet, which is due. A source that stands at a counter of over 48 bits has none ahead
/// of it, and is at fault.
pub(crate) fn put_time<W: Write>(
    alloc: Global,
    setup: &FileSetup<'_>,
    times: &mut FileTimes<'_>,
    sent: &mut Sent,
    out: &mut W,
) -> Result<(), FileEnd>
    requires { IfSome times.old.next (λ point. point.tick < 2 ^ 48) }
    ensures put { (facts : FileFacts) (before : Option (List ℕ)) (stage : FileStage)
        (left : List ChannelLeft) → facts.setup ≡ setup.now
        → WalksTimes facts.least facts.rules times.old.next times.old.points
        → HasSent facts before (W.contents out.old) sent.old
        (merge_state stage (tick_of times.old.next) left)
        → TimeIsDue sent.old.index.greatest stage (tick_of times.old.next) left
        → MatchResult result (λ _. HasSent facts before (W.contents out.new) sent.new
        (merge_state Merging (tick_of times.new.next) left)
        × WalksTimes facts.least facts.rules times.new.next times.new.points)
        (FileFails facts before (W.contents out.new)) }
    ensures grows { OnOk result ((sent.old.index.place < sent.new.index.place)
        × (sent.new.index.place < 2 ^ 64)) }
    ensures fits { OnOk result (IfSome times.new.next (λ point. point.tick < 2 ^ 48)) }
{
    let Some(point) = times.next() else {
        return Err(FileEnd::Pieces(PieceFault::Device));
    };
    let Some(body) = time_body(point.moment, setup.is_external) else {
        return Err(FileEnd::Refused(Refusal::Year));
    };
    let head = BlockHead {
        kind: BlockKind::Time,
        channel: setup.time_channel,
        counter: point.tick,
    };
    times.advance();
    match sent.put(alloc, out, head, &body) {
        Ok(()) => Ok(()),
        Err(fault) => Err(FileEnd::Write(fault)),
    }
}
