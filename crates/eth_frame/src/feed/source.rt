//! How a feed is read.
ghost use Rattle.std.specs.Prelude.{ℕ, ◌≡◌, ◌↔◌, ◌<◌, ◌⊎◌, length, IsSome, IfSome, IsSomeAnd, OnOk, OnErr, IfErr, None, Ok, false};
ghost use Rattle.std.specs.Io.KnownBytes.{Consumes};
ghost use Rattle.std.specs.Option.{option_map};
ghost use Rattle.eth_frame.specs.Heads.{HasFrameHead};
ghost use Rattle.eth_frame.specs.Feed.{left_of_feed, left_of_source, failures_before};
ghost use Rattle.eth_frame.specs.FeedRecord.{mark_at};
ghost use Rattle.eth_frame.specs.FeedTaking.{TakesRecord};

use crate::buffer::{FrameBuf, fill};
use crate::feed::head::{HEAD_LEN, decode_head, time_of};
use crate::frame::FrameHead;
use crate::source::{FrameSource, Next, SourceEnding, SourceFault};
use std::io::Read;

/// The source of the frames of a feed, which is read from `R`.
///
/// A feed is a record for each frame, one after the other: the counter in 6 bytes, the marks in 1
/// (bit 0: a wrong check sequence; bit 1: another fault; the other bits 0), the length in 2 (18 to
/// 16,383), and then the frame's bytes. A number's lowest byte comes first. The feed ends where a
/// record has ended.
///
/// It reads a record in two pieces, so give it a buffered reader over a file or a device.
#[derive(Debug, Drop)]
pub struct FeedSource<R> {
    reader: R,
    ending: Option<SourceEnding>,
}

impl<R: Read> FeedSource<R> {
    /// The source of the frames that the reader has left. Each error of the reader is
    /// `SourceFault::Device`, also an interrupted read.
    pub fn new(reader: R) -> FeedSource<R>
        ensures told { ⟦<FeedSource<R> as FrameSource>⟧.left result
            ≡ option_map left_of_feed (R.remaining reader) }
        ensures open { ⟦<FeedSource<R> as FrameSource>⟧.ending result ≡ None }
        ensures no_failure { ⟦<FeedSource<R> as FrameSource>⟧.failures result ≡ 0 }
    {
        FeedSource {
            reader,
            ending: None,
        }
    }
}

impl<R: Read> FrameSource for FeedSource<R> {
    ghost left = { λ s. left_of_source s.ending (R.remaining s.reader) };

    ghost failures = { λ s. failures_before s.ending };

    ghost ending = { λ s. s.ending };

    fn next(&mut self, buffer: &mut FrameBuf) -> Result<Next, SourceFault> {
        buffer.clear();
        if let Some(ending) = self.ending {
            return ending.answer();
        }
        let answer = take_record(&mut self.reader, buffer, false);
        self.ending = SourceEnding::of(answer);
        answer
    }

    ghost use Rattle.eth_frame.specs.FeedLaws.{left_once_ended, failed_once_ended};

    ghost nothing_left = { λ s last e. left_once_ended s.ending (R.remaining s.reader) last e };

    ghost device_failed = { λ s. failed_once_ended s.ending (R.remaining s.reader) };
}

/// Takes a whole record from the front of what the reader has left; a time mark too, where there may be some.
pub(super) fn take_record<R: Read>(
    reader: &mut R,
    buffer: &mut FrameBuf,
    timed: bool,
) -> Result<Next, SourceFault>
    requires { buffer.old ≡ None }
    ensures held { IsSome buffer.new ↔ (result ≡ Ok Next.Frame) }
    ensures record { IfSome (R.remaining reader.old) (λ bytes.
        TakesRecord bytes result buffer.new (R.remaining reader.new)) }
    // Of time marks, where there may be some.
    ensures time { timed ≡ false → (counter : ℕ) → ¬ (result ≡ Ok (Next.Time counter)) }
    ensures unmarked { IfErr result (λ fault. (fault ≡ SourceFault.Device)
        ⊎ IfSome (R.remaining reader.old) (λ bytes. mark_at timed bytes ≡ None)) }
{
    let mut bytes = [0; HEAD_LEN];
    let filled = fill(reader, &mut bytes)?;
    if filled == 0 {
        return Ok(Next::End);
    }
    if filled < HEAD_LEN {
        return Err(SourceFault::Truncated);
    }
    if let Some(counter) = mark_of(timed, &bytes) {
        return Ok(Next::Time(counter));
    }
    let head = decode_head(&bytes)?;
    take_body(head, reader, buffer)?;
    Ok(Next::Frame)
}

/// The counter of the time mark that these bytes are, where there may be some.
fn mark_of(timed: bool, bytes: &[u8; HEAD_LEN]) -> Option<u64>
    ensures { result ≡ mark_at timed bytes.now }
{
    if timed { time_of(bytes) } else { None }
}

/// Takes the bytes of the frame with this head, which come next.
fn take_body<R: Read>(
    head: FrameHead,
    reader: &mut R,
    buffer: &mut FrameBuf,
) -> Result<(), SourceFault>
    requires { buffer.old ≡ None }

    // At Ok.
    ensures ok { OnOk result (IsSomeAnd buffer.new (λ frame. HasFrameHead head frame
        × Consumes (R.remaining reader.old) (R.remaining reader.new) frame.bytes)) }

    // At a fault.
    ensures err { OnErr result (buffer.new ≡ None) }
    ensures fault { IfErr result (λ fault. (fault ≡ SourceFault.Device)
        ⊎ ((fault ≡ SourceFault.Truncated)
        × IfSome (R.remaining reader.old) (λ bytes. length bytes < head.len))) }
{
    if buffer.read_frame(head, reader)? {
        Ok(())
    } else {
        Err(SourceFault::Truncated)
    }
}
