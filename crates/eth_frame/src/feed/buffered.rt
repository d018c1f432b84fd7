//! How a feed is read from a reader with a buffer.
ghost use Rattle.std.specs.Prelude.{ℕ, ◌≡◌, ◌↔◌, ◌≤◌, ◌⊎◌, ◌++◌, List, length, take, IsSome, IfSome, IfErr, None, Some, Ok, false};
ghost use Rattle.std.specs.Option.{option_map};
ghost use Rattle.eth_frame.specs.Feed.{left_of_feed, failures_before};
ghost use Rattle.eth_frame.specs.FeedRecord.{mark_at};
ghost use Rattle.eth_frame.specs.FeedTaking.{TakesRecord};
ghost use Rattle.eth_frame.specs.TimedFeed.{left_of_timed_feed, left_given};

use crate::buffer::FrameBuf;
use crate::feed::head::{HEAD_LEN, decode_head};
use crate::feed::source::take_record;
use crate::source::{FrameSource, Next, SourceEnding, SourceFault};
use std::io::BufRead;

/// The source of the frames of a feed, as `FeedSource`, which is read from a reader with a buffer.
///
/// A record that lies whole in the buffer is taken from there in one step, another one in two pieces.
#[derive(Debug, Drop)]
pub struct BufferedFeedSource<R> {
    reader: R,
    timed: bool,
    ending: Option<SourceEnding>,
}

impl<R: BufRead> BufferedFeedSource<R> {
    /// The source of the frames that the reader has left. Each error of the reader is
    /// `SourceFault::Device`, also an interrupted read.
    pub fn new(reader: R) -> BufferedFeedSource<R>
        ensures told { ⟦<BufferedFeedSource<R> as FrameSource>⟧.left result
            ≡ option_map left_of_feed (R.remaining reader) }
        ensures open { ⟦<BufferedFeedSource<R> as FrameSource>⟧.ending result ≡ None }
        ensures no_failure { ⟦<BufferedFeedSource<R> as FrameSource>⟧.failures result ≡ 0 }
    {
        BufferedFeedSource {
            reader,
            timed: false,
            ending: None,
        }
    }

    /// The source of the frames and the time marks that the reader has left. A time mark is a record
    /// without bytes: its marks and its length are 0.
    pub fn with_times(reader: R) -> BufferedFeedSource<R>
        ensures told { ⟦<BufferedFeedSource<R> as FrameSource>⟧.left result
            ≡ option_map left_of_timed_feed (R.remaining reader) }
        ensures open { ⟦<BufferedFeedSource<R> as FrameSource>⟧.ending result ≡ None }
        ensures no_failure { ⟦<BufferedFeedSource<R> as FrameSource>⟧.failures result ≡ 0 }
    {
        BufferedFeedSource {
            reader,
            timed: true,
            ending: None,
        }
    }
}

impl<R: BufRead> FrameSource for BufferedFeedSource<R> {
    ghost left = { λ s. left_given s.timed s.ending (R.remaining s.reader) };

    ghost failures = { λ s. failures_before s.ending };

    ghost ending = { λ s. s.ending };

    fn next(&mut self, buffer: &mut FrameBuf) -> Result<Next, SourceFault> {
        buffer.clear();
        if let Some(ending) = self.ending {
            return ending.answer();
        }
        let answer = take_buffered(&mut self.reader, buffer, self.timed);
        self.ending = SourceEnding::of(answer);
        answer
    }

    ghost use Rattle.eth_frame.specs.FeedLaws.{given_once_ended, failed_once_given};

    ghost nothing_left = { λ s last e.
        given_once_ended s.timed s.ending (R.remaining s.reader) last e };

    ghost device_failed = { λ s. failed_once_given s.timed s.ending (R.remaining s.reader) };
}

/// Takes a whole record from the front of what the reader has left: in one step if its buffer has all of it.
fn take_buffered<R: BufRead>(
    reader: &mut R,
    buffer: &mut FrameBuf,
    timed: bool,
) -> Result<Next, SourceFault>
    requires { buffer.old ≡ None }
    ensures held { IsSome buffer.new ↔ (result ≡ Ok Next.Frame) }
    ensures record { IfSome (R.remaining reader.old) (λ bytes.
        TakesRecord bytes result buffer.new (R.remaining reader.new)) }
    // Of time marks, where there may be some.
    ensures time { timed ≡ false → (counter : ℕ) → ¬ (result ≡ Ok (Next.Time counter)) }
    ensures unmarked { IfErr result (λ fault. (fault ≡ SourceFault.Device)
        ⊎ IfSome (R.remaining reader.old) (λ bytes. mark_at timed bytes ≡ None)) }
{
    let bytes = match reader.fill_buf() {
        Ok(bytes) => bytes,
        Err(_) => return Err(SourceFault::Device),
    };
    if bytes.is_empty() {
        return Ok(Next::End);
    }
    if let Some(taken) = put_record(bytes, buffer) {
        reader.consume(taken);
        return Ok(Next::Frame);
    }
    take_record(reader, buffer, timed)
}

/// Puts the frame of the record at the front into the buffer, which is empty, if all of the record is
/// there, and returns its length. If not, the buffer stays empty.
fn put_record(bytes: &[u8], buffer: &mut FrameBuf) -> Option<usize>
    requires { buffer.old ≡ None }
    ensures held { IsSome buffer.new ↔ IsSome result }
    ensures count { IfSome result (λ n. n ≤ length bytes.now) }
    ensures record { IfSome result (λ n. (rest : List ℕ) →
        TakesRecord (take n bytes.now ++ rest) (Ok Next.Frame) buffer.new (Some rest)) }
{
    let front = bytes.first_chunk::<HEAD_LEN>()?;
    let Ok(head) = decode_head(front) else {
        return None;
    };
    let end = HEAD_LEN + head.len;
    if bytes.len() < end {
        return None;
    }
    buffer.put(head.with_bytes(&bytes[HEAD_LEN..end]));
    Some(end)
}
