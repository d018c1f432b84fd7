//! Sources of frames of which only the lengths matter, and recordings of them.

ghost use Rattle.std.specs.Prelude.{◌≤◌};

use crate::shared::settings;
use eth_frame::{Frame, FrameBuf, FrameSource, MAX_FRAME_LEN, Next, SourceFault};
use rec_run::{Done, Job, jobs_ok, record};
use std::alloc::Global;
use std::io::Write;
use std::sync::Wait;
use std::test::Fail;
use std::thread::Threads;
use test_samples::{NoChanges, program};

/// Accepts each frame.
pub(super) const ACCEPT: &str = "1,6 0 0 1,";

/// Drops each frame.
pub(super) const REJECT: &str = "1,6 0 0 0,";

/// The length of the longest frame, which fills a packet of the least limit.
pub(super) const LONGEST: usize = MAX_FRAME_LEN;

/// Tells the length of each frame when it is asked for.
pub(super) trait Lengths {
    /// The source is asked, maybe after its end.
    fn asked(&mut self) {}

    /// The length of the next frame; `None` if there is none any more.
    fn next_len(&mut self) -> Option<usize>;
}

/// A source of frames of zeros, with counter 0.
#[derive(Drop)]
pub(super) struct Frames<L: Drop> {
    pub(super) lengths: L,
    zeros: Vec<u8>,
    ended: bool,
}

impl<L: Lengths + Drop> Frames<L> {
    ghost use Rattle.std.specs.Prelude.{◌≡◌, ◌↔◌, None, IsSome, IsTrue};

    /// A source of frames with these lengths.
    fn new(alloc: Global, lengths: L) -> Result<Frames<L>, Fail> {
        Ok(Frames {
            lengths,
            zeros: vec![in alloc; 0u8; LONGEST]?,
            ended: false,
        })
    }

    /// Puts the next frame into the buffer; `false` if there is none.
    fn give(&mut self, buffer: &mut FrameBuf) -> bool
        requires { buffer.old ≡ None }
        ensures given { IsTrue result ↔ IsSome buffer.new }
        ensures ended { self.new.ended ≡ self.old.ended }
    {
        let Some(len) = self.lengths.next_len() else {
            return false;
        };
        let bytes = self.zeros.get(..len).unwrap_or(&[]);
        let Some(frame) = Frame::new(0, false, false, bytes) else {
            return false;
        };
        buffer.put(frame);
        true
    }
}

impl<L: Lengths + Drop> FrameSource for Frames<L> {
    ghost use Rattle.std.specs.Prelude.{if◌then◌else◌, None, Some};
    ghost use Rattle.eth_frame.specs.declared.source.SourceEnding.TheVariants.{End};

    ghost left = { λ s. None };

    ghost failures = { λ s. 0 };

    ghost ending = { λ s. if s.ended then Some End else None };

    ghost nothing_left = { λ s last e. tt };

    ghost device_failed = { λ s. tt };

    fn next(&mut self, buffer: &mut FrameBuf) -> Result<Next, SourceFault> {
        buffer.clear();
        self.lengths.asked();
        if !self.ended && self.give(buffer) {
            return Ok(Next::Frame);
        }
        self.ended = true;
        Ok(Next::End)
    }
}

/// A job of a channel with speed 3, whose packets are of this limit.
pub(super) fn job<L: Lengths + Drop>(
    alloc: Global,
    channel: u16,
    listing: &str,
    limit: u32,
    lengths: L,
) -> Result<Job<Frames<L>>, Fail> {
    let source = Frames::new(alloc, lengths)?;
    Ok(Job {
        spec: settings(channel, limit)?,
        program: program(alloc, listing)?,
        max: u64::MAX,
        source,
    })
}

/// A recording that ends, without changes.
pub(super) fn recorded<L: Lengths + Send + Drop, W: Write + Drop, R: Threads + Wait + Sync>(
    rt: &R,
    alloc: Global,
    jobs: Vec<Job<Frames<L>>>,
    ring: usize,
    out: W,
) -> Result<Done<Frames<L>, NoChanges, W>, &'static str>
    requires { (1 ≤ ring) × (ring ≤ 4096) }
{
    if !jobs_ok(jobs.as_slice()) {
        return Err("jobs that may be recorded");
    }
    match record(rt, alloc, jobs, ring, 8, NoChanges::new(alloc), out) {
        Ok(done) => Ok(done),
        Err(_) => Err("a recording that ends"),
    }
}
