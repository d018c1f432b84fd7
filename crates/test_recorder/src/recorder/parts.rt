//! The parts of a recording that the tests watch: marks, sources, controls and outputs.

ghost use Rattle.std.specs.Prelude.{◌≡◌, [], false};

use super::script::Script;
use crate::shared::settings;
use crate::writer::{Output, Then};
use ch11_packet::MIN_LIMIT;
use eth_frame::FeedSource;
use rec_run::*;
use std::alloc::Global;
use std::io::{ErrorKind, Read, Write};
use std::sync::Arc;
use std::sync::atomic::{AtomicU64, Ordering};
use std::test::Fail;
use std::{io, thread};
use test_samples::{all_bytes, program};

/// How many turns a wait takes at most.
const TURNS: u32 = 30_000_000;

/// How many turns are soon.
const SOON: u32 = 100_000;

/// A mark that doesn't exist: whoever waits for it fails at once.
pub(super) const NEVER: usize = 99;

/// How many marks there are.
const MARKS: usize = 8;

/// The mark that is never waited for and means nothing.
pub(super) const NONE: usize = 7;

/// Marks that threads set and wait for.
#[derive(Drop)]
pub(super) struct Marks {
    marks: [AtomicU64; MARKS],
}

pub(super) type Shared = Arc<Marks, Global>;

/// Marks of which only [`NONE`] is set.
pub(super) fn fresh_marks(alloc: Global) -> Result<Shared, Fail> {
    Ok(Arc::new(
        alloc,
        Marks {
            marks: [
                AtomicU64::new(0),
                AtomicU64::new(0),
                AtomicU64::new(0),
                AtomicU64::new(0),
                AtomicU64::new(0),
                AtomicU64::new(0),
                AtomicU64::new(0),
                AtomicU64::new(1),
            ],
        },
    )?)
}

impl Marks {
    pub(super) fn set(&self, mark: usize) {
        if let Some(mark) = self.marks.get(mark) {
            mark.store(1, Ordering::SeqCst);
        }
    }

    /// Waits until a mark is set; `false` if it isn't after many turns.
    pub(super) fn wait(&self, mark: usize) -> bool {
        self.comes(mark, TURNS)
    }

    /// Whether a mark is set within so many turns.
    fn comes(&self, mark: usize, turns: u32) -> bool {
        let Some(mark) = self.marks.get(mark) else {
            return false;
        };
        for _turn in 0..turns {
            if mark.load(Ordering::SeqCst) != 0 {
                return true;
            }
            thread::yield_now();
        }
        false
    }
}

/// What a source gives at a call, and so many times again: bytes, or none at its end. It says that
/// the call began, waits for two marks, and says that it gave.
#[derive(Drop)]
pub(super) struct Stage {
    pub(super) bytes: Vec<u8>,
    pub(super) again: usize,
    pub(super) began: usize,
    pub(super) needs: [usize; 2],
    pub(super) gave: usize,
}

/// A stage of one frame or of none.
pub(super) fn stage_of(bytes: Vec<u8>, began: usize, needs: [usize; 2], gave: usize) -> Stage {
    Stage {
        bytes,
        again: 0,
        began,
        needs,
        gave,
    }
}

/// A reader of stages, one after the other. It gives at most `most` bytes a call, and fails after
/// this number of calls.
#[derive(Drop)]
pub(super) struct Stages {
    pub(super) marks: Shared,
    pub(super) stages: Vec<Stage>,
    most: usize,
    calls: usize,
    at: usize,
    given: usize,
    within: usize,
}

/// A source over stages.
pub(super) fn source(marks: Shared, stages: Vec<Stage>) -> FeedSource<Stages> {
    failing_source(marks, stages, usize::MAX, usize::MAX)
}

/// A source over stages that come in pieces of at most `most` bytes, and whose reader fails after
/// this number of calls.
pub(super) fn failing_source(
    marks: Shared,
    stages: Vec<Stage>,
    most: usize,
    calls: usize,
) -> FeedSource<Stages> {
    FeedSource::new(Stages {
        marks,
        stages,
        most,
        calls,
        at: 0,
        given: 0,
        within: 0,
    })
}

impl Read for Stages {
    fn read(&mut self, buf: &mut [u8]) -> io::Result<usize> {
        let Some(calls) = self.calls.checked_sub(1) else {
            return Err(io::Error::from(ErrorKind::BrokenPipe));
        };
        self.calls = calls;
        let Some(stage) = self.stages.get(self.at) else {
            return Ok(0);
        };
        if self.within == 0 {
            self.marks.set(stage.began);
            if !self.marks.wait(stage.needs[0]) || !self.marks.wait(stage.needs[1]) {
                return Err(io::Error::from(ErrorKind::TimedOut));
            }
        }
        let Some(left) = stage.bytes.get(self.within..) else {
            return Ok(0);
        };
        let count = left.len().min(buf.len()).min(self.most);
        buf[..count].copy_from_slice(&left[..count]);
        self.within += count;
        if self.within == stage.bytes.len() && count > 0 {
            self.marks.set(stage.gave);
            self.within = 0;
            if self.given < stage.again {
                self.given = self.given.saturating_add(1);
            } else {
                self.at += 1;
                self.given = 0;
            }
        }
        Ok(count)
    }
}

/// What a control does when it is asked: it says that the call began, waits, and gives a change or
/// ends.
#[derive(Drop)]
pub(super) struct Step {
    pub(super) change: Option<Change>,
    pub(super) began: usize,
    pub(super) needs: usize,
}

/// A step that gives a change of a channel.
pub(super) fn change(
    alloc: Global,
    channel: u16,
    listing: &str,
    needs: usize,
) -> Result<Step, Fail> {
    let program = program(alloc, listing)?;
    Ok(Step {
        change: Some(Change { channel, program }),
        began: NONE,
        needs,
    })
}

/// A step that ends.
pub(super) fn end(began: usize, needs: usize) -> Step {
    Step {
        change: None,
        began,
        needs,
    }
}

/// A control with these steps, which has given and was told nothing.
pub(super) fn fresh_script(
    alloc: Global,
    marks: Shared,
    steps: Vec<Step>,
    told_mark: usize,
) -> Script
    ensures given { result.log.given ≡ [] }
    ensures told { result.log.answered ≡ [] }
    ensures goes_on { result.log.ended ≡ false }
{
    Script {
        marks,
        steps,
        log: ControlLog::new(alloc),
        told_mark,
        late: false,
    }
}

/// An output behind marks. Its first write waits for one, and fails if another one comes soon after
/// that; it sets one when it has so many bytes.
#[derive(Drop)]
pub(super) struct Watched {
    pub(super) output: Output,
    pub(super) marks: Shared,
    pub(super) needs: usize,
    pub(super) refuses: usize,
    pub(super) full: usize,
    pub(super) full_mark: usize,
}

impl Write for Watched {
    fn write(&mut self, buf: &[u8]) -> io::Result<usize> {
        if self.output.bytes.is_empty() {
            let late = !self.marks.wait(self.needs);
            if late || self.marks.comes(self.refuses, SOON) {
                return Err(io::Error::from(ErrorKind::TimedOut));
            }
        }
        let count = self.output.write(buf)?;
        if self.output.bytes.len() >= self.full {
            self.marks.set(self.full_mark);
        }
        Ok(count)
    }

    fn flush(&mut self) -> io::Result<()> {
        self.output.flush()
    }
}

/// An output behind marks that waits for none and has room for so many bytes.
pub(super) fn output(alloc: Global, marks: Shared, room: usize) -> Watched {
    behind_marks(Output::new(alloc, room, usize::MAX, Then::Fails), marks)
}

/// An output behind marks, which waits for none of them.
pub(super) fn behind_marks(output: Output, marks: Shared) -> Watched {
    Watched {
        output,
        marks,
        needs: NONE,
        refuses: NEVER,
        full: usize::MAX,
        full_mark: NONE,
    }
}

/// A job of a channel with speed 3, whose packets are of the least limit.
pub(super) fn job(
    alloc: Global,
    channel: u16,
    listing: &str,
    source: FeedSource<Stages>,
) -> Result<Job<FeedSource<Stages>>, Fail> {
    Ok(Job {
        spec: settings(channel, MIN_LIMIT)?,
        program: program(alloc, listing)?,
        max: u64::MAX,
        source,
    })
}

/// The feed record of the ARP frame with a counter.
pub(super) fn record_of(alloc: Global, counter: u8) -> Result<Vec<u8>, Fail> {
    let mut bytes = all_bytes(
        alloc,
        "000000000000 00 1200 ffffffffffff 020000000001 0806 a1b2c3d4",
    )?;
    if let Some(first) = bytes.first_mut() {
        *first = counter;
    }
    Ok(bytes)
}
