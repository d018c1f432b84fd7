//! How far the times of a stream have come.

ghost use Rattle.std.specs.Prelude.{◌≡◌, ◌<◌, ◌^◌, List, IfOk, MatchResult, length};
ghost use Rattle.rec_stream.specs.StreamPieces.{StreamPiece};
ghost use Rattle.rec_stream.specs.StreamEnds.{StreamPast, GoingFails};
ghost use Rattle.rec_stream.specs.Sending.{HasCome, IsFreshStream};

use crate::due::last_due;
use crate::end::{StreamEnd, StreamRefusal};
use crate::limits::SETUP_TICKS;
use crate::made::Made;
use crate::sent::Sent;
use crate::time::{put_setup, put_time};
use ch11_clock::{CivilTime, civil_time};
use ch11_file::{FileSetup, FileTimes};
use std::alloc::Global;
use std::io::Write;
use std::marker::Model;

/// How far the times of a stream have come.
#[derive(Debug, Drop)]
pub(crate) struct Course<'a> {
    /// What the first time packet says.
    time: CivilTime,
    /// The time packets that are still to come.
    times: FileTimes<'a>,
    /// The counter of the last setup record.
    setup: u64,
}

impl<'a> Model for Course<'a> {
    ghost use Rattle.rec_stream.specs.Courses.{Course, CourseFits, course_of};

    ghost Value = { Course };

    ghost view = { λ c. course_of c.time c.times c.setup };

    ghost invariant = { λ c. CourseFits (course_of c.time c.times c.setup) };
}

/// Sends the setup record and the first time packet of a stream that begins with a packet of this least counter.
pub(crate) fn begin<'a, W: Write>(
    alloc: Global,
    made: Made<'a>,
    least: u64,
    sent: &mut Sent,
    out: &mut W,
) -> Result<Course<'a>, StreamEnd>
    requires least { least < 2 ^ 48 }
    requires number { length made.setup.now.channels.now < 2 ^ 16 }
    ensures begun { (past : StreamPast) (left : List StreamPiece)
        → past.facts.setup ≡ made.entry.setup.now → past.facts.rules ≡ made.entry.clock.now
        → IsFreshStream past least left (W.contents out.old) sent.old
        → MatchResult result
        (λ course. HasCome past (W.contents out.new) sent.new course left)
        (GoingFails past (W.contents out.new)) }
    ensures other { IfOk result (λ _. sent.new.counts.other ≡ sent.old.counts.other) }
{
    let mut times = FileTimes::new(made.clock, least);
    let Some(first) = times.next() else {
        return Err(StreamEnd::Refused(StreamRefusal::Origin));
    };
    let Some(time) = civil_time(first.moment) else {
        return Err(StreamEnd::Refused(StreamRefusal::Year));
    };
    put_setup(alloc, made.setup, time, first.tick, sent, out)?;
    put_time(made.setup, first, sent, out)?;
    times.advance();
    Ok(Course {
        time,
        times,
        setup: first.tick,
    })
}

impl<'a> Course<'a> {
    ghost use Rattle.std.specs.Prelude.{◌≡◌, ◌∷◌, ◌<◌, ◌^◌, List, OnOk, MatchResult, length};
    ghost use Rattle.ch11_file.specs.FileTimes.{tick_of};
    ghost use Rattle.rec_stream.specs.StreamPieces.{StreamPiece, stream_counter};
    ghost use Rattle.rec_stream.specs.StreamEnds.{StreamPast, GoingFails};
    ghost use Rattle.rec_stream.specs.Sending.{HasCome, IsReady};

    /// The tick of the next time packet.
    pub(crate) fn tick(&self) -> u64
        ensures { result ≡ tick_of self.now.times.next }
    {
        self.times.tick()
    }

    /// Sends the time packet that is due ahead of a piece of this counter, if one is, and ahead of it the setup record,
    /// if that is due.
    pub(crate) fn put_due<W: Write>(
        &mut self,
        alloc: Global,
        setup: &FileSetup<'_>,
        counter: u64,
        sent: &mut Sent,
        out: &mut W,
    ) -> Result<(), StreamEnd>
        requires counter { counter < 2 ^ 48 }
        requires number { length setup.now.channels.now < 2 ^ 16 }
        ensures ready { (past : StreamPast) (piece : StreamPiece) (others : List StreamPiece)
            → past.facts.setup ≡ setup.now
            → HasCome past (W.contents out.old) sent.old self.old (piece ∷ others)
            → counter ≡ stream_counter sent.old.greatest piece
            → MatchResult result
            (λ _. IsReady past (W.contents out.new) sent.new self.new piece others counter)
            (GoingFails past (W.contents out.new)) }
        ensures other { OnOk result (sent.new.counts.other ≡ sent.old.counts.other) }
    {
        let Some(point) = last_due(&mut self.times, counter) else {
            return Ok(());
        };
        if self.setup + SETUP_TICKS <= point.tick {
            put_setup(alloc, setup, self.time, point.tick, sent, out)?;
            self.setup = point.tick;
        }
        put_time(setup, point, sent, out)
    }
}
