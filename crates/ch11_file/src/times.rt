//! The time packets of a file, one by one.

ghost use Rattle.std.specs.Prelude.{ℕ, ◌≡◌, ◌<◌, ◌^◌, List, None, Some, IfSome};
ghost use Rattle.ch11_clock.specs.declared.origin.Origin.{Origin};
ghost use Rattle.ch11_clock.specs.declared.time_point.TimePoint.{TimePoint};
ghost use Rattle.ch11_file.specs.FileTimes.{HasNoTime, IsFirstTime, IsNextTick, WalksTimes, tick_of};

use ch11_clock::{Clock, TimePoint, TimePoints};

/// The tick that no counter reaches.
const NO_TICK: u64 = 1 << 48;

/// The time packets that are still to come, and the next of them.
#[derive(Debug, Drop)]
pub struct FileTimes<'c> {
    pub points: TimePoints<'c>,
    pub next: Option<TimePoint>,
}

impl<'c> FileTimes<'c> {
    /// The time packets of a recording with this least counter.
    pub fn new(clock: &'c Clock, least: u64) -> FileTimes<'c>
        requires { least < 2 ^ 48 }
        ensures none { result.next ≡ None → HasNoTime least clock.now }
        ensures first { IfSome result.next (λ point.
            IsFirstTime least clock.now point.moment point.tick) }
        ensures walks { WalksTimes least clock.now result.next result.points }
        ensures fits { IfSome result.next (λ point. point.tick < 2 ^ 48) }
    {
        let mut points = clock.time_points(least);
        let next = points.next();
        FileTimes { points, next }
    }

    /// The next time packet.
    pub fn next(&self) -> Option<TimePoint>
        ensures { result ≡ self.now.next }
    {
        self.next
    }

    /// The tick of the next time packet: where there is none, one that no counter reaches.
    pub fn tick(&self) -> u64
        ensures { result ≡ tick_of self.now.next }
    {
        match self.next {
            Some(point) => point.tick,
            None => NO_TICK,
        }
    }

    /// The next time packet went out.
    pub fn advance(&mut self)
        requires fits { IfSome self.old.next (λ point. point.tick < 2 ^ 48) }
        ensures follows { (least : ℕ) (rules : List Origin) (point : TimePoint)
            → self.old.next ≡ Some point → WalksTimes least rules self.old.next self.old.points
            → IsNextTick least rules point.tick (tick_of self.new.next) }
        ensures walks { (least : ℕ) (rules : List Origin) (point : TimePoint)
            → self.old.next ≡ Some point → WalksTimes least rules self.old.next self.old.points
            → WalksTimes least rules self.new.next self.new.points }
        ensures fits { IfSome self.new.next (λ point. point.tick < 2 ^ 48) }
    {
        self.next = self.points.next();
    }
}
