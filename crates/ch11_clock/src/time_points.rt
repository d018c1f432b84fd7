//! The time packets of a recording, one by one.
use crate::origin::Origin;
use crate::time_point::TimePoint;
use crate::walk::{next_point, points_from};
use std::marker::Model;

/// The time packets of a recording that are still to come, by their ticks.
#[derive(Debug, Drop)]
pub struct TimePoints<'a> {
    rules: &'a [Origin],
    start: i64,
}

impl<'a> Model for TimePoints<'a> {
    ghost use Rattle.ch11_clock.specs.TimePoints.{PointsLeft, points_left, IsWalk};

    ghost Value = { PointsLeft };

    ghost view = { λ p. points_left p.rules.now p.start };

    ghost invariant = { λ p. IsWalk p.rules.now p.start };
}

impl<'a> TimePoints<'a> {
    ghost use Rattle.std.specs.Prelude.{◌≡◌, ◌<◌, ◌^◌, IfSome, IfNone};
    ghost use Rattle.ch11_clock.specs.Clock.{AreAscending};
    ghost use Rattle.ch11_clock.specs.TimePoints.{HoldsFrom, ArePointsFrom, IsNextPoint, HasNoPoint};

    /// The time packets of a recording with this least counter, under the origins that hold.
    pub(crate) fn of(rules: &'a [Origin], least: u64) -> TimePoints<'a>
        requires fits { least < 2 ^ 48 }
        requires ascending { AreAscending rules.now }
        requires holds { HoldsFrom rules.now least }
        ensures { ArePointsFrom least rules.now result }
    {
        let (rules, start) = points_from(rules, least);
        TimePoints { rules, start }
    }

    /// The next time packet. At `None` there is none, and never will be.
    pub fn next(&mut self) -> Option<TimePoint>
        ensures some { IfSome result (λ point.
            IsNextPoint self.old self.new point.moment point.tick) }
        ensures fits { IfSome result (λ point. point.tick < 2 ^ 48) }
        ensures none { IfNone result (HasNoPoint self.old) }
        ensures same { IfNone result (self.new ≡ self.old) }
    {
        let (point, rules, start) = next_point(self.rules, self.start)?;
        *self = TimePoints { rules, start };
        Some(point)
    }
}
