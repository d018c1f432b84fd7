//! The walk from a time packet to the next, under the origins that hold.
ghost use Rattle.std.specs.Prelude.{ℕ, ◌≡◌, ◌<◌, ◌≤◌, ◌^◌, IfSome, IfNone, IsTrue, ◌↔◌};
ghost use Rattle.ch11_clock.specs.Clock.{AreAscending, rule_end};
ghost use Rattle.ch11_clock.specs.Moments.{IsMoment};
ghost use Rattle.ch11_clock.specs.TimePoints.{points_left, ArePointsFrom, IsNextPoint, HasNoPoint, HasBegun};
ghost use Rattle.ch11_clock.specs.TimePoints.{IsFirstMoment, HoldsFrom, IsWalk};

use crate::moment::{TICK, first_from, last_at, nanos_of, next_second, tick_below, time_under};
use crate::origin::Origin;
use crate::time_point::TimePoint;

/// The rules under which the time packets of a recording with this least counter stand, and the
/// first moment of those.
pub(crate) fn points_from<'a>(rules: &'a [Origin], least: u64) -> (&'a [Origin], i64)
    requires fits { least < 2 ^ 48 }
    requires ascending { AreAscending rules.now }
    requires holds { HoldsFrom rules.now least }
    ensures same { ArePointsFrom least rules.now (points_left result.0.now result.1) }
    ensures walk { IsWalk result.0.now result.1 }
{
    let mut left = rules;
    'rules: while let Some((rule, later)) = left.split_first() {
        if least < rule_end(later) {
            return (left, first_moment(*rule, least));
        }
        left = later;
    }
    (left, 0)
}

/// The first moment of a recording under the rule that holds at its least counter.
fn first_moment(rule: Origin, least: u64) -> i64
    requires fits { least < 2 ^ 48 }
    requires holds { rule.counter ≤ least }
    ensures first { (end : ℕ) → least < end → IsFirstMoment rule end least result }
    ensures begun { HasBegun rule result }
    ensures in_range { IsMoment result }
{
    let last = last_at(time_under(rule, least));
    if has_begun(rule, last) {
        last
    } else {
        last + 1
    }
}

/// Whether a rule has begun at a moment.
fn has_begun(rule: Origin, moment: i64) -> bool
    requires { IsMoment moment }
    ensures { IsTrue result ↔ HasBegun rule moment }
{
    time_under(rule, rule.counter) < nanos_of(moment) + TICK
}

/// The next time packet under rules of which the first has begun at a moment; the rules under which
/// those behind it stand, and the first moment of those.
pub(crate) fn next_point<'a>(
    rules: &'a [Origin],
    start: i64,
) -> Option<(TimePoint, &'a [Origin], i64)>
    requires walk { IsWalk rules.now start }
    ensures some { IfSome result (λ found. IsNextPoint (points_left rules.now start)
        (points_left found.1.now found.2) found.0.moment found.0.tick) }
    ensures walk { IfSome result (λ found. IsWalk found.1.now found.2) }
    ensures fits { IfSome result (λ found. found.0.tick < 2 ^ 48) }
    ensures none { IfNone result (HasNoPoint (points_left rules.now start)) }
{
    let mut left = rules;
    let mut moment = start;
    'rules: while let Some((rule, later)) = left.split_first() {
        if let Some(tick) = tick_below(*rule, moment, rule_end(later)) {
            return Some((TimePoint { moment, tick }, left, next_second(moment)));
        }
        left = later;
        if let Some((next, _)) = later.split_first() {
            moment = first_from(time_under(*next, next.counter));
        }
    }
    None
}

/// Where a rule ends, of which these follow.
fn rule_end(rules: &[Origin]) -> u64
    ensures end { result ≡ rule_end rules.now }
    ensures most { result ≤ 2 ^ 48 }
{
    match rules {
        [] => 1 << 48,
        [next, ..] => next.counter,
    }
}
