//! Moments at which time packets may stand, and their ticks.
ghost use Rattle.std.specs.Prelude.{ℕ, ◌≡◌, ◌<◌, ◌≤◌, ◌^◌, IfSome, IfNone};
ghost use Rattle.ch11_clock.specs.Clock.{time_under};
ghost use Rattle.ch11_clock.specs.Moments.{IsTime, IsMoment, nanos_of, IsTick, IsFirstFrom, IsLastAt, IsNextSecond};

use crate::origin::Origin;

/// The number of nanoseconds of a hundredth of a second.
const HUNDREDTH: i128 = 10_000_000;

/// The number of nanoseconds of a tick.
pub(crate) const TICK: i128 = 100;

/// The number of hundredths of a second.
const SECOND: i64 = 100;

/// The time of a counter under an origin, in nanoseconds since 1970-01-01.
pub(crate) fn time_under(origin: Origin, counter: u64) -> i128
    requires { counter < 2 ^ 48 }
    ensures { result ≡ time_under origin counter }
{
    origin.nanos + counter as i128 * TICK
}

/// A moment in nanoseconds.
pub(crate) fn nanos_of(moment: i64) -> i128
    ensures { result ≡ nanos_of moment }
{
    moment as i128 * HUNDREDTH
}

/// The tick of a moment under an origin, if it has one below this end.
pub(crate) fn tick_below(origin: Origin, moment: i64, end: u64) -> Option<u64>
    requires { end ≤ 2 ^ 48 }
    ensures some { IfSome result (λ tick. IsTick origin moment tick) }
    ensures within { IfSome result (λ tick. tick < end) }
    ensures none { IfNone result ((tick : ℕ) → IsTick origin moment tick → end ≤ tick) }
{
    let tick = tick_of(origin, moment)?;
    if tick < end { Some(tick) } else { None }
}

/// The tick of a moment under an origin. `None` where it has none, or one of more than 48 bits.
fn tick_of(origin: Origin, moment: i64) -> Option<u64>
    ensures some { IfSome result (λ tick. IsTick origin moment tick) }
    ensures fits { IfSome result (λ tick. tick < 2 ^ 48) }
    ensures none { IfNone result ((tick : ℕ) → IsTick origin moment tick → 2 ^ 48 ≤ tick) }
{
    let ahead = moment as i128 * HUNDREDTH - origin.nanos;
    if ahead <= -TICK || ahead > ((1 << 48) - 1) * TICK {
        return None;
    }
    Some(((ahead + (TICK - 1)) / TICK) as u64)
}

/// The last moment that isn't behind a time.
pub(crate) fn last_at(time: i128) -> i64
    requires { IsTime time }
    ensures is { IsLastAt time result }
    ensures in_range { IsMoment result }
{
    time.div_euclid(HUNDREDTH) as i64
}

/// The first moment at or behind a time.
pub(crate) fn first_from(time: i128) -> i64
    requires { IsTime time }
    ensures is { IsFirstFrom time result }
    ensures in_range { IsMoment result }
{
    -last_at(-time)
}

/// The first whole second behind a moment.
pub(crate) fn next_second(moment: i64) -> i64
    requires { IsMoment moment }
    ensures { IsNextSecond moment result }
{
    (moment.div_euclid(SECOND) + 1) * SECOND
}
