//! Counters by the clock of a file.

ghost use Rattle.std.specs.Prelude.{ℕ, ◌≡◌, ◌<◌, ◌≤◌, ◌^◌, IfSome, IfNone, pos};
ghost use Rattle.ch11_clock.specs.Clock.{clock_time};
ghost use Rattle.ch11_clock.specs.Moments.{IsTime};
ghost use Rattle.ch11_moved.specs.MovedCounters.{IsMoved};

use ch11_clock::{Clock, Origin};

/// The number of nanoseconds of a tick.
const TICK: i128 = 100;

/// Half of them.
const HALF: i128 = 50;

/// How many counters there are.
const COUNTERS: i128 = 1 << 48;

/// The counter that the clock of a file, which begins at `start`, gives to the time of a recording's counter: the
/// nearest, and of two the later. `None` where it has more than 48 bits, or the time lies before the clock's
/// beginning.
pub fn moved_counter(start: Origin, clock: &Clock, counter: u64) -> Option<u64>
    requires { counter < 2 ^ 48 }
    ensures some { IfSome result (IsMoved start.nanos (clock_time clock.now counter)) }
    ensures fits { IfSome result (λ moved. moved < 2 ^ 48) }
    ensures none { IfNone result ((moved : ℕ)
        → IsMoved start.nanos (clock_time clock.now counter) moved → 2 ^ 48 ≤ moved) }
{
    nearest(time_of(clock, counter) - start.nanos)
}

/// The time of a counter.
fn time_of(clock: &Clock, counter: u64) -> i128
    requires { counter < 2 ^ 48 }
    ensures is { result ≡ clock_time clock.now counter }
    ensures in_range { IsTime result }
{
    clock.time(counter)
}

/// The counter that is the nearest to a time that lies so far ahead of the beginning.
fn nearest(ahead: i128) -> Option<u64>
    ensures some { IfSome result (IsMoved (pos 0) ahead) }
    ensures fits { IfSome result (λ moved. moved < 2 ^ 48) }
    ensures none { IfNone result ((moved : ℕ) → IsMoved (pos 0) ahead moved → 2 ^ 48 ≤ moved) }
{
    if ahead < -HALF || ahead >= COUNTERS * TICK - HALF {
        return None;
    }
    Some(((ahead + HALF) / TICK) as u64)
}
