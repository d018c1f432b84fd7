//! Where the clock of a file begins.

ghost use Rattle.std.specs.Prelude.{◌≡◌, IfSome, IfNone, neg_ℤ, pos, ◌+ℤ◌, ◌<ℤ◌};
ghost use Rattle.ch11_moved.specs.FileStarts.{earliest_from, IsRoundedDown};

use ch11_clock::Origin;

/// The number of nanoseconds of a tick.
const TICK: i128 = 100;

/// The earliest of an origin and of further ones, and of equal ones the first.
pub fn earliest(first: Origin, origins: &[Origin]) -> Origin
    ensures { result ≡ earliest_from first origins.now }
{
    let mut earliest = first;
    'origins: for origin in origins {
        if origin.nanos < earliest.nanos {
            earliest = *origin;
        }
    }
    earliest
}

/// The origin of a file's clock, of which the earliest of the recordings' is this one: rounded down to a whole
/// number of ticks. `None` where it lies 10^12 seconds or more before 1970.
pub fn file_start(earliest: Origin) -> Option<Origin>
    ensures rounded { IfSome result (λ start. IsRoundedDown earliest.nanos start.nanos) }
    ensures from_zero { IfSome result (λ start. start.counter ≡ 0) }
    ensures none { IfNone result (earliest.nanos
        <ℤ (neg_ℤ (pos 1_000_000_000_000_000_000_000) +ℤ pos 100)) }
{
    Origin::new(0, earliest.nanos.div_euclid(TICK) * TICK)
}
