//! Origins of a recording's clock.
ghost use Rattle.ch11_clock.specs.OriginRange.{IsOrigin};

/// The greatest counter.
const MAX_COUNTER: u64 = (1 << 48) - 1;

/// The nanoseconds of 10^12 seconds.
const NANOS_END: i128 = 1_000_000_000_000_000_000_000;

/// The time of counter 0, in nanoseconds since 1970-01-01, and the counter from which on it holds.
#[derive(Clone, Copy, Debug, PartialEq, Eq)]
pub struct Origin {
    pub counter: u64,
    pub nanos: i128,
    pub ghost in_range: { IsOrigin counter nanos },
}

impl Origin {
    ghost use Rattle.std.specs.Prelude.{◌≡◌, ◌↔◌, IsSome, IfSome};

    /// An origin with these parts. `None` where the counter has more than 48 bits, or the time lies
    /// 10^12 seconds or more from 1970.
    pub fn new(counter: u64, nanos: i128) -> Option<Origin>
        ensures in_range { IsSome result ↔ IsOrigin counter nanos }
        ensures counter { IfSome result (λ origin. origin.counter ≡ counter) }
        ensures nanos { IfSome result (λ origin. origin.nanos ≡ nanos) }
    {
        if counter > MAX_COUNTER || nanos <= -NANOS_END || nanos >= NANOS_END {
            return None;
        }
        Some(Origin { counter, nanos })
    }
}
