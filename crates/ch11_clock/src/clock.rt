//! The clock of a recording.
ghost use Rattle.std.specs.Prelude.{◌≡◌, ◌<◌, ◌^◌};
ghost use Rattle.ch11_clock.specs.Clock.{clock_time};

use crate::held::held_origins;
use crate::moment::time_under;
use crate::origin::Origin;
use crate::time_points::TimePoints;
use std::alloc::{AllocError, Global};
use std::marker::Model;

/// The clock of a recording: the origins that hold, each from its counter on.
#[derive(Debug, Drop)]
pub struct Clock {
    rules: Vec<Origin>,
}

impl Model for Clock {
    ghost use Rattle.std.specs.Prelude.{List};
    ghost use Rattle.ch11_clock.specs.declared.origin.Origin.{Origin};
    ghost use Rattle.ch11_clock.specs.Clock.{IsClock};

    ghost Value = { List Origin };

    ghost view = { λ c. c.rules.items };

    ghost invariant = { λ c. IsClock c.rules.items };
}

impl Clock {
    ghost use Rattle.std.specs.Prelude.{ℕ, ◌≡◌, ◌<◌, ◌^◌, IfOk, length};
    ghost use Rattle.ch11_clock.specs.Clock.{started, held_origins, clock_time};
    ghost use Rattle.ch11_clock.specs.TimePoints.{ArePointsFrom};

    /// The clock of a recording for which these origins were noted, in this order. The first holds
    /// from counter 0 on, and an origin ends the rule of all before it that begin at its counter or
    /// later.
    pub fn new(alloc: Global, origins: &[Origin]) -> Result<Clock, AllocError>
        requires some { 0 < length origins.now }
        ensures held { IfOk result (λ clock. clock ≡ held_origins (started origins.now)) }
        ensures same { IfOk result (λ clock. (counter : ℕ)
            → clock_time clock counter ≡ clock_time origins.now counter) }
    {
        let rules = held_origins(alloc, origins)?;
        Ok(Clock { rules })
    }

    /// The time of a counter, in nanoseconds since 1970-01-01.
    pub fn time(&self, counter: u64) -> i128
        requires { counter < 2 ^ 48 }
        ensures { result ≡ clock_time self.now counter }
    {
        time_of(&self.rules, counter)
    }

    /// The time packets of a recording with this least counter.
    pub fn time_points(&self, least: u64) -> TimePoints<'_>
        requires { least < 2 ^ 48 }
        ensures { ArePointsFrom least self.now result }
    {
        TimePoints::of(&self.rules, least)
    }
}

/// The time of a counter by these origins, of which the first holds from 0 on: 0 if there are none.
fn time_of(origins: &[Origin], counter: u64) -> i128
    requires { counter < 2 ^ 48 }
    ensures { result ≡ clock_time origins.now counter }
{
    let Some((first, later)) = origins.split_first() else {
        return 0;
    };
    let mut held = *first;
    'origins: for origin in later {
        if origin.counter <= counter {
            held = *origin;
        }
    }
    time_under(held, counter)
}
