//! The origins that hold.
ghost use Rattle.std.specs.Prelude.{◌≡◌, ◌<◌, ◌^◌, IfOk, length, get_or};
ghost use Rattle.ch11_clock.specs.Clock.{from_start, started, held_origins};

use crate::origin::Origin;
use std::alloc::{AllocError, Global};

/// The origins that hold, of those that were noted in this order. The first counts from 0 on.
pub(crate) fn held_origins(alloc: Global, origins: &[Origin]) -> Result<Vec<Origin>, AllocError>
    ensures { IfOk result (λ rules. rules.items ≡ held_origins (started origins.now)) }
{
    let mut rules = Vec::new(alloc);
    let mut end = 1 << 48;
    let mut at = origins.len();
    'held: while at > 0 {
        at -= 1;
        let origin = noted_at(origins, at);
        if origin.counter < end {
            rules.push(origin)?;
            end = origin.counter;
        }
    }
    rules.reverse();
    Ok(rules)
}

/// The origin at an index; the first begins at counter 0.
fn noted_at(origins: &[Origin], at: usize) -> Origin
    requires { at < length origins.now }
    ensures { result ≡ get_or (started origins.now) at result }
{
    if at == 0 {
        from_start(origins[0])
    } else {
        origins[at]
    }
}

/// The same time, from counter 0 on.
fn from_start(origin: Origin) -> Origin
    ensures { result ≡ from_start origin }
{
    Origin {
        counter: 0,
        nanos: origin.nanos,
    }
}
