//! Laws of moved counters, with nothing to run.

ghost use Rattle.std.specs.Prelude.{ℕ, ◌≡◌, ◌≤◌, List, [], ◌∷◌, ℤ, ◌≤ℤ◌};
ghost use Rattle.std.specs.List.{AllByRecursion};
ghost use Rattle.ch11_clock.specs.declared.origin.Origin.{Origin};
ghost use Rattle.ch11_clock.specs.Clock.{clock_time};
ghost use Rattle.ch11_moved.specs.MovedCounters.{IsMoved, LieWithin50};
ghost use Rattle.ch11_moved.specs.FileStarts.{earliest_from, IsOneOrigin, IsRoundedDown};

/// Law: the earliest of some origins is one of them, and none is earlier. A clock that begins at it, rounded down,
/// gives a counter to each time that isn't earlier.
pub fn a_start_lies_before_all_origins()
    ensures one { (first : Origin) (origins : List Origin)
        → IsOneOrigin (earliest_from first origins) (first ∷ origins) }
    ensures least { (first : Origin) (origins : List Origin)
        → AllByRecursion (λ (origin : Origin). (earliest_from first origins).nanos ≤ℤ origin.nanos)
        (first ∷ origins) }
    ensures moved { (first start time : ℤ) → IsRoundedDown first start → first ≤ℤ time
        → (moved : ℕ) × IsMoved start time moved }
{}

/// Law: the time of a moved counter by the clock of its file lies within 50 ns of the time of the counter by its
/// own clock. A time has one moved counter, and a later one has no lesser counter.
pub fn moved_counters_keep_their_times()
    ensures near { (start : Origin) (rules : List Origin) (counter moved : ℕ)
        → IsMoved start.nanos (clock_time rules counter) moved
        → LieWithin50 (clock_time rules counter) (clock_time (start ∷ []) moved) }
    ensures one { (start time : ℤ) (moved other : ℕ) → IsMoved start time moved
        → IsMoved start time other → moved ≡ other }
    ensures rises { (start time later : ℤ) (moved its : ℕ) → IsMoved start time moved
        → IsMoved start later its → time ≤ℤ later → moved ≤ its }
{}
