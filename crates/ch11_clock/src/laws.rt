//! Laws of the clock and of time packets, with nothing to run.
ghost use Rattle.std.specs.Prelude.{◌≡◌, ◌<◌, ◌^◌, ◌↔◌, ℕ, ℤ, Bool, List, length, Some};
ghost use Rattle.ch11_clock.specs.declared.origin.Origin.{Origin};
ghost use Rattle.ch11_clock.specs.declared.civil.CivilTime.{CivilTime};
ghost use Rattle.ch11_clock.specs.CivilTime.{IsCivilTime, IsTimeOf};
ghost use Rattle.ch11_clock.specs.TimeBody.{time_bytes};
ghost use Rattle.ch11_clock.specs.TimeRead.{SaysCivilTime};
ghost use Rattle.ch11_clock.specs.Clock.{started, held_origins, clock_time, IsClock};
ghost use Rattle.ch11_clock.specs.OriginText.{origin_said, SaysOrigin};
ghost use Rattle.ch11_clock.specs.TimePoints.{IsTimePoint, AgreesWithClock};
ghost use Rattle.ch11_clock.specs.TimeDistances.{HasNoneBetween, IsNear};

/// Law: a moment has one date and time of day at most, and the body of a time packet says one, of
/// one source.
pub fn a_time_packet_says_one_time()
    ensures moment { (time other : CivilTime) (moment : ℤ) → IsTimeOf time moment
        → IsTimeOf other moment → time ≡ other }
    ensures body { (time other : CivilTime) (source also : Bool) → IsCivilTime time
        → IsCivilTime other → time_bytes source time ≡ time_bytes also other
        → (time ≡ other) × (source ≡ also) }
{}

/// Law: a reader that takes the body of a time packet apart finds the time that it was made of, and its source.
pub fn a_time_packet_is_read_back()
    ensures { (is_external : Bool) (time : CivilTime) → IsCivilTime time
        → SaysCivilTime (time_bytes is_external time) is_external time }
{}

/// Law: a text is read as the origin that it says, so it says one at most.
pub fn an_origin_is_read_as_it_is_said()
    ensures { (text : List ℕ) (nanos : ℤ) → origin_said text ≡ Some nanos ↔ SaysOrigin text nanos }
{}

/// Law: the origins that hold are a clock, which gives each counter the time that all give it.
pub fn held_origins_are_the_clock()
    ensures clock { (origins : List Origin) → 0 < length origins
        → IsClock (held_origins (started origins)) }
    ensures same { (origins : List Origin) (counter : ℕ)
        → clock_time (held_origins (started origins)) counter ≡ clock_time origins counter }
{}

/// Law: the clock gives a time packet's tick a time that isn't earlier than what the packet says, and
/// less than 100 ns later.
pub fn time_points_have_the_clocks_time()
    ensures { (least : ℕ) (rules : List Origin) (moment : ℤ) (tick : ℕ) → IsClock rules
        → IsTimePoint least rules moment tick → AgreesWithClock rules moment tick }
{}

/// Law: a counter lies less than a second behind the last time packet that isn't behind it, and 10 ms more for
/// each origin that begins between them. A time packet's tick is a counter.
pub fn counters_lie_near_a_time_point()
    ensures near { (least : ℕ) (rules : List Origin) (moment : ℤ) (tick counter : ℕ) → IsClock rules
        → IsTimePoint least rules moment tick → counter < 2 ^ 48
        → HasNoneBetween least rules tick counter → IsNear rules tick counter }
    ensures fits { (least : ℕ) (rules : List Origin) (moment : ℤ) (tick : ℕ)
        → IsTimePoint least rules moment tick → tick < 2 ^ 48 }
{}
