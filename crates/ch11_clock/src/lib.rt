//! The clock of a recording, and the time packets of a Chapter 11 file (IRIG 106-17): where they
//! stand, and what they say.
#![tactic(auto)]

mod body;
mod civil;
mod clock;
mod held;
mod laws;
mod moment;
mod origin;
mod origin_text;
mod time_point;
mod time_points;
mod walk;

pub use body::{TIME_BODY_LEN, time_body};
pub use civil::{CivilTime, MAX_MOMENT, MIN_MOMENT, civil_time};
pub use clock::Clock;
pub use laws::{
    a_time_packet_is_read_back, a_time_packet_says_one_time, an_origin_is_read_as_it_is_said,
    counters_lie_near_a_time_point, held_origins_are_the_clock, time_points_have_the_clocks_time,
};
pub use origin::Origin;
pub use origin_text::read_origin;
pub use time_point::TimePoint;
pub use time_points::TimePoints;
