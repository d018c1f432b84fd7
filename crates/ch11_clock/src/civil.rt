//! Moments as dates and times of day.
ghost use Rattle.std.specs.Prelude.{◌≡◌, ◌<◌, pos, ◌+ℤ◌, ◌*ℤ◌, ◌≤ℤ◌, IfSome, IfNone};
ghost use Rattle.ch11_clock.specs.CivilTime.{IsTimeOf};
ghost use Rattle.ch11_clock.specs.declared.civil.CivilTime.{CivilTime as Time};

use jiff_core::civil::Date;

/// The moment of 0001-01-01T00:00:00, in hundredths of a second since 1970.
pub const MIN_MOMENT: i64 = -6_213_559_680_000;

/// The moment of 3999-12-31T23:59:59.99.
pub const MAX_MOMENT: i64 = 6_406_058_879_999;

/// The number of hundredths of a second of a day.
const DAY: i64 = 8_640_000;

/// A date and a time of day to 10 ms, without leap seconds.
#[derive(Clone, Copy, Debug, PartialEq, Eq)]
pub struct CivilTime {
    pub year: u16,
    pub month: u8,
    pub day: u8,
    pub hour: u8,
    pub minute: u8,
    pub second: u8,
    pub hundredth: u8,
}

/// The date and the time of day of a moment, in hundredths of a second since 1970-01-01. `None`
/// outside of the years 1 to 3999.
pub fn civil_time(moment: i64) -> Option<CivilTime>
    ensures some { IfSome result (λ time. IsTimeOf time moment) }
    ensures none { IfNone result ((time : Time) → ¬ IsTimeOf time moment) }
{
    if moment < MIN_MOMENT || MAX_MOMENT < moment {
        return None;
    }
    let (days, rest) = split_day(moment);
    let Ok(date) = Date::from_unix_epoch_day(days) else {
        return None;
    };
    let seconds = rest / 100;
    Some(CivilTime {
        year: year_of(date),
        month: date.month,
        day: date.day,
        hour: (seconds / 3600) as u8,
        minute: (seconds / 60 % 60) as u8,
        second: (seconds % 60) as u8,
        hundredth: (rest % 100) as u8,
    })
}

/// The day in which a moment lies, and the hundredths of a second since its midnight.
fn split_day(moment: i64) -> (i64, u32)
    ensures sum { moment ≡ result.0 *ℤ pos 8_640_000 +ℤ pos result.1 }
    ensures rest { result.1 < 8_640_000 }
{
    (moment.div_euclid(DAY), moment.rem_euclid(DAY) as u32)
}

/// The year of a date.
fn year_of(date: Date) -> u16
    requires { pos 0 ≤ℤ date.year }
    ensures { date.year ≡ pos result }
{
    date.year as u16
}
