//! Dates and times of day as the values of attributes.
ghost use Rattle.std.specs.Prelude.{◌≡◌, ◌++◌, ◌∷◌, ◌<◌, OnOk, string_bytes};
ghost use Rattle.ch11_clock.specs.CivilTime.{IsCivilTime};
ghost use Rattle.ch11_setup.specs.Dates.{two_digits, date_text, day_time_text, date_time_text};

use ch11_clock::CivilTime;
use std::alloc::AllocError;

/// Adds a date and a time of day to a text.
pub(crate) fn push_date_time(text: &mut String, time: &CivilTime) -> Result<(), AllocError>
    requires { IsCivilTime time.now }
    ensures { OnOk result (string_bytes text.new
        ≡ string_bytes text.old ++ date_time_text time.now) }
{
    push_date(text, time)?;
    text.push('-')?;
    push_day_time(text, time)
}

/// Adds a date.
pub(crate) fn push_date(text: &mut String, time: &CivilTime) -> Result<(), AllocError>
    requires { IsCivilTime time.now }
    ensures { OnOk result (string_bytes text.new ≡ string_bytes text.old ++ date_text time.now) }
{
    push_two(text, time.month)?;
    text.push('-')?;
    push_two(text, time.day)?;
    text.push('-')?;
    push_two(text, (time.year / 100) as u8)?;
    push_two(text, (time.year % 100) as u8)
}

/// Adds a time of day.
fn push_day_time(text: &mut String, time: &CivilTime) -> Result<(), AllocError>
    requires { IsCivilTime time.now }
    ensures { OnOk result (string_bytes text.new
        ≡ string_bytes text.old ++ day_time_text time.now) }
{
    push_two(text, time.hour)?;
    text.push('-')?;
    push_two(text, time.minute)?;
    text.push('-')?;
    push_two(text, time.second)
}

/// Adds the two decimal digits of a number.
fn push_two(text: &mut String, number: u8) -> Result<(), AllocError>
    requires { number < 100 }
    ensures { OnOk result (string_bytes text.new ≡ string_bytes text.old ++ two_digits number) }
{
    text.push((b'0' + number / 10) as char)?;
    text.push((b'0' + number % 10) as char)
}
