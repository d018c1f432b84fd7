//! The body of a time packet.
ghost use Rattle.std.specs.Prelude.{◌≡◌, ◌<◌, IfSome, IfNone};
ghost use Rattle.ch11_clock.specs.CivilTime.{IsTimeOf, IsCivilTime};
ghost use Rattle.ch11_clock.specs.TimeBody.{time_bytes, time_word, bcd};
ghost use Rattle.ch11_clock.specs.declared.civil.CivilTime.{CivilTime as Time};

use crate::civil::{CivilTime, civil_time};
use jiff_core::civil::is_leap_year;

/// The number of bytes of the body of a time packet.
pub const TIME_BODY_LEN: usize = 12;

/// The body of the time packet of a moment, in hundredths of a second since 1970-01-01. `None`
/// outside of the years 1 to 3999.
pub fn time_body(moment: i64, is_external: bool) -> Option<[u8; TIME_BODY_LEN]>
    ensures some { IfSome result (λ bytes. (time : Time) × IsTimeOf time moment
        × (bytes ≡ time_bytes is_external time)) }
    ensures none { IfNone result ((time : Time) → ¬ IsTimeOf time moment) }
{
    let time = civil_time(moment)?;
    Some(time_bytes(&time, is_external))
}

/// The body of the time packet that tells this.
pub fn time_bytes(time: &CivilTime, is_external: bool) -> [u8; TIME_BODY_LEN]
    requires { IsCivilTime time.now }
    ensures { result ≡ time_bytes is_external time.now }
{
    let [w0, w1, w2, w3] = time_word(time, is_external).to_le_bytes();
    let century = (time.year / 100) as u8;
    let year = (time.year % 100) as u8;
    [
        w0,
        w1,
        w2,
        w3,
        bcd(time.hundredth),
        bcd(time.second),
        bcd(time.minute),
        bcd(time.hour),
        bcd(time.day),
        bcd(time.month),
        bcd(year),
        bcd(century),
    ]
}

/// The channel-specific word of the time packet that tells this.
fn time_word(time: &CivilTime, is_external: bool) -> u32
    requires { IsCivilTime time.now }
    ensures { result ≡ time_word is_external time.now }
{
    let source = if is_external { 1 } else { 0 };
    let leap = if is_leap_year(time.year as i16) {
        1 << 8
    } else {
        0
    };
    source + (3 << 4) + leap + (1 << 9)
}

/// The two decimal digits of a number, four bits each.
fn bcd(number: u8) -> u8
    requires { number < 100 }
    ensures { result ≡ bcd number }
{
    number / 10 * 16 + number % 10
}
