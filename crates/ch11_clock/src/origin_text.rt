//! Origins as they are written.
ghost use Rattle.std.specs.Prelude.{ℕ, ◌≡◌, ◌<◌, ◌≤◌, ◌^◌, ◌==◌, IfSome, length, position};
ghost use Rattle.ch11_clock.specs.OriginRange.{IsOrigin};
ghost use Rattle.ch11_clock.specs.OriginText.{origin_said, nanos_said, nanos_said_at, fraction_said, number_said};
ghost use Rattle.ch11_clock.specs.OriginText.{digits_said};

/// The greatest number of digits of whole seconds.
const SECOND_DIGITS: usize = 12;

/// The greatest number of digits of a fraction of a second.
const FRACTION_DIGITS: usize = 9;

/// The number of nanoseconds of a second.
const NANOS: u128 = 1_000_000_000;

/// The nanoseconds since 1970-01-01 that a text says: seconds of 1 to 12 decimal digits, with a
/// minus ahead of a time before it, and where they have a fraction a point and 1 to 9 digits.
/// `None` where it is no such text.
pub fn read_origin(text: &[u8]) -> Option<i128>
    ensures said { result ≡ origin_said text.now }
    ensures fits { IfSome result (λ nanos. (counter : ℕ) → counter < 2 ^ 48
        → IsOrigin counter nanos) }
{
    let (first, rest) = text.split_first()?;
    if *first == b'-' {
        let nanos = read_nanos(rest)?;
        Some(-(nanos as i128))
    } else {
        let nanos = read_nanos(text)?;
        Some(nanos as i128)
    }
}

/// The nanoseconds that a text without a sign says.
fn read_nanos(text: &[u8]) -> Option<u128>
    ensures said { result ≡ nanos_said text.now }
    ensures small { IfSome result (λ nanos. nanos < 1_000_000_000_000_000_000_000) }
{
    read_nanos_at(point_in(text), text)
}

/// The index of the first point.
fn point_in(text: &[u8]) -> Option<usize>
    ensures at { result ≡ position (λ byte. byte == 46) text.now }
    ensures within { IfSome result (λ at. at < length text.now) }
{
    text.iter().position(|byte| *byte == b'.')
}

/// The nanoseconds of seconds and of the digits behind their point, whose index is given.
fn read_nanos_at(point: Option<usize>, text: &[u8]) -> Option<u128>
    requires { IfSome point (λ at. at < length text.now) }
    ensures said { result ≡ nanos_said_at point text.now }
    ensures small { IfSome result (λ nanos. nanos < 1_000_000_000_000_000_000_000) }
{
    let Some(point) = point else {
        let seconds = read_number(text, SECOND_DIGITS)?;
        return Some(seconds as u128 * NANOS);
    };
    let seconds = read_number(&text[..point], SECOND_DIGITS)?;
    let fraction = read_fraction(&text[point + 1..])?;
    Some(seconds as u128 * NANOS + fraction as u128)
}

/// The nanoseconds that the digits behind a point write.
fn read_fraction(digits: &[u8]) -> Option<u64>
    ensures said { result ≡ fraction_said digits.now }
    ensures small { IfSome result (λ nanos. nanos < 1_000_000_000) }
{
    let value = read_number(digits, FRACTION_DIGITS)?;
    Some(value * 10u64.pow((FRACTION_DIGITS - digits.len()) as u32))
}

/// The number that decimal digits write, from one to `most` of them.
fn read_number(digits: &[u8], most: usize) -> Option<u64>
    requires { most ≤ 12 }
    ensures said { result ≡ number_said most digits.now }
    ensures few { IfSome result (λ value. (length digits.now ≤ most)
        × (value < 10 ^ length digits.now)) }
{
    if digits.is_empty() || digits.len() > most {
        return None;
    }
    read_digits(digits)
}

/// The number that at most 12 decimal digits write.
fn read_digits(digits: &[u8]) -> Option<u64>
    requires { length digits.now ≤ 12 }
    ensures said { result ≡ digits_said digits.now }
    ensures small { IfSome result (λ value. value < 10 ^ length digits.now) }
{
    let mut value = 0u64;
    'digits: for digit in digits {
        let digit = char::from(*digit).to_digit(10)?;
        value = value * 10 + digit as u64;
    }
    Some(value)
}
