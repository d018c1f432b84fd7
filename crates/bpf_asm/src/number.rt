//! The number that a spelling says.

ghost use Rattle.std.specs.Prelude.{◌≡◌, ◌≤◌, ◌<◌};
ghost use Rattle.bpf_asm.specs.Numbers.{spelled_number, after_zero, numeral, digits_number, negative_of};

/// The greatest number after a minus.
const MINUS_MAX: u32 = 2_147_483_648;

/// The number that a spelling says: 0, decimal without a zero in front, minus and decimal digits,
/// hexadecimal after `0x`, binary after `0b`, or octal after `0`. `None` where the spelling is no
/// number, or one past 32 bits, or past 2^31 after a minus.
pub(crate) fn read_number(spelling: &[u8]) -> Option<u32>
    ensures { result ≡ spelled_number spelling.now }
{
    let (first, rest) = spelling.split_first()?;
    match *first {
        b'-' => Some(negative(read_numeral(10, MINUS_MAX, rest)?)),
        b'0' => read_after_zero(rest),
        _ => read_numeral(10, u32::MAX, spelling),
    }
}

/// Minus a number, in a word of 32 bits.
fn negative(number: u32) -> u32
    ensures { result ≡ negative_of number }
{
    if number == 0 {
        0
    } else {
        u32::MAX - number + 1
    }
}

/// What a spelling says that begins with a zero, from the bytes after it.
fn read_after_zero(rest: &[u8]) -> Option<u32>
    ensures { result ≡ after_zero rest.now }
{
    let Some((base, digits)) = rest.split_first() else {
        return Some(0);
    };
    match *base {
        b'x' | b'X' => read_numeral(16, u32::MAX, digits),
        b'b' | b'B' => read_numeral(2, u32::MAX, digits),
        _ => read_numeral(8, u32::MAX, rest),
    }
}

/// The number that digits of a base write, where it is at most `most`.
fn read_numeral(base: u32, most: u32, digits: &[u8]) -> Option<u32>
    requires least { 2 ≤ base }
    requires greatest { base ≤ 36 }
    ensures { result ≡ numeral base most digits.now }
{
    if digits.is_empty() {
        return None;
    }
    let value = value_of(base, digits)?;
    if value <= most { Some(value) } else { None }
}

/// The number that digits of a base write; `None` where one is no digit of the base, or the number
/// is past 32 bits.
fn value_of(base: u32, digits: &[u8]) -> Option<u32>
    requires least { 2 ≤ base }
    requires greatest { base ≤ 36 }
    ensures { result ≡ digits_number base 4294967295 digits.now }
{
    let mut value = 0u32;
    'digits: for digit in digits {
        let digit = char::from(*digit).to_digit(base)?;
        value = value.checked_mul(base)?.checked_add(digit)?;
    }
    Some(value)
}
