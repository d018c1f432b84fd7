//! The names of attributes that a setup record writes.

ghost use Rattle.std.specs.Prelude.{◌≡◌, ◌&&◌, not, bytes_eq, IfOk, map};
ghost use Rattle.rec_words.specs.ReservedNames.{is_reserved, is_taken, test_attribute, begins_as_one, plain_name, plain_form};
ghost use Rattle.rec_words.specs.ReservedNames.{is_leading_zero, is_decimal_digit, starts_with_digit, capital};
ghost use Rattle.rec_words.specs.Settings.{is_among};
ghost use Rattle.ch11_setup.specs.Names.{without_blanks};

use ch11_setup::{trim_end, trim_start};
use std::alloc::{AllocError, Global};

/// The name of the test, which a user may say.
const TEST_NAME: &str = "G\\PN";

/// The names that it writes once.
const SINGLE_NAMES: [&[u8]; 19] = [
    b"G\\PN",
    b"G\\106",
    b"G\\OD",
    b"G\\DSI\\N",
    b"G\\DSI-1",
    b"G\\DST-1",
    b"R-1\\ID",
    b"R-1\\RID",
    b"R-1\\R1",
    b"R-1\\TC1",
    b"R-1\\RI3",
    b"R-1\\RI4",
    b"R-1\\NSB",
    b"R-1\\IDX\\E",
    b"R-1\\IDX\\IT",
    b"R-1\\IDX\\ICV",
    b"R-1\\EV\\E",
    b"R-1\\N",
    b"R-1\\COM",
];

/// With what names begin that it writes for a channel or its network, as `R-1\TK1-` of `R-1\TK1-2`.
const CHANNEL_BEGINNINGS: [&[u8]; 12] = [
    b"R-1\\TK1-",
    b"R-1\\TK4-",
    b"R-1\\CHE-",
    b"R-1\\DSI-",
    b"R-1\\CDT-",
    b"R-1\\TTF-",
    b"R-1\\TFMT-",
    b"R-1\\TSRC-",
    b"R-1\\ENTF-",
    b"R-1\\NNET-",
    b"R-1\\ENBR-",
    b"R-1\\ENAM-",
];

/// Whether a reader of the setup record may take an attribute of this name for one that it writes.
pub(super) fn is_reserved(alloc: Global, name: &str) -> Result<bool, AllocError>
    ensures { IfOk result (λ is. is ≡ is_reserved name.now) }
{
    let plain = plain_name(alloc, name.as_bytes())?;
    Ok(is_taken_name(name, &plain))
}

/// Whether it may, where the name's plain form is this.
fn is_taken_name(name: &str, plain: &[u8]) -> bool
    ensures { result ≡ (not (bytes_eq name.now test_attribute) && is_taken plain.now) }
{
    name != TEST_NAME && is_taken(plain)
}

/// Whether a name in its plain form is one that a setup record writes, or begins as one of a channel's.
fn is_taken(name: &[u8]) -> bool
    ensures { result ≡ is_taken name.now }
{
    begins_as_one(name, &CHANNEL_BEGINNINGS) || is_one(trim_end(name), &SINGLE_NAMES)
}

/// Whether a name begins as one of these.
fn begins_as_one(name: &[u8], beginnings: &[&[u8]]) -> bool
    ensures { result ≡ begins_as_one name.now (map (λ k. k.now) beginnings.now) }
{
    'beginnings: for beginning in beginnings {
        if name.starts_with(beginning) {
            return true;
        }
    }
    false
}

/// Whether a name is one of these.
fn is_one(name: &[u8], names: &[&[u8]]) -> bool
    ensures { result ≡ is_among (map (λ k. k.now) names.now) name.now }
{
    names.contains(&name)
}

/// A name in capitals, without blanks ahead of it and zeros ahead of its numbers.
fn plain_name(alloc: Global, name: &[u8]) -> Result<Vec<u8>, AllocError>
    ensures { IfOk result (λ plain. plain.items ≡ plain_name name.now) }
{
    let mut plain = Vec::new(alloc);
    let mut left = trim_start(name);
    let mut within = false;
    'bytes: while let Some((byte, rest)) = left.split_first() {
        if is_leading_zero(within, *byte, rest) {
            within = false;
        } else {
            plain.push(capital(*byte))?;
            within = is_decimal_digit(*byte);
        }
        left = rest;
    }
    Ok(plain)
}

/// Whether a byte is a zero ahead of a number, where `within` says that a digit stands before it.
fn is_leading_zero(within: bool, byte: u8, rest: &[u8]) -> bool
    ensures { result ≡ is_leading_zero within byte rest.now }
{
    byte == b'0' && !within && starts_with_digit(rest)
}

/// Whether a digit stands first.
fn starts_with_digit(text: &[u8]) -> bool
    ensures { result ≡ starts_with_digit text.now }
{
    match text.first() {
        Some(byte) => is_decimal_digit(*byte),
        None => false,
    }
}

/// Whether a byte is a decimal digit.
fn is_decimal_digit(byte: u8) -> bool
    ensures { result ≡ is_decimal_digit byte }
{
    (b'0'..=b'9').contains(&byte)
}

/// A letter as a capital.
fn capital(byte: u8) -> u8
    ensures { result ≡ capital byte }
{
    if (b'a'..=b'z').contains(&byte) {
        byte - 32
    } else {
        byte
    }
}
