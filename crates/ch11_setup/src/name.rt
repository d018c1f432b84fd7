//! Names as the values of attributes.
ghost use Rattle.std.specs.Prelude.{◌≡◌, ◌<◌, ◌++◌, ◌∷◌, IfOk, All, reverse, take, string_bytes, decimal};
ghost use Rattle.ch11_setup.specs.Names.{cleaned, plain_text, plain_byte, begins_character, without_blanks, trimmed};
ghost use Rattle.ch11_setup.specs.Names.{source_name};

use std::alloc::{AllocError, Global};

/// The greatest number of characters of a name.
const NAME_LEN: usize = 32;

/// The greatest number of them in the name of a channel's data source.
const SOURCE_NAME_LEN: usize = 24;

/// A text as a name: in printable ASCII without `:`, `;` and `\`, with `_` for each other
/// character, without blanks at its ends, its first 32 characters, or `NONE`.
pub fn clean(alloc: Global, text: &[u8]) -> Result<String, AllocError>
    ensures { IfOk result (λ name. string_bytes name ≡ cleaned text.now) }
{
    let plain = plain_text(alloc, text)?;
    let name = first_of(trim(&plain), NAME_LEN);
    if name.is_empty() {
        return ascii_text(alloc, b"NONE");
    }
    ascii_text(alloc, name)
}

/// The name of a channel's data source, by its name and its number.
pub(crate) fn source_name(alloc: Global, name: &[u8], channel: u16) -> Result<String, AllocError>
    ensures { IfOk result (λ source. string_bytes source ≡ source_name name.now channel) }
{
    let name = clean(alloc, name)?;
    let number = format!(in alloc; " {channel}")?;
    let mut source = Vec::new(alloc);
    source.extend_from_slice(first_of(name.as_bytes(), SOURCE_NAME_LEN))?;
    source.extend_from_slice(number.as_bytes())?;
    clean(alloc, &source)
}

/// A text of these characters, which are ASCII.
fn ascii_text(alloc: Global, bytes: &[u8]) -> Result<String, AllocError>
    requires { All (λ byte. byte < 128) bytes.now }
    ensures { IfOk result (λ text. string_bytes text ≡ bytes.now) }
{
    let mut text = String::new(alloc);
    'bytes: for byte in bytes {
        text.push(char::from(*byte))?;
    }
    Ok(text)
}

/// The first bytes, at most this many.
fn first_of(bytes: &[u8], most: usize) -> &[u8]
    ensures { result.now ≡ take most bytes.now }
{
    if bytes.len() <= most {
        bytes
    } else {
        &bytes[..most]
    }
}

/// Each character of a text, in one byte.
fn plain_text(alloc: Global, text: &[u8]) -> Result<Vec<u8>, AllocError>
    ensures { IfOk result (λ plain. plain.items ≡ plain_text text.now) }
{
    let mut plain = Vec::new(alloc);
    'bytes: for byte in text {
        if begins_character(*byte) {
            plain.push(plain_byte(*byte))?;
        }
    }
    Ok(plain)
}

/// Whether a byte begins a character of UTF-8.
fn begins_character(byte: u8) -> bool
    ensures { result ≡ begins_character byte }
{
    byte < 128 || byte >= 192
}

/// A character, or `_` in its place.
fn plain_byte(byte: u8) -> u8
    ensures { result ≡ plain_byte byte }
{
    if (32..=126).contains(&byte) && byte != b':' && byte != b';' && byte != b'\\' {
        byte
    } else {
        b'_'
    }
}

/// A text without the blanks at its ends.
fn trim(bytes: &[u8]) -> &[u8]
    ensures { result.now ≡ trimmed bytes.now }
{
    trim_end(trim_start(bytes))
}

/// A text without the blanks at its start.
pub fn trim_start(bytes: &[u8]) -> &[u8]
    ensures { result.now ≡ without_blanks bytes.now }
{
    let mut left = bytes;
    'blanks: while let Some((byte, rest)) = left.split_first() {
        if *byte != b' ' {
            return left;
        }
        left = rest;
    }
    left
}

/// A text without the blanks at its end.
pub fn trim_end(bytes: &[u8]) -> &[u8]
    ensures { result.now ≡ reverse (without_blanks (reverse bytes.now)) }
{
    let mut left = bytes;
    'blanks: while let Some((byte, rest)) = left.split_last() {
        if *byte != b' ' {
            return left;
        }
        left = rest;
    }
    left
}
