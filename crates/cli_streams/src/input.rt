//! What a command reads: a file, or standard input where the file's name is `-`.

ghost use Rattle.std.specs.Prelude.{◌≡◌, IfOk, IfSome, string_bytes};

use crate::ending::{CommandEnding, STREAM};
use std::alloc::Global;
use std::io::{ErrorKind, Read};
use std::rt::Files;
use std::{fs, io};

/// How many bytes a listing or settings may have.
pub const MAX_LISTING: u64 = 1_048_576;

/// How many bytes the text of a program or a script may have.
pub const MAX_TEXT: u64 = 67_108_864;

/// The text of a file, of at most `most` bytes; `-` is standard input.
pub fn text_in<'a, R: AllocGlobal + Files, I: Read>(
    rt: &R,
    file: &'a str,
    most: u64,
    input: &mut I,
) -> Result<String, CommandEnding<'a>> {
    let read = if file == STREAM {
        bounded_text(rt.alloc(), most, input)
    } else {
        fs::open(rt, file).and_then(|mut opened| bounded_text(rt.alloc(), most, &mut opened))
    };
    read.map_err(|error| CommandEnding::of_io(file, &error))
}

/// The text that an input gives, of at most `most` bytes. One byte more is read, which tells that
/// it is longer.
///
/// # Errors
///
/// That of the read, `InvalidData` for what is no UTF-8, and `FileTooLarge` for what is longer.
pub fn bounded_text<I: Read>(alloc: Global, most: u64, input: &mut I) -> io::Result<String> {
    let mut text = String::new(alloc);
    input
        .take(most.saturating_add(1))
        .read_to_string(&mut text)?;
    if text.len() as u64 > most {
        return Err(io::Error::from(ErrorKind::FileTooLarge));
    }
    Ok(text)
}

/// The whole input, as text.
pub fn whole_text<'a, I: Read>(alloc: Global, input: &mut I) -> Result<String, CommandEnding<'a>>
    ensures { IfOk result (λ text. IfSome (I.remaining input.old) (λ bytes.
        string_bytes text ≡ bytes)) }
{
    let mut text = String::new(alloc);
    input
        .read_to_string(&mut text)
        .map_err(|error| CommandEnding::of_io(STREAM, &error))?;
    Ok(text)
}
