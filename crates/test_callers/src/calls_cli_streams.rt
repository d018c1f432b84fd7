//! A caller of `cli_streams`, as its page has it.

use cli_streams::{CommandEnding, MAX_TEXT, print_line, text_in};
use std::io::{Read, Write};
use std::rt::Files;

/// Prints the number of bytes of a file's text.
pub fn print_length<'a, R: AllocGlobal + Files, I: Read, O: Write>(
    rt: &R,
    file: &'a str,
    input: &mut I,
    output: &mut O,
) -> Result<(), CommandEnding<'a>> {
    let text = text_in(rt, file, MAX_TEXT, input)?;
    let mut line = Vec::new(rt.alloc());
    let built = writeln!(&mut line, "{}", text.len());
    print_line(output, &mut line, built)
}
