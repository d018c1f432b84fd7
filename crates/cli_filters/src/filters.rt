//! The commands on one filter: to assemble, disassemble, verify and run it.

ghost use Rattle.std.specs.Prelude.{OnOk};
ghost use Rattle.std.specs.Io.KnownBytes.{Appends};
ghost use Rattle.cli_filters.specs.Lines.{valid_line};

use crate::outcome::{outcome_of, print_outcome};
use bpf_asm::assemble;
use bpf_dis::text_of;
use bpf_insn::{parse_listing, print_listing};
use cli_streams::{
    CommandEnding, MAX_LISTING, MAX_TEXT, listed_program, print_line, print_text, text_in,
};
use std::alloc::Global;
use std::io::{Read, Write};
use std::rt::Files;

/// `asm FILE`: prints the listing of the program that the file's text denotes, and a line feed.
pub fn assemble_file<'a, R: AllocGlobal + Files, I: Read, O: Write>(
    rt: &R,
    file: &'a str,
    input: &mut I,
    output: &mut O,
) -> Result<(), CommandEnding<'a>> {
    let text = text_in(rt, file, MAX_TEXT, input)?;
    let program = assemble(rt.alloc(), text.as_str())?;
    let mut listing = print_listing(rt.alloc(), program.as_slice())?;
    listing.push('\n')?;
    print_text(output, listing.as_str())
}

/// `dis FILE`: prints the text of the listed program.
pub fn disassemble_file<'a, R: AllocGlobal + Files, I: Read, O: Write>(
    rt: &R,
    file: &'a str,
    input: &mut I,
    output: &mut O,
) -> Result<(), CommandEnding<'a>> {
    let listing = text_in(rt, file, MAX_LISTING, input)?;
    let program = parse_listing(rt.alloc(), listing.as_str())?;
    let text = text_of(rt.alloc(), program.as_slice())?;
    print_text(output, text.as_str())
}

/// `verify FILE`: prints `valid <n>`, with the number of instructions.
pub fn verify_file<'a, R: AllocGlobal + Files, I: Read, O: Write>(
    rt: &R,
    file: &'a str,
    input: &mut I,
    output: &mut O,
) -> Result<(), CommandEnding<'a>> {
    let listing = text_in(rt, file, MAX_LISTING, input)?;
    let program = listed_program(rt.alloc(), listing.as_str()).map_err(
        |fault| CommandEnding::of_listed(rt.alloc(), fault),
    )?;
    print_valid(rt.alloc(), output, program.len())
}

/// Prints the number of a valid program's instructions.
fn print_valid<O: Write>(
    alloc: Global,
    output: &mut O,
    count: usize,
) -> Result<(), CommandEnding<'static>>
    ensures { OnOk result (Appends (O.contents output.old) (O.contents output.new)
        (valid_line count)) }
{
    let mut line = Vec::new(alloc);
    let built = writeln!(&mut line, "valid {count}");
    print_line(output, &mut line, built)
}

/// `run FILE HEX`: prints `<value> <steps>`.
pub fn run_file<'a, R: AllocGlobal + Files, I: Read, O: Write>(
    rt: &R,
    file: &'a str,
    view: &str,
    input: &mut I,
    output: &mut O,
) -> Result<(), CommandEnding<'a>> {
    let listing = text_in(rt, file, MAX_LISTING, input)?;
    let outcome = outcome_of(rt.alloc(), listing.as_str(), view)?;
    print_outcome(rt.alloc(), output, outcome)
}
