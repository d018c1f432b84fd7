//! The run without words: a listing and a view, a line each, from standard input.

ghost use Rattle.std.specs.Prelude.{◌≡◌, ◌==◌, OnOk, IfSome};
ghost use Rattle.std.specs.List.{before_first, after_first};
ghost use Rattle.cli_filters.specs.Lines.{AnswersLines, without_return};

use crate::outcome::{outcome_of, print_outcome};
use cli_streams::{CommandEnding, whole_text};
use std::alloc::Global;
use std::io::{Read, Write};

/// Reads a listing and a view in hexadecimal, a line each, and prints `<value> <steps>`.
pub fn answer_lines<I: Read, O: Write>(
    alloc: Global,
    input: &mut I,
    output: &mut O,
) -> Result<(), CommandEnding<'static>>
    ensures { OnOk result (IfSome (I.remaining input.old) (λ bytes.
        AnswersLines bytes (O.contents output.old) (O.contents output.new))) }
{
    let text = whole_text(alloc, input)?;
    let (listing, rest) = cut_line(text.as_str());
    let (view, _) = cut_line(rest);
    let outcome = outcome_of(alloc, listing, view)?;
    print_outcome(alloc, output, outcome)
}

/// The first line, without a carriage return at its end, and what follows its line feed.
fn cut_line(text: &str) -> (&str, &str)
    ensures line { result.0.now ≡ without_return (before_first (λ b. b == 10) text.now) }
    ensures rest { result.1.now ≡ after_first (λ b. b == 10) text.now }
{
    let (line, rest) = text.split_once('\n').unwrap_or((text, ""));
    (without_return(line), rest)
}

/// A line without a carriage return at its end.
fn without_return(line: &str) -> &str
    ensures { result.now ≡ without_return line.now }
{
    line.strip_suffix('\r').unwrap_or(line)
}
