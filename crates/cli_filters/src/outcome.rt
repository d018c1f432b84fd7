//! What a listed program returns on a view, and the line that says so.

ghost use Rattle.std.specs.Prelude.{OnOk, IfOk};
ghost use Rattle.std.specs.Io.KnownBytes.{Appends};
ghost use Rattle.cli_filters.specs.Lines.{RunsOn, outcome_line};

use bpf_machine::{Outcome, run};
use cli_streams::{CommandEnding, listed_program, print_line, view_of};
use std::alloc::Global;
use std::io::Write;

/// What the listed program returns on the view.
pub(crate) fn outcome_of<'a>(
    alloc: Global,
    listing: &str,
    view: &str,
) -> Result<Outcome, CommandEnding<'a>>
    ensures { IfOk result (λ outcome. RunsOn listing.now view.now outcome.steps outcome.value) }
{
    let program = match listed_program(alloc, listing) {
        Ok(program) => program,
        Err(fault) => return Err(CommandEnding::of_listed(alloc, fault)),
    };
    let view = view_of(alloc, view)?;
    Ok(run(&program, view.as_slice()))
}

/// Prints `<value> <steps>` and a line feed.
pub(crate) fn print_outcome<O: Write>(
    alloc: Global,
    output: &mut O,
    outcome: Outcome,
) -> Result<(), CommandEnding<'static>>
    ensures { OnOk result (Appends (O.contents output.old) (O.contents output.new)
        (outcome_line outcome.value outcome.steps)) }
{
    let Outcome { value, steps } = outcome;
    let mut line = Vec::new(alloc);
    let built = writeln!(&mut line, "{value} {steps}");
    print_line(output, &mut line, built)
}
