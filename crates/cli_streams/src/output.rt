//! The one way to standard output: what was written is flushed, and its failure is a file's.

ghost use Rattle.std.specs.Prelude.{◌≡◌, [], IfErr, OnOk, IsOk};
ghost use Rattle.std.specs.Io.KnownBytes.{Appends, Keeps};
ghost use Rattle.cli_streams.specs.Endings.{IsPrintingFault};

use crate::ending::{CommandEnding, STREAM};
use std::io;
use std::io::Write;

/// Prints a text that ends in a line feed.
pub fn print_text<O: Write>(output: &mut O, text: &str) -> Result<(), CommandEnding<'static>>
    ensures { OnOk result (Appends (O.contents output.old) (O.contents output.new) text.now) }
{
    let written = output.write_all(text.as_bytes());
    finish(output, written)
}

/// Prints a line that was built before, as one write, and empties it for the next one. So no text
/// of another program can stand within the line. Where it couldn't be built there was no memory.
pub fn print_line<O: Write>(
    output: &mut O,
    line: &mut Vec<u8>,
    built: io::Result<()>,
) -> Result<(), CommandEnding<'static>>
    ensures built { OnOk result (IsOk built) }
    ensures printed { OnOk result
        (Appends (O.contents output.old) (O.contents output.new) line.old.items) }
    ensures emptied { OnOk result (line.new.items ≡ []) }
    ensures fault { IfErr result (λ ending. IsPrintingFault ending) }
{
    built.map_err(|error| CommandEnding::of_io(STREAM, &error))?;
    let written = output.write_all(line.as_slice());
    line.clear();
    finish(output, written)
}

/// Flushes the output, where what was written to it went through. A write or a flush that failed
/// ends the command.
pub fn finish<O: Write>(
    output: &mut O,
    written: io::Result<()>,
) -> Result<(), CommandEnding<'static>>
    ensures written { OnOk result (IsOk written) }
    ensures kept { OnOk result (Keeps (O.contents output.old) (O.contents output.new)) }
    ensures fault { IfErr result (λ ending. IsPrintingFault ending) }
{
    if written.is_err() || output.flush().is_err() {
        return Err(CommandEnding::File(STREAM));
    }
    Ok(())
}
