//! What is printed of a recording.

ghost use Rattle.std.specs.Prelude.{◌≡◌, ◌∷◌, ◌++◌, [], OnOk};
ghost use Rattle.std.specs.Io.KnownBytes.{Appends};
ghost use Rattle.cli_record.specs.Lines.{ending_text, fault_text, report_line, report_lines};

use cli_streams::{CommandEnding, print_line};
use eth_frame::SourceFault;
use rec_run::{ChannelReport, Ending, Report};
use std::alloc::Global;
use std::io;
use std::io::Write;

/// Prints a line for each channel, and how much was written; each line is one write.
pub(crate) fn print_report<S: Drop, O: Write>(
    alloc: Global,
    output: &mut O,
    report: &Report<S>,
) -> Result<(), CommandEnding<'static>>
    ensures { OnOk result (Appends (O.contents output.old) (O.contents output.new)
        (report_lines report.now.channels.items report.now.pieces report.now.bytes)) }
{
    let mut line = Vec::new(alloc);
    'channels: for channel in report.channels.as_slice() {
        let built = print_channel(&mut line, channel);
        print_line(output, &mut line, built)?;
    }
    let built = writeln!(&mut line, "wrote {} {}", report.pieces, report.bytes);
    print_line(output, &mut line, built)
}

/// Prints a channel's line.
fn print_channel<S: Drop, O: Write>(output: &mut O, channel: &ChannelReport<S>) -> io::Result<()>
    ensures { OnOk result
        (Appends (O.contents output.old) (O.contents output.new) (report_line channel.now)) }
{
    let ChannelReport {
        channel: id,
        versions,
        offered,
        kept,
        ending,
        ..
    } = channel;
    write!(
        output,
        "channel {id} versions {} offered {offered} kept {kept} ",
        versions.len()
    )?;
    print_ending(output, *ending)
}

/// Prints how a channel ended, which ends its line.
fn print_ending<O: Write>(output: &mut O, ending: Ending) -> io::Result<()>
    ensures { OnOk result
        (Appends (O.contents output.old) (O.contents output.new) (ending_text ending ++ 10 ∷ [])) }
{
    match ending {
        Ending::SourceEnd => writeln!(output, "SourceEnd"),
        Ending::SourceFault(fault) => writeln!(output, "SourceFault {}", fault_name(fault)),
        Ending::Memory => writeln!(output, "Memory"),
        Ending::CountFull => writeln!(output, "CountFull"),
        Ending::Stopped => writeln!(output, "Stopped"),
    }
}

/// The name of a source's fault.
fn fault_name(fault: SourceFault) -> &'static str
    ensures { result.now ≡ fault_text fault }
{
    match fault {
        SourceFault::Truncated => "Truncated",
        SourceFault::Length => "Length",
        SourceFault::Marks => "Marks",
        SourceFault::Device => "Device",
    }
}
