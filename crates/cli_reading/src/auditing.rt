//! The command that judges a recording by itself.

ghost use Rattle.std.specs.Prelude.{OnOk};
ghost use Rattle.std.specs.Io.KnownBytes.{Appends};
ghost use Rattle.cli_reading.specs.Printed.{audit_line, audit_lines};

use crate::reading::{next_packet, reader_of, reader_over};
use cli_streams::{CommandEnding, STREAM, print_line, refuse_output_into_input};
use rec_reader::{Audit, AuditLine, Auditor, Reader};
use std::alloc::Global;
use std::io::{self, Read, Write};
use std::rt::Files;

/// `audit FILE`: prints a line for each channel, and how many packets hold something else; or the
/// first thing that is wrong with the recording. It holds one packet at a time.
pub fn audit_recording<'a, R: AllocGlobal + Files, I: Read, O: Write>(
    rt: &R,
    file: &'a str,
    input: &mut I,
    output: &mut O,
) -> Result<(), CommandEnding<'a>> {
    let alloc = rt.alloc();
    let audited = if file == STREAM {
        refuse_output_into_input(rt)?;
        audit_packets(alloc, file, &mut reader_over(alloc, input)?)?
    } else {
        audit_packets(alloc, file, &mut reader_of(rt, file)?)?
    };
    print_audit(alloc, output, &audited)
}

/// The audit of the packets that a reader gives. It goes on to their end also after a fault of the
/// audit, since a fault of the reading goes first.
fn audit_packets<'a, R: Read>(
    alloc: Global,
    file: &'a str,
    reader: &mut Reader<R>,
) -> Result<Audit, CommandEnding<'a>> {
    let mut auditor = Auditor::new(alloc);
    'packets: for _ in 0..u64::MAX {
        let Some(packet) = next_packet(file, reader)? else {
            break 'packets;
        };
        // the auditor keeps its fault, and answers it at the end
        let _ = auditor.take(&packet.packet());
        reader.give_back(packet);
    }
    Ok(auditor.end()?)
}

/// Prints a line for each channel, and how many packets hold something else.
fn print_audit<O: Write>(
    alloc: Global,
    output: &mut O,
    audited: &Audit,
) -> Result<(), CommandEnding<'static>>
    ensures { OnOk result (Appends (O.contents output.old) (O.contents output.new)
        (audit_lines audited.now.channels audited.now.other)) }
{
    let mut text = Vec::new(alloc);
    'channels: for line in audited.channels.as_slice() {
        let built = print_channel(&mut text, line);
        print_line(output, &mut text, built)?;
    }
    let built = writeln!(&mut text, "yes other {}", audited.other);
    print_line(output, &mut text, built)
}

/// Prints the line of a channel.
fn print_channel<O: Write>(output: &mut O, line: &AuditLine) -> io::Result<()>
    ensures { OnOk result
        (Appends (O.contents output.old) (O.contents output.new) (audit_line line.now)) }
{
    let AuditLine {
        channel,
        programs,
        frames,
        offered,
    } = line;
    writeln!(
        output,
        "channel {channel} programs {programs} frames {frames} offered {offered}"
    )
}
