//! The command that lists a recording's packets.

ghost use Rattle.std.specs.Prelude.{◌≡◌, OnOk};
ghost use Rattle.std.specs.Io.KnownBytes.{Appends};
ghost use Rattle.rec_reader.specs.Views.{packet_data};
ghost use Rattle.cli_reading.specs.Counts.{counts_with};
ghost use Rattle.cli_reading.specs.Printed.{packets_line, header_text, kind_text, numbers_text, packet_line, what_text};

use crate::reading::{
    Counts, begin_again, counts_of, is_read_twice, next_packet, open, packet_again, reader_over,
};
use ch11_packet::{Header, What};
use cli_streams::{CommandEnding, STREAM, print_line, refuse_output_into_input};
use rec_reader::{Packet, Reader};
use std::alloc::Global;
use std::io;
use std::io::{BufWriter, Read, Write};
use std::rt::Files;

/// `list FILE`: prints a line for each packet, and their number. Nothing is printed of a recording
/// that isn't read to its end: a file is read once to see that it is, and once more to print it,
/// with one packet at a time; what can't be read twice is read with its lines held back.
pub fn list_packets<'a, R: AllocGlobal + Files, I: Read, O: Write>(
    rt: &R,
    file: &'a str,
    input: &mut I,
    output: &mut O,
) -> Result<(), CommandEnding<'a>> {
    let alloc = rt.alloc();
    if file == STREAM {
        refuse_output_into_input(rt)?;
        return list_held(alloc, file, &mut reader_over(alloc, input)?, output);
    }
    let mut recording = open(rt, file)?;
    if !is_read_twice(&recording) {
        return list_held(
            alloc,
            file,
            &mut reader_over(alloc, &mut recording)?,
            output,
        );
    }
    let judged = counts_of(file, &mut reader_over(alloc, &mut recording)?)?;
    begin_again(file, &mut recording)?;
    let mut reader = reader_over(alloc, &mut recording)?;
    list_again(alloc, file, &mut reader, judged, output)
}

/// Prints the packets of a recording that was judged before. A recording that isn't what was judged
/// is the file's fault; then some of its lines may have been printed.
fn list_again<'a, R: Read, O: Write>(
    alloc: Global,
    file: &'a str,
    reader: &mut Reader<R>,
    judged: Counts,
    output: &mut O,
) -> Result<(), CommandEnding<'a>> {
    let mut lines = BufWriter::new(alloc, output).map_err(|_| CommandEnding::Memory)?;
    let mut line = Vec::new(alloc);
    let mut counts = Counts::NONE;
    'packets: for _ in 0..judged.packets {
        let owned = packet_again(file, reader)?;
        add_line(&mut line, &owned.packet(), &mut counts)?;
        // the buffer goes out before a line that it has no room for, so no line is cut in two
        lines
            .write_all(line.as_slice())
            .map_err(|_| CommandEnding::File(STREAM))?;
        line.clear();
        reader.give_back(owned);
    }
    if counts != judged {
        return Err(CommandEnding::File(file));
    }
    let built = print_counts(&mut line, counts);
    print_line(&mut lines, &mut line, built)
}

/// Lists a recording that can't be read twice. Its lines are held back until it is read to its end.
fn list_held<'a, R: Read, O: Write>(
    alloc: Global,
    file: &'a str,
    reader: &mut Reader<R>,
    output: &mut O,
) -> Result<(), CommandEnding<'a>> {
    let mut lines = Vec::new(alloc);
    let mut counts = Counts::NONE;
    'packets: for _ in 0..u64::MAX {
        let Some(owned) = next_packet(file, reader)? else {
            break 'packets;
        };
        add_line(&mut lines, &owned.packet(), &mut counts)?;
        reader.give_back(owned);
    }
    let built = print_counts(&mut lines, counts);
    print_line(output, &mut lines, built)
}

/// Prints a packet's line, and counts the packet.
fn add_line<W: Write>(
    lines: &mut W,
    packet: &Packet<'_>,
    counts: &mut Counts,
) -> Result<(), CommandEnding<'static>>
    ensures line { OnOk result (Appends (W.contents lines.old) (W.contents lines.new)
        (packet_line packet.now.at packet.now.header packet.now.what)) }
    ensures counts { counts.new ≡ counts_with counts.old (packet_data packet.now) }
{
    counts.count(packet);
    print_packet(lines, packet).map_err(|error| CommandEnding::of_io(STREAM, &error))
}

/// Prints how many packets there are.
fn print_counts<W: Write>(lines: &mut W, counts: Counts) -> io::Result<()>
    ensures { OnOk result (Appends (W.contents lines.old) (W.contents lines.new)
        (packets_line counts.packets counts.others)) }
{
    writeln!(lines, "packets {} other {}", counts.packets, counts.others)
}

/// Prints a packet's line: its place, its header's fields, and what it holds.
fn print_packet<W: Write>(lines: &mut W, packet: &Packet<'_>) -> io::Result<()>
    ensures { OnOk result (Appends (W.contents lines.old) (W.contents lines.new)
        (packet_line packet.now.at packet.now.header packet.now.what)) }
{
    print_header(lines, packet.at, packet.header)?;
    print_what(lines, packet.what)
}

/// Prints what a packet holds.
fn print_what<W: Write>(lines: &mut W, what: What) -> io::Result<()>
    ensures { OnOk result (Appends (W.contents lines.old) (W.contents lines.new) (what_text what)) }
{
    match what {
        What::Frames(count) => writeln!(lines, "frames {count}"),
        What::Program {
            channel,
            version,
            first,
            count,
        } => writeln!(lines, "program {channel} {version} {first} {count}"),
        What::End {
            channel,
            offered,
            kept,
        } => writeln!(lines, "end {channel} {offered} {kept}"),
        What::Other => writeln!(lines, "other"),
    }
}

/// Prints a packet's place and its header's fields.
fn print_header<W: Write>(lines: &mut W, at: u64, header: Header) -> io::Result<()>
    ensures { OnOk result
        (Appends (W.contents lines.old) (W.contents lines.new) (header_text at header)) }
{
    let Header {
        channel,
        packet_len,
        data_len,
        sequence,
        kind,
        counter,
        ..
    } = header;
    print_numbers(lines, &[at, u64::from(channel)])?;
    print_kind(lines, kind)?;
    print_numbers(
        lines,
        &[
            u64::from(sequence),
            u64::from(packet_len),
            u64::from(data_len),
            counter,
        ],
    )
}

/// Prints a data type in two hexadecimal digits, with a blank behind it.
#[tactic(auto, using(std::proofs::lemmas::Fmt::hex_byte))]
fn print_kind<W: Write>(lines: &mut W, kind: u8) -> io::Result<()>
    ensures { OnOk result (Appends (W.contents lines.old) (W.contents lines.new) (kind_text kind)) }
{
    write!(lines, "{kind:02x} ")
}

/// Prints numbers, each with a blank behind it. One at a time: the proof of a text with more values
/// takes several times as long.
fn print_numbers<W: Write>(lines: &mut W, numbers: &[u64]) -> io::Result<()>
    ensures { OnOk result
        (Appends (W.contents lines.old) (W.contents lines.new) (numbers_text numbers.now)) }
{
    'numbers: for number in numbers {
        write!(lines, "{number} ")?;
    }
    Ok(())
}
