//! The command that runs a script of events.

ghost use Rattle.std.specs.Prelude.{◌≡◌, OnOk};
ghost use Rattle.std.specs.Io.KnownBytes.{Appends};
ghost use Rattle.cli_simulate.specs.Replies.{byte_text, last_of, packet_text, reply_text, sent_text};

use crate::script::{LineFault, Recorder, channel_of, event_in, recorder_in, span_in};
use ch11_packet::Limit;
use cli_streams::{CommandEnding, MAX_TEXT, print_line, text_in};
use rec_core::{ChannelSpec, CoreFault, Reply, Which, World, specs_ok};
use std::alloc::{AllocError, Global};
use std::io;
use std::io::{Read, Write};
use std::rt::Files;

/// What a channel's line begins with, and that of a channel's span.
const CHANNEL: &str = "channel ";

const SPAN: &str = "span ";

/// A line that isn't empty, with its number, counted from 1.
#[derive(Clone, Copy)]
struct ScriptLine<'s> {
    number: u64,
    text: &'s str,
}

impl ScriptLine<'_> {
    /// What a fault of the line comes to.
    fn ending(&self, fault: LineFault) -> CommandEnding<'static> {
        match fault {
            LineFault::Shape => CommandEnding::Script(self.number),
            LineFault::Memory => CommandEnding::Memory,
        }
    }
}

/// `simulate FILE`: does the events of a script one after the other, and prints the answer of each
/// as one write, when it is done.
pub fn simulate_script<'a, R: AllocGlobal + Files, I: Read, O: Write>(
    rt: &R,
    file: &'a str,
    input: &mut I,
    output: &mut O,
) -> Result<(), CommandEnding<'a>> {
    let alloc = rt.alloc();
    let text = text_in(rt, file, MAX_TEXT, input)?;
    let lines = lines_of(alloc, text.as_str())?;
    let (recorder, rest) = recorder_of(lines.as_slice())?;
    let (channels, rest) = split_lines(rest, CHANNEL);
    let Recorder {
        limit,
        ring,
        version,
    } = recorder;
    let mut specs = specs_of(alloc, limit, channels)?;
    let events = set_spans(&mut specs, rest)?;
    if !specs_ok(specs.as_slice()) {
        // each was tested where it was read, so there is none
        return Err(CommandEnding::Script(number_of(events)));
    }
    let mut world = World::new(alloc, specs.as_slice(), ring, version, Vec::new(alloc))?;
    let mut answer = Vec::new(alloc);
    'events: for line in events {
        let event = event_in(alloc, line.text).map_err(|fault| line.ending(fault))?;
        let built = match world.step(&event) {
            Ok(reply) => print_reply(&mut answer, reply, world.out().as_slice()),
            // the output is in memory, so it fails only where there is none
            Err(CoreFault::Memory | CoreFault::Output) => return Err(CommandEnding::Memory),
            Err(fault) => writeln!(&mut answer, "{fault}"),
        };
        print_line(output, &mut answer, built)?;
    }
    Ok(())
}

/// What the first line sets for all channels, and the other lines.
fn recorder_of<'l, 's>(
    lines: &'l [ScriptLine<'s>],
) -> Result<(Recorder, &'l [ScriptLine<'s>]), CommandEnding<'static>> {
    let Some((first, rest)) = lines.split_first() else {
        return Err(CommandEnding::Script(0));
    };
    match recorder_in(first.text) {
        Some(recorder) => Ok((recorder, rest)),
        None => Err(CommandEnding::Script(first.number)),
    }
}

/// The lines of a text that aren't empty.
fn lines_of(alloc: Global, text: &str) -> Result<Vec<ScriptLine<'_>>, AllocError> {
    let mut lines = Vec::new(alloc);
    let mut number = 0u64;
    'lines: for text in text.split('\n') {
        number = number.saturating_add(1);
        if !text.is_empty() {
            lines.push(ScriptLine { number, text })?;
        }
    }
    Ok(lines)
}

/// The lines at the front that begin so, and the others.
fn split_lines<'l, 's>(
    lines: &'l [ScriptLine<'s>],
    beginning: &str,
) -> (&'l [ScriptLine<'s>], &'l [ScriptLine<'s>]) {
    let count = lines
        .iter()
        .take_while(|line| line.text.starts_with(beginning))
        .count();
    lines.split_at(count)
}

/// The channels that the lines set.
fn specs_of(
    alloc: Global,
    limit: Limit,
    lines: &[ScriptLine<'_>],
) -> Result<Vec<ChannelSpec>, CommandEnding<'static>> {
    let mut specs = Vec::new(alloc);
    'lines: for line in lines {
        let fields = line.text.strip_prefix(CHANNEL).unwrap_or("");
        let spec = channel_of(alloc, fields, limit).map_err(|fault| line.ending(fault))?;
        specs.push(spec)?;
        if !specs_ok(specs.as_slice()) {
            return Err(CommandEnding::Script(line.number));
        }
    }
    Ok(specs)
}

/// Sets the spans of channels by the lines at the front; the others.
fn set_spans<'l, 's>(
    specs: &mut Vec<ChannelSpec>,
    lines: &'l [ScriptLine<'s>],
) -> Result<&'l [ScriptLine<'s>], CommandEnding<'static>> {
    let (spans, events) = split_lines(lines, SPAN);
    'lines: for line in spans {
        let fields = line.text.strip_prefix(SPAN).unwrap_or("");
        if !span_in(fields, specs.as_mut_slice()) {
            return Err(CommandEnding::Script(line.number));
        }
    }
    Ok(events)
}

/// The number of the first line, or 0.
fn number_of(lines: &[ScriptLine<'_>]) -> u64 {
    match lines.first() {
        Some(line) => line.number,
        None => 0,
    }
}

/// Prints what an event did; a packet that was written is the end of the output.
fn print_reply<O: Write>(output: &mut O, reply: Reply, out: &[u8]) -> io::Result<()>
    ensures { OnOk result (Appends (O.contents output.old) (O.contents output.new)
        (reply_text reply out.now)) }
{
    match reply {
        Reply::Took {
            number,
            version,
            value,
        } => writeln!(output, "took {number} {version} {value}"),
        Reply::Timed => writeln!(output, "timed"),
        Reply::Installed { version, mark } => writeln!(output, "installed {version} {mark}"),
        Reply::Sent(which) => print_sent(output, which),
        Reply::Wrote { bytes } => print_packet(output, last_bytes(out, bytes as usize)),
        Reply::Closed { offered, kept } => writeln!(output, "closed {offered} {kept}"),
    }
}

/// Prints which piece was sent.
fn print_sent<O: Write>(output: &mut O, which: Which) -> io::Result<()>
    ensures { OnOk result
        (Appends (O.contents output.old) (O.contents output.new) (sent_text which)) }
{
    match which {
        Which::Program(version) => writeln!(output, "sent program {version}"),
        Which::Frames(count) => writeln!(output, "sent frames {count}"),
        Which::End => writeln!(output, "sent end"),
    }
}

/// The last bytes, so many of them or all.
fn last_bytes(bytes: &[u8], count: usize) -> &[u8]
    ensures { result.now ≡ last_of bytes.now count }
{
    &bytes[bytes.len().saturating_sub(count)..]
}

/// Prints a packet in hexadecimal digits.
fn print_packet<O: Write>(output: &mut O, packet: &[u8]) -> io::Result<()>
    ensures { OnOk result
        (Appends (O.contents output.old) (O.contents output.new) (packet_text packet.now)) }
{
    write!(output, "wrote ")?;
    'bytes: for byte in packet {
        print_byte(output, *byte)?;
    }
    writeln!(output)
}

/// Prints a byte in two hexadecimal digits.
#[tactic(auto, using(std::proofs::lemmas::Fmt::hex_byte))]
fn print_byte<O: Write>(output: &mut O, byte: u8) -> io::Result<()>
    ensures { OnOk result
        (Appends (O.contents output.old) (O.contents output.new) (byte_text byte)) }
{
    write!(output, "{byte:02x}")
}
