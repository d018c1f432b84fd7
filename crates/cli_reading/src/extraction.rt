//! The command that extracts a channel's frames from a recording.

ghost use Rattle.std.specs.Prelude.{◌≡◌, ◌^◌, ◌<◌, codes, length, IfOk, IfSome, OnOk};
ghost use Rattle.std.specs.Io.KnownBytes.{Appends};
ghost use Rattle.cli_streams.specs.Digits.{SaysNumber};
ghost use Rattle.cli_reading.specs.Lines.{extracted_line, CountsExtracted, PrintsExtracted, TakesCounts};

use crate::written::{PerPacket, write_recording};
use cli_streams::{CommandEnding, LockFile, channel_in, print_line};
use rec_reader::{Extracted, Packet, extract_packet};
use std::alloc::Global;
use std::io::{Read, Write};
use std::rt::Files;

/// A channel's frames as the records of a feed, and how many were written and passed over.
#[derive(Drop)]
struct Extraction {
    channel: u16,
    extracted: Extracted,
}

impl PerPacket for Extraction {
    ghost use Rattle.std.specs.Prelude.{◌≡◌, [], ◌∷◌};
    ghost use Rattle.rec_reader.specs.ChannelFrames.{channel_frames, feed_of};
    ghost use Rattle.rec_reader.specs.Extracting.{Counts};

    ghost bytes_for = { λ extraction packet.
        feed_of (channel_frames extraction.channel (packet ∷ [])) };

    ghost counts = { λ old packet new. (new.channel ≡ old.channel)
        × Counts old.extracted new.extracted (channel_frames old.channel (packet ∷ [])) };

    fn write_packet<W: Write>(&mut self, packet: &Packet<'_>, out: &mut W) -> bool {
        extract_packet(packet, self.channel, out, &mut self.extracted).is_ok()
    }
}

/// `extract FILE CHANNEL OUT`: writes the channel's frames into the feed OUT, as [`write_recording`]
/// does, and prints how many were written and passed over.
pub fn extract_frames<'a, R: AllocGlobal + Files, I: Read, O: Write>(
    rt: &R,
    file: &'a str,
    channel: &'a str,
    out: &'a str,
    input: &mut I,
    output: &mut O,
) -> Result<(), CommandEnding<'a>>
where
    R::File: LockFile,
    ensures line { OnOk result (TakesCounts (O.contents output.old) (O.contents output.new)) }
    ensures streamed { file.now ≡ codes "-" → OnOk result (IfSome (I.remaining input.old)
        (λ recording. length recording < 2 ^ 64 → PrintsExtracted channel.now recording
        (O.contents output.old) (O.contents output.new))) }
{
    let channel = channel_of(rt.alloc(), channel)?;
    let extracted = extract(rt, file, channel, out, input)?;
    print_extracted(rt.alloc(), output, extracted)
}

/// Extracts a channel of a recording, and says how many frames were written and passed over.
fn extract<'a, R: AllocGlobal + Files, I: Read>(
    rt: &R,
    file: &'a str,
    channel: u16,
    out: &'a str,
    input: &mut I,
) -> Result<Extracted, CommandEnding<'a>>
where
    R::File: LockFile,
    ensures counted { file.now ≡ codes "-" → IfOk result (λ extracted.
        IfSome (I.remaining input.old) (λ recording. length recording < 2 ^ 64
        → CountsExtracted channel recording extracted)) }
{
    let nothing = Extracted {
        frames: 0,
        passed: 0,
    };
    let mut extraction = Extraction {
        channel,
        extracted: nothing,
    };
    write_recording(rt, file, out, input, &mut extraction)?;
    Ok(extraction.extracted)
}

/// Prints how many frames were written, and how many were passed over.
fn print_extracted<O: Write>(
    alloc: Global,
    output: &mut O,
    extracted: Extracted,
) -> Result<(), CommandEnding<'static>>
    ensures { OnOk result (Appends (O.contents output.old) (O.contents output.new)
        (extracted_line extracted.frames extracted.passed)) }
{
    let Extracted { frames, passed } = extracted;
    let mut line = Vec::new(alloc);
    let built = writeln!(&mut line, "frames {frames} passed {passed}");
    print_line(output, &mut line, built)
}

/// The channel that a word names: a number from 0 to 65,535, in decimal digits alone.
fn channel_of<'a>(alloc: Global, word: &str) -> Result<u16, CommandEnding<'a>>
    ensures named { IfOk result (λ channel. SaysNumber word.now channel) }
{
    match channel_in(word) {
        Some(channel) => Ok(channel),
        None => Err(CommandEnding::Words(format!(in alloc;
            "error: invalid value '{word}' for '<CHANNEL>': a channel is a number from 0 to 65535\n\n\
            For more information, try '--help'.\n"
        )?)),
    }
}
