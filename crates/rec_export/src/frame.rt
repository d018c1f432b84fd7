//! Frames as the packets of an interface.

ghost use Rattle.std.specs.Prelude.{◌≡◌, ◌<◌, ◌^◌, ◌||◌, true, false, length, MatchOption, OnOk, OnErr};
ghost use Rattle.std.specs.Io.KnownBytes.{Appends};
ghost use Rattle.ch11_packet.specs.Views.{read_frame_data};
ghost use Rattle.pcapng_blocks.specs.Blocks.{block_bytes, blocks_bytes};
ghost use Rattle.pcapng_blocks.specs.Outputs.{TakesStart};
ghost use Rattle.pcapng_blocks.specs.Options.{AreOptions, options_bytes};
ghost use Rattle.pcapng_blocks.specs.Views.{options_data};
ghost use Rattle.rec_export.specs.Frames.{IsShort, captured, frame_blocks, frame_options, note_of, packet_flags, packet_with, text_of};

use arrayvec::ArrayVec;
use ch11_packet::{Frames, ReadFrame};
use eth_frame::MIN_FRAME_LEN;
use pcapng_blocks::{
    Block, BlockFault, BlockOption, CRC_ERROR, FLAGS_FCS_LEN_BIT, SYMBOL_ERROR, write_block,
};
use std::io::Write;

/// The number of bytes of a frame check sequence (FCS).
pub(crate) const FCS_LEN: u8 = 4;

/// How many options a packet may have.
const MOST_OPTIONS: usize = 3;

/// What is said of bytes that are too few for a frame.
const TOO_SHORT: &[u8] = b"too short for an Ethernet frame with its FCS";
/// What is said of bytes of each content but 0.
const CONTENT_1: &[u8] = b"content 1: no Ethernet frame with its FCS";

const CONTENT_2: &[u8] = b"content 2: no Ethernet frame with its FCS";

const CONTENT_3: &[u8] = b"content 3: no Ethernet frame with its FCS";

/// Writes frames as the packets of an interface, with a comment on the first.
pub(crate) fn write_frames<W: Write>(
    out: &mut W,
    interface: u32,
    comment: Option<&[u8]>,
    frames: &Frames<'_>,
) -> Result<(), BlockFault>
    requires { IsShort (text_of comment) }
    ensures whole { OnOk result (Appends (W.contents out.old) (W.contents out.new)
        (blocks_bytes (frame_blocks interface (text_of comment.entry) frames.now))) }
    ensures part { OnErr result (TakesStart (W.contents out.old) (W.contents out.new)
        (blocks_bytes (frame_blocks interface (text_of comment.entry) frames.now))) }
{
    let mut said = comment;
    'frames: for frame in frames.walk() {
        write_frame(out, interface, said, &frame)?;
        said = None;
    }
    Ok(())
}

/// Writes a frame as a packet of an interface, with a comment.
fn write_frame<W: Write>(
    out: &mut W,
    interface: u32,
    comment: Option<&[u8]>,
    frame: &ReadFrame<'_>,
) -> Result<(), BlockFault>
    requires { IsShort (text_of comment) }
    ensures whole { OnOk result (Appends (W.contents out.old) (W.contents out.new)
        (block_bytes (captured interface (text_of comment.entry)
        (read_frame_data frame.now)))) }
    ensures part { OnErr result (TakesStart (W.contents out.old) (W.contents out.new)
        (block_bytes (captured interface (text_of comment.entry)
        (read_frame_data frame.now)))) }
{
    let options = frame_options(comment, frame);
    write_captured(out, interface, frame, options.as_slice())
}

/// The options of a frame: its flags, a comment, and what is said of bytes that are no frame.
fn frame_options<'a>(
    comment: Option<&'a [u8]>,
    frame: &ReadFrame<'_>,
) -> ArrayVec<BlockOption<'a>, MOST_OPTIONS>
    ensures { options_data result.items
        ≡ frame_options (text_of comment.entry) (read_frame_data frame.now) }
{
    let mut options = ArrayVec::new();
    if let Some(flags) = flags_of(frame) {
        options.push(BlockOption::PacketFlags(flags));
    }
    // behind the flags, since a reader may stop at it
    if let Some(text) = comment {
        options.push(BlockOption::Comment(text));
    }
    if let Some(text) = note_of(frame) {
        options.push(BlockOption::Comment(text));
    }
    options
}

/// What is said of bytes that are no Ethernet frame with its check sequence.
fn note_of(frame: &ReadFrame<'_>) -> Option<&'static [u8]>
    ensures { text_of result ≡ note_of (read_frame_data frame.now) }
{
    match frame.content {
        0 if frame.bytes.len() < MIN_FRAME_LEN => Some(TOO_SHORT),
        0 => None,
        1 => Some(CONTENT_1),
        2 => Some(CONTENT_2),
        _ => Some(CONTENT_3),
    }
}

/// Writes a frame as a packet with these options.
fn write_captured<W: Write>(
    out: &mut W,
    interface: u32,
    frame: &ReadFrame<'_>,
    options: &[BlockOption<'_>],
) -> Result<(), BlockFault>
    requires options { AreOptions (options_data options.now) }
    requires fits { length (options_bytes (options_data options.now)) < 2 ^ 17 }
    ensures whole { OnOk result (Appends (W.contents out.old) (W.contents out.new)
        (block_bytes
        (packet_with interface (read_frame_data frame.now) (options_data options.now)))) }
    ensures part { OnErr result (TakesStart (W.contents out.old) (W.contents out.new)
        (block_bytes
        (packet_with interface (read_frame_data frame.now) (options_data options.now)))) }
{
    let block = Block::Packet {
        interface,
        time: frame.counter,
        bytes: frame.bytes,
        options,
    };
    write_block(out, &block)
}

/// The flags of a frame with an error.
fn flags_of(frame: &ReadFrame<'_>) -> Option<u32>
    ensures { MatchOption result
        ((frame.now.crc_error ≡ false) × (frame.now.frame_error ≡ false))
        (λ flags. (frame.now.crc_error || frame.now.frame_error ≡ true)
        × (flags ≡ packet_flags frame.now.crc_error frame.now.frame_error)) }
{
    if !frame.crc_error && !frame.frame_error {
        return None;
    }
    let crc_error = if frame.crc_error { CRC_ERROR } else { 0 };
    let symbol_error = if frame.frame_error { SYMBOL_ERROR } else { 0 };
    Some((u32::from(FCS_LEN) << FLAGS_FCS_LEN_BIT) + crc_error + symbol_error)
}
