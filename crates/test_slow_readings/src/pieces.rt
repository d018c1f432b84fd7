//! A slow reading of a channel's pieces, from plain lists of all its frames and of all versions of
//! its filter.

ghost use Rattle.std.specs.Prelude.{◌≤◌, ◌<◌, length, vec_len};

use bpf_insn::Insn;
use bpf_machine::run;
use bpf_verify::Verified;
use std::alloc::{AllocError, Global};
use std::sync::Arc;

/// The bytes of a packet before its frames: the header, and the word with the number of frames.
const BEFORE_FRAMES: usize = 24 + 4;

/// The bytes before those of a frame: its counter, two zeros, and its word.
const BEFORE_FRAME: usize = 6 + 2 + 4;

/// The bytes at a frame's end that no filter sees.
const CHECK_SEQUENCE: usize = 4;

/// A frame that was offered.
#[derive(Debug, Drop)]
pub(crate) struct PlainFrame {
    pub(crate) counter: u64,
    pub(crate) crc_error: bool,
    pub(crate) frame_error: bool,
    pub(crate) bytes: Vec<u8>,
    /// The counters of the time marks after it, before the next frame.
    pub(crate) times: Vec<u64>,
    ghost short: { vec_len bytes ≤ 16_383 },
}

/// A version of a filter: the number of the first frame that may meet it, and its program.
#[derive(Debug, Drop)]
pub(crate) struct PlainVersion {
    pub(crate) mark: usize,
    pub(crate) program: Arc<Verified, Global>,
}

/// What a channel is set to.
#[derive(Clone, Copy, Debug)]
pub(crate) struct Channel {
    pub(crate) id: u16,
    pub(crate) limit: usize,
    pub(crate) net: u8,
    pub(crate) speed: u8,
    /// How old a packet may get, if there is such a limit.
    pub(crate) span: Option<u64>,
}

/// A piece as it is read: its channel, its counter, and what it holds.
#[derive(Debug, Drop)]
pub(crate) struct ReadPiece {
    pub(crate) channel: u16,
    pub(crate) counter: u64,
    pub(crate) holds: Holds,
}

/// What a piece holds.
#[derive(Debug, Drop)]
pub(crate) enum Holds {
    /// A version's program, and the number of the first frame that met it.
    Program {
        version: usize,
        first: usize,
        insns: Vec<Insn>,
    },
    /// The body of a packet of so many frames.
    Data {
        count: usize,
        body: Vec<u8>,
    },
    /// The end, with the number of frames that were offered and of those that were kept.
    End {
        offered: usize,
        kept: usize,
    },
}

/// A frame, and the version in force at it.
#[derive(Drop)]
struct Met<'a> {
    frame: &'a PlainFrame,
    number: usize,
    version: usize,
    program: &'a Verified,
}

/// A moment of a channel, a frame or a time mark: its counter, and the frame if it was kept.
#[derive(Clone, Copy)]
struct Moment<'a> {
    counter: u64,
    kept: Option<&'a PlainFrame>,
}

/// All pieces of a channel that was offered these frames under these versions.
pub(crate) fn all_pieces(
    alloc: Global,
    channel: Channel,
    frames: &[PlainFrame],
    versions: &[PlainVersion],
) -> Result<Vec<ReadPiece>, AllocError> {
    let met = all_met(alloc, frames, versions)?;
    let mut pieces = Vec::new(alloc);
    for group in met.chunk_by(|one, next| one.version == next.version) {
        add_group(alloc, channel, group, false, &mut pieces)?;
    }
    pieces.push(ReadPiece {
        channel: channel.id,
        counter: frames.last().map_or(0, |frame| frame.counter),
        holds: Holds::End {
            offered: frames.len(),
            kept: kept_frames(alloc, met.as_slice())?.len(),
        },
    })?;
    Ok(pieces)
}

/// The pieces that stand however the channel goes on: all but its end, and but the last part of the
/// last version's moments.
pub(crate) fn pieces_so_far(
    alloc: Global,
    channel: Channel,
    frames: &[PlainFrame],
    versions: &[PlainVersion],
) -> Result<Vec<ReadPiece>, AllocError> {
    let met = all_met(alloc, frames, versions)?;
    let last = met.last().map(|one| one.version);
    let mut pieces = Vec::new(alloc);
    for group in met.chunk_by(|one, next| one.version == next.version) {
        let is_open = group.first().map(|one| one.version) == last;
        add_group(alloc, channel, group, is_open, &mut pieces)?;
    }
    Ok(pieces)
}

/// What the filter in force at the last of these frames says of it.
pub(crate) fn last_value(frames: &[PlainFrame], versions: &[PlainVersion]) -> Option<u32> {
    let (frame, earlier) = frames.split_last()?;
    let (_, version) = in_force(versions, earlier.len())?;
    Some(value_of(&version.program, frame))
}

/// Each frame with its number and the version in force at it.
fn all_met<'a>(
    alloc: Global,
    frames: &'a [PlainFrame],
    versions: &'a [PlainVersion],
) -> Result<Vec<Met<'a>>, AllocError> {
    let mut met = Vec::new(alloc);
    for (number, frame) in frames.iter().enumerate() {
        if let Some((version, PlainVersion { program, .. })) = in_force(versions, number) {
            met.push(Met {
                frame,
                number,
                version,
                program,
            })?;
        }
    }
    Ok(met)
}

/// The last version whose mark is at most a frame's number, with its place.
pub(crate) fn in_force(versions: &[PlainVersion], number: usize) -> Option<(usize, &PlainVersion)> {
    versions
        .iter()
        .enumerate()
        .filter(|(_, version)| version.mark <= number)
        .last()
}

/// What a program returns on a frame without its check sequence.
fn value_of(program: &Verified, frame: &PlainFrame) -> u32 {
    let bytes = frame.bytes.as_slice();
    let shown = bytes.len().saturating_sub(CHECK_SEQUENCE);
    run(program, &bytes[..shown]).value
}

/// The frames on which the program in force doesn't return 0.
fn kept_frames<'a>(alloc: Global, met: &[Met<'a>]) -> Result<Vec<&'a PlainFrame>, AllocError> {
    let mut kept = Vec::new(alloc);
    for one in met {
        if value_of(one.program, one.frame) != 0 {
            kept.push(one.frame)?;
        }
    }
    Ok(kept)
}

/// Adds the pieces of frames that met the same version, one after the other: its program, and its
/// packets; without the last part, if the version is still open.
fn add_group(
    alloc: Global,
    channel: Channel,
    group: &[Met<'_>],
    is_open: bool,
    pieces: &mut Vec<ReadPiece>,
) -> Result<(), AllocError> {
    if let Some(first) = group.first() {
        pieces.push(program_piece(alloc, channel, first)?)?;
    }
    let moments = moments_of(alloc, group)?;
    let mut from = 0;
    while from < moments.len() {
        let rest = &moments[from..];
        let count = longest_part(channel, rest);
        let kept = kept_at(alloc, &rest[..count])?;
        let is_certain = !is_open || count < rest.len();
        if is_certain && !kept.is_empty() {
            pieces.push(data_piece(alloc, channel, kept.as_slice())?)?;
        }
        from += count;
    }
    Ok(())
}

/// The moments of frames: each frame, and the time marks after it.
fn moments_of<'a>(alloc: Global, group: &[Met<'a>]) -> Result<Vec<Moment<'a>>, AllocError> {
    let mut moments = Vec::new(alloc);
    for one in group {
        let frame = one.frame;
        let is_kept = value_of(one.program, frame) != 0;
        let kept = if is_kept { Some(frame) } else { None };
        moments.push(Moment {
            counter: frame.counter,
            kept,
        })?;
        for counter in &frame.times {
            moments.push(Moment {
                counter: *counter,
                kept: None,
            })?;
        }
    }
    Ok(moments)
}

/// The frames that were kept at these moments.
fn kept_at<'a>(alloc: Global, moments: &[Moment<'a>]) -> Result<Vec<&'a PlainFrame>, AllocError> {
    let mut kept = Vec::new(alloc);
    for moment in moments {
        if let Some(frame) = moment.kept {
            kept.push(frame)?;
        }
    }
    Ok(kept)
}

/// The piece of the program that a frame is the first to meet.
fn program_piece(alloc: Global, channel: Channel, met: &Met<'_>) -> Result<ReadPiece, AllocError> {
    Ok(ReadPiece {
        channel: channel.id,
        counter: met.frame.counter,
        holds: Holds::Program {
            version: met.version,
            first: met.number,
            insns: Vec::from_slice(alloc, met.program.insns())?,
        },
    })
}

/// How many of the moments are of the next part: the most, from the first on, whose packet is within
/// the limit, and none of which is a span after the first frame.
fn longest_part(channel: Channel, moments: &[Moment<'_>]) -> usize
    requires { 0 < length moments.now }
    ensures { (1 ≤ result) × (result ≤ length moments.now) }
{
    (1..=moments.len())
        .rev()
        .find(|count| are_together(channel, &moments[..*count]))
        .unwrap_or(1)
}

/// Whether these moments are of one packet.
fn are_together(channel: Channel, moments: &[Moment<'_>]) -> bool {
    packet_len(moments) <= channel.limit && channel.span.is_none_or(|span| are_young(span, moments))
}

/// Whether no moment is a span after the first frame that was kept before it.
fn are_young(span: u64, moments: &[Moment<'_>]) -> bool {
    let mut first = None;
    for moment in moments {
        if first.is_some_and(|first| age(first, moment.counter) >= span) {
            return false;
        }
        first = first.or(moment.kept.map(|frame| frame.counter));
    }
    true
}

/// How much later a counter of 48 bits is than another one, as they go round.
fn age(first: u64, counter: u64) -> u64 {
    counter.wrapping_sub(first) % (1 << 48)
}

/// The bytes of a packet of the frames that were kept at these moments, with the filler after them.
fn packet_len(moments: &[Moment<'_>]) -> usize {
    let mut len = BEFORE_FRAMES;
    for moment in moments {
        if let Some(frame) = moment.kept {
            let bytes = frame.bytes.len();
            len = len.saturating_add(BEFORE_FRAME + bytes + bytes % 2);
        }
    }
    len.div_ceil(4).saturating_mul(4)
}

/// The piece of a packet of these frames.
fn data_piece(
    alloc: Global,
    channel: Channel,
    frames: &[&PlainFrame],
) -> Result<ReadPiece, AllocError> {
    Ok(ReadPiece {
        channel: channel.id,
        counter: frames.first().map_or(0, |frame| frame.counter),
        holds: Holds::Data {
            count: frames.len(),
            body: body_of(alloc, channel, frames)?,
        },
    })
}

/// The body of a packet of frames: how many they are, and each frame.
fn body_of(alloc: Global, channel: Channel, frames: &[&PlainFrame]) -> Result<Vec<u8>, AllocError> {
    let mut body = Vec::new(alloc);
    add_number(&mut body, frames.len() as u64, 2)?;
    add_number(&mut body, 0, 2)?;
    for frame in frames {
        add_frame(&mut body, channel, frame)?;
    }
    Ok(body)
}

/// Adds a frame: its counter, two zeros, its word, its bytes, and a zero after an odd number of
/// them.
fn add_frame(body: &mut Vec<u8>, channel: Channel, frame: &PlainFrame) -> Result<(), AllocError> {
    add_number(body, frame.counter, 6)?;
    add_number(body, 0, 2)?;
    add_number(body, frame_word(channel, frame), 4)?;
    body.extend_from_slice(frame.bytes.as_slice())?;
    if frame.bytes.len() % 2 == 1 {
        body.push(0)?;
    }
    Ok(())
}

/// A frame's word: its length in bits 0 to 13, the network in bits 16 to 23, the speed in bits 24
/// to 27, the content 0 in bits 28 and 29, and its two errors in bits 30 and 31.
fn frame_word(channel: Channel, frame: &PlainFrame) -> u64 {
    let length = frame.bytes.len() as u64;
    let net = u64::from(channel.net) * (1 << 16);
    let speed = u64::from(channel.speed) * (1 << 24);
    let frame_error = u64::from(frame.frame_error) * (1 << 30);
    let crc_error = u64::from(frame.crc_error) * (1 << 31);
    length + net + speed + frame_error + crc_error
}

/// Adds the lowest bytes of a number, the lowest first.
pub(crate) fn add_number(bytes: &mut Vec<u8>, number: u64, count: usize) -> Result<(), AllocError> {
    let mut left = number;
    for _ in 0..count {
        bytes.push((left % 256) as u8)?;
        left /= 256;
    }
    Ok(())
}
