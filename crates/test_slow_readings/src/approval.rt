//! A slow reading of what an audit answers of a recording's packets, and a slow judge of a yes. For
//! each packet they look back through all packets before it, and for each channel through all of
//! them.

use crate::search::{VerdictKind, all_paths, judge};
use bpf_insn::Insn;
use bpf_machine::run;
use bpf_verify::{Verified, verify};
use ch11_packet::{ReadFrame, Record, What, decode_record};
use rec_reader::Packet;
use std::alloc::{AllocError, Global};

/// The fewest bytes of a frame with its check sequence.
const LEAST_FRAME: usize = 18;

/// The bytes at a frame's end that no filter sees.
const CHECK_SEQUENCE: usize = 4;

/// The first thing that is wrong with a recording's packets.
#[derive(Clone, Copy, Debug, PartialEq, Eq)]
pub(crate) enum Wrong {
    /// A packet of frames without a program of its channel before it.
    NoProgram { packet: usize },
    /// A program that isn't valid.
    BadProgram { packet: usize },
    /// A frame that its channel's program doesn't accept, or that isn't one with a check sequence.
    NotAccepted { packet: usize, frame: usize },
    /// A packet after its channel's end, or a program that doesn't follow the one before it.
    Order { packet: usize },
    /// A channel without an end.
    NoEnd { channel: u16 },
    /// A channel whose end has wrong counts.
    Counts { channel: u16 },
}

/// What is said of a channel with which nothing is wrong.
#[derive(Clone, Copy, Debug, PartialEq, Eq)]
pub(crate) struct ChannelLine {
    pub(crate) channel: u16,
    pub(crate) programs: u64,
    pub(crate) frames: u64,
    pub(crate) offered: u64,
}

/// What is said of a recording's packets.
#[derive(Debug, Drop, PartialEq)]
pub(crate) enum Answer {
    /// Nothing is wrong: a line for each channel, and the number of other packets.
    Yes { lines: Vec<ChannelLine>, other: u64 },
    /// This is wrong, and nothing before it.
    No(Wrong),
}

/// What an audit of these packets answers.
pub(crate) fn answer_of(alloc: Global, packets: &[Packet<'_>]) -> Result<Answer, AllocError> {
    for at in 0..packets.len() {
        if let Some(wrong) = wrong_packet(alloc, packets, at)? {
            return Ok(Answer::No(wrong));
        }
    }
    let mut lines = Vec::new(alloc);
    for channel in named_channels(alloc, packets)? {
        if let Some(wrong) = wrong_end(packets, channel) {
            return Ok(Answer::No(wrong));
        }
        lines.push(line_of(packets, channel))?;
    }
    let other = packets
        .iter()
        .filter(|packet| matches!(packet.what, What::Other));
    Ok(Answer::Yes {
        lines,
        other: other.count() as u64,
    })
}

/// What is wrong with the packet at `at` after those before it.
fn wrong_packet(
    alloc: Global,
    packets: &[Packet<'_>],
    at: usize,
) -> Result<Option<Wrong>, AllocError> {
    let (Some(before), Some(packet)) = (packets.get(..at), packets.get(at)) else {
        return Ok(None);
    };
    let Some(channel) = named_channel(packet) else {
        return Ok(None);
    };
    if end_of(before, channel).is_some() {
        return Ok(Some(Wrong::Order { packet: at }));
    }
    match packet.what {
        What::Frames(_) => wrong_frames(alloc, before, packet, at),
        What::Program { version, first, .. } if follows(before, channel, version, first) => {
            let bad = program_in(alloc, packet)?.is_none();
            Ok(bad.then_some(Wrong::BadProgram { packet: at }))
        }
        What::Program { .. } => Ok(Some(Wrong::Order { packet: at })),
        What::End { .. } | What::Other => Ok(None),
    }
}

/// What is wrong with the frames of the packet at `at` after those before it.
fn wrong_frames(
    alloc: Global,
    before: &[Packet<'_>],
    packet: &Packet<'_>,
    at: usize,
) -> Result<Option<Wrong>, AllocError> {
    let Some(last) = last_program(before, packet.header.channel) else {
        return Ok(Some(Wrong::NoProgram { packet: at }));
    };
    for (number, frame) in frames_in(alloc, packet)?.iter().enumerate() {
        let accepted = match program_in(alloc, last)? {
            Some(program) => is_accepted(&program, frame),
            None => false,
        };
        if !accepted {
            let wrong = Wrong::NotAccepted {
                packet: at,
                frame: number,
            };
            return Ok(Some(wrong));
        }
    }
    Ok(None)
}

/// Whether a frame has its check sequence, and a program doesn't return 0 on it.
fn is_accepted(program: &Verified, frame: &ReadFrame<'_>) -> bool {
    match frame.frame() {
        Some(frame) => run(program, frame.view()).value != 0,
        None => false,
    }
}

/// Whether a channel's program may come after these packets: the first one with the channel's first
/// frame, a later one with a greater version and a later frame than the one before it.
fn follows(before: &[Packet<'_>], channel: u16, version: u32, first: u64) -> bool {
    match last_program(before, channel).map(|packet| packet.what) {
        Some(
            What::Program {
                version: last_version,
                first: last_first,
                ..
            },
        ) => last_version < version && last_first < first,
        _ => first == 0,
    }
}

/// What is wrong with a channel that some packet names, once all packets are read.
fn wrong_end(packets: &[Packet<'_>], channel: u16) -> Option<Wrong> {
    let Some((offered, kept)) = end_of(packets, channel) else {
        return Some(Wrong::NoEnd { channel });
    };
    let late = match last_program(packets, channel).map(|packet| packet.what) {
        Some(What::Program { first, .. }) => first >= offered,
        _ => offered > 0,
    };
    let wrong = late || kept > offered || kept != frames_of(packets, channel);
    wrong.then_some(Wrong::Counts { channel })
}

/// What is said of a channel with which nothing is wrong.
fn line_of(packets: &[Packet<'_>], channel: u16) -> ChannelLine {
    let programs = packets
        .iter()
        .filter(|packet| is_program_of(packet, channel));
    ChannelLine {
        channel,
        programs: programs.count() as u64,
        frames: frames_of(packets, channel),
        offered: end_of(packets, channel).map_or(0, |(offered, _)| offered),
    }
}

/// Whether a yes may be said of these packets: each frame is one that its channel's program accepts,
/// and each channel is ended by its last packet, with counts that are those of its frames.
pub(crate) fn is_yes_true(alloc: Global, packets: &[Packet<'_>]) -> Result<bool, AllocError> {
    for at in 0..packets.len() {
        if !has_approved_frames(alloc, packets, at)? {
            return Ok(false);
        }
    }
    let channels = named_channels(alloc, packets)?;
    Ok(channels.iter().all(|channel| is_ended(packets, *channel)))
}

/// Whether each frame of the packet at `at` is approved.
fn has_approved_frames(
    alloc: Global,
    packets: &[Packet<'_>],
    at: usize,
) -> Result<bool, AllocError> {
    let (Some(before), Some(packet)) = (packets.get(..at), packets.get(at)) else {
        return Ok(false);
    };
    for frame in frames_in(alloc, packet)? {
        let approved = match last_program(before, packet.header.channel) {
            Some(last) => is_approved(alloc, last, &frame)?,
            None => false,
        };
        if !approved {
            return Ok(false);
        }
    }
    Ok(true)
}

/// Whether a frame is whole, and the program of a packet is valid and doesn't return 0 on it. Whether
/// the program is valid is what the search through its paths says.
fn is_approved(
    alloc: Global,
    last: &Packet<'_>,
    frame: &ReadFrame<'_>,
) -> Result<bool, AllocError> {
    if frame.content != 0 || frame.bytes.len() < LEAST_FRAME {
        return Ok(false);
    }
    let insns = insns_in(alloc, last)?;
    let paths = all_paths(alloc, insns.as_slice())?;
    if judge(insns.as_slice(), paths.as_slice()).kind != VerdictKind::Valid {
        return Ok(false);
    }
    let view = &frame.bytes[..frame.bytes.len() - CHECK_SEQUENCE];
    match verify(insns) {
        Ok(program) => Ok(run(&program, view).value != 0),
        Err(_) => Ok(false),
    }
}

/// Whether the last packet that names a channel is its one end, with as many frames kept as its
/// packets have, and none offered exactly if no program names it.
fn is_ended(packets: &[Packet<'_>], channel: u16) -> bool {
    let named = packets
        .iter()
        .filter(|packet| named_channel(packet) == Some(channel));
    let ends = packets.iter().filter(|packet| is_end_of(packet, channel));
    let Some(What::End { offered, kept, .. }) = named.last().map(|packet| packet.what) else {
        return false;
    };
    let no_program = last_program(packets, channel).is_none();
    ends.count() == 1 && kept == frames_of(packets, channel) && (offered == 0) == no_program
}

/// The channel that a packet of frames, of a program or of an end names.
fn named_channel(packet: &Packet<'_>) -> Option<u16> {
    match packet.what {
        What::Frames(_) => Some(packet.header.channel),
        What::Program { channel, .. } | What::End { channel, .. } => Some(channel),
        What::Other => None,
    }
}

/// The channels that packets name, each once, the least first.
fn named_channels(alloc: Global, packets: &[Packet<'_>]) -> Result<Vec<u16>, AllocError> {
    let mut channels = Vec::new(alloc);
    for packet in packets {
        if let Some(channel) = named_channel(packet)
            && !channels.contains(&channel)
        {
            channels.push(channel)?;
        }
    }
    channels.sort()?;
    Ok(channels)
}

/// Whether a packet is of a program of this channel.
fn is_program_of(packet: &Packet<'_>, channel: u16) -> bool {
    matches!(packet.what, What::Program { channel: named, .. } if named == channel)
}

/// Whether a packet is of an end of this channel.
fn is_end_of(packet: &Packet<'_>, channel: u16) -> bool {
    matches!(packet.what, What::End { channel: named, .. } if named == channel)
}

/// The last packet of a program of this channel.
fn last_program<'p, 'a>(packets: &'p [Packet<'a>], channel: u16) -> Option<&'p Packet<'a>> {
    packets
        .iter()
        .filter(|packet| is_program_of(packet, channel))
        .last()
}

/// The two counts of a channel's end: of the frames that were offered and of those that were kept.
fn end_of(packets: &[Packet<'_>], channel: u16) -> Option<(u64, u64)> {
    let end = packets.iter().find(|packet| is_end_of(packet, channel))?;
    match end.what {
        What::End { offered, kept, .. } => Some((offered, kept)),
        _ => None,
    }
}

/// The number of frames in a channel's packets.
fn frames_of(packets: &[Packet<'_>], channel: u16) -> u64 {
    let mut frames = 0u64;
    for packet in packets {
        if packet.header.channel == channel
            && let What::Frames(count) = packet.what
        {
            frames = frames.saturating_add(u64::from(count));
        }
    }
    frames
}

/// The frames of a packet, in order.
fn frames_in<'a>(alloc: Global, packet: &Packet<'a>) -> Result<Vec<ReadFrame<'a>>, AllocError> {
    let mut frames = Vec::new(alloc);
    if let Some(found) = packet.frames() {
        for at in 0..found.count() {
            if let Some(frame) = found.frame_at(at) {
                frames.push(frame)?;
            }
        }
    }
    Ok(frames)
}

/// The instructions of a packet's program; none in another packet.
fn insns_in(alloc: Global, packet: &Packet<'_>) -> Result<Vec<Insn>, AllocError> {
    let mut insns = Vec::new(alloc);
    if let Ok(Some(Record::Program(record))) = decode_record(packet.data()) {
        for at in 0..record.count {
            if let Some(insn) = record.insn_at(at) {
                insns.push(insn)?;
            }
        }
    }
    Ok(insns)
}

/// A packet's program, if it is valid.
fn program_in(alloc: Global, packet: &Packet<'_>) -> Result<Option<Verified>, AllocError> {
    Ok(verify(insns_in(alloc, packet)?).ok())
}
