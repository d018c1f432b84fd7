//! The audit beside its slow reading: on worked recordings, on one with each byte damaged, and on
//! recordings of drawn lanes whose packets are dropped, doubled, exchanged and changed.

ghost use Rattle.std.specs.Prelude.{◌<◌};

use crate::approval::{Answer, ChannelLine, Wrong, answer_of, is_yes_true};
use crate::draws::Draws;
use crate::packets::data_sum;
use crate::pieces::{Channel, add_number};
use crate::shared::{drawn_frame, drawn_length, drawn_program, lane_spec, offer, programs};
use bpf_verify::Verified;
use ch11_packet::{CHECKSUM_LEN, ETHERNET_DATA, HEADER_LEN, Header};
use eth_frame::MAX_FRAME_LEN;
use rec_channel::Slot;
use rec_lane::{Lane, Piece};
use rec_reader::{AuditFault, Recording, audit, read_recording};
use rec_writer::Writer;
use std::alloc::Global;
use std::process::Abort;
use std::sync::Arc;
use std::test::Fail;
use test_samples::{
    ACCEPTING, CHECKED, END, FRAMES, REJECTING, all_bytes, assert_same, joined_bytes,
};

/// A program that channels share.
type Program = Arc<Verified, Global>;

/// How many recordings are drawn.
const RECORDINGS: usize = 2_000;

/// How often each kind of answer has to come up at least.
const FEW: usize = 20;

/// The lengths of the frames that are drawn. No two of the longest fit a packet.
const LENGTHS: [usize; 16] = [
    18, 18, 18, 18, 18, 18, 18, 19, 19, 20, 20, 20, 21, 61, 64, 8_300,
];

/// The programs of the recordings that are drawn.
const PROGRAMS: [&str; 5] = [
    "1,6 0 0 1,",
    "1,6 0 0 1,",
    "1,6 0 0 0,",
    // byte 1 is below 160
    "4,48 0 0 1,53 1 0 160,6 0 0 1,6 0 0 0,",
    // the length of the view modulo 3, by way of a scratch word
    "5,128 0 0 0,148 0 0 3,2 0 0 1,96 0 0 1,22 0 0 0,",
];

/// The number of bytes of the longest packet of the recording of 248 bytes.
const LONGEST_CHECKED: usize = 64;

/// Where a packet's flags stand.
const FLAGS_AT: usize = 14;

/// The number of bytes of an end's packet.
const END_LEN: usize = 56;

/// A setup record's packet.
const SETUP: &str = "25eb 0000 1c000000 04000000 08 00 00 01 000000000000 4dec 00000000";

/// One frame at 16, without its program.
const LONE: &str = "25eb 0100 3c000000 22000000 08 00 00 68 100000000000 9c53 \
    01000000 100000000000 0000 12000003 ffffffffffff 020000000001 0806 a1b2c3d4 0000";

/// The same with a secondary header.
const SECONDARY: &str = "25eb 0100 3c000000 22000000 08 00 80 68 100000000000 1c54 \
    01000000 100000000000 0000 12000003 ffffffffffff 020000000001 0806 a1b2c3d4 0000";

/// The end of a channel of no frames.
const EMPTY_END: &str = "25eb 0000 34000000 1c000000 08 00 00 00 000000000000 7deb \
    00000000 43425052 0200 0100 0000000000000000 0000000000000000";

/// A packet of no frames of channel 1.
const NO_FRAMES: &str = "25eb 0100 1c000000 04000000 08 00 00 68 000000000000 4e53 00000000";

/// What is said of the recording of 232 bytes.
const WHOLE: ChannelLine = ChannelLine {
    channel: 1,
    programs: 2,
    frames: 1,
    offered: 2,
};

/// What is said of the channel of no frames.
const EMPTY: ChannelLine = ChannelLine {
    channel: 1,
    programs: 0,
    frames: 0,
    offered: 0,
};

/// What an answer says, in one word.
#[derive(Clone, Copy, Debug, PartialEq, Eq)]
pub(crate) enum AnswerKind {
    Yes,
    NoProgram,
    BadProgram,
    NotAccepted,
    Order,
    NoEnd,
    Counts,
}

/// All kinds of answers.
pub(crate) const KINDS: [AnswerKind; 7] = [
    AnswerKind::Yes,
    AnswerKind::NoProgram,
    AnswerKind::BadProgram,
    AnswerKind::NotAccepted,
    AnswerKind::Order,
    AnswerKind::NoEnd,
    AnswerKind::Counts,
];

/// Recordings that are approved, with their lines and how many other packets they have, worked by hand.
const APPROVED: [(&[&str], &[ChannelLine], u64); 6] = [
    (&[REJECTING, ACCEPTING, FRAMES, END], &[WHOLE], 0),
    (&[REJECTING, ACCEPTING, NO_FRAMES, FRAMES, END], &[WHOLE], 0),
    (&[SECONDARY], &[], 1),
    (&[SETUP], &[], 1),
    (&[EMPTY_END], &[EMPTY], 0),
    (&[], &[], 0),
];

/// Recordings that are read to their end and refused, and what is wrong with them, worked by hand.
const DISAPPROVED: [(&[&str], Wrong); 5] = [
    (&[LONE], Wrong::NoProgram { packet: 0 }),
    (&[NO_FRAMES], Wrong::NoProgram { packet: 0 }),
    (&[EMPTY_END, NO_FRAMES], Wrong::Order { packet: 1 }),
    (&[EMPTY_END, REJECTING], Wrong::Order { packet: 1 }),
    (
        &[REJECTING, ACCEPTING, FRAMES, END, END],
        Wrong::Order { packet: 4 },
    ),
];

#[test]
fn worked_recordings_are_answered_as_they_should(rt: HostRuntime) -> Result<(), Fail> {
    for &(texts, lines, others) in &APPROVED {
        let bytes = joined_bytes(rt.alloc(), texts)?;
        let answer = slow_answer(&rt, rt.alloc(), bytes.as_slice())?;
        let Answer::Yes { lines: said, other } = answer else {
            return Err("a yes".into());
        };
        assert_same!(rt; (said.as_slice(), other), (lines, others), "{texts:?}");
    }
    for &(texts, wrong) in &DISAPPROVED {
        let bytes = joined_bytes(rt.alloc(), texts)?;
        let answer = slow_answer(&rt, rt.alloc(), bytes.as_slice())?;
        assert_same!(rt; answer, Answer::No(wrong), "{texts:?}");
    }
    Ok(())
}

/// Bytes of recordings that are set, and what is then wrong, worked by hand.
#[test]
fn worked_damage_is_answered_as_it_should(rt: HostRuntime) -> Result<(), Fail> {
    let whole = [REJECTING, ACCEPTING, FRAMES, END];
    let not_accepted = Wrong::NotAccepted {
        packet: 2,
        frame: 0,
    };
    let table: [(&[&str], usize, u8, Wrong); 8] = [
        (&whole, 40, 0x01, Wrong::Order { packet: 0 }),
        (&whole, 96, 0x00, Wrong::Order { packet: 1 }),
        (&whole, 100, 0x00, Wrong::Order { packet: 1 }),
        (&whole, 216, 0x01, Wrong::Counts { channel: 1 }),
        (&whole, 116, 0x00, not_accepted),
        (&whole, 112, 0xff, Wrong::BadProgram { packet: 1 }),
        (&whole, 224, 0x02, Wrong::Counts { channel: 1 }),
        (&[END], 44, 0x00, Wrong::Counts { channel: 1 }),
    ];
    for (texts, at, value, wrong) in table {
        let mut bytes = joined_bytes(rt.alloc(), texts)?;
        if let Some(byte) = bytes.get_mut(at) {
            *byte = value;
        }
        let answer = slow_answer(&rt, rt.alloc(), bytes.as_slice())?;
        assert_same!(rt; answer, Answer::No(wrong), "byte {at}");
    }
    Ok(())
}

/// The packets before a cut lack their channel's end.
#[test]
fn a_cut_recording_has_no_end(rt: HostRuntime) -> Result<(), Fail> {
    let bytes = joined_bytes(rt.alloc(), &[REJECTING, ACCEPTING, FRAMES, END])?;
    for len in [200, 210] {
        let Err(fault) = read_recording(rt.alloc(), bytes.get(..len).unwrap_or(&[])) else {
            return Err("a recording that is cut".into());
        };
        let answer = compared_answer(&rt, rt.alloc(), &fault.into_before())?;
        let wrong = Wrong::NoEnd { channel: 1 };
        assert_same!(rt; answer, Answer::No(wrong), "{len} bytes");
    }
    Ok(())
}

/// Each byte of the recording of 232 bytes is set to its least and to its greatest value.
#[test]
fn answers_agree_at_each_damaged_byte(rt: HostRuntime) -> Result<(), Fail> {
    let whole = [REJECTING, ACCEPTING, FRAMES, END];
    let mut kinds = Vec::new(rt.alloc());
    for at in 0..232 {
        for value in [0x00, 0xff] {
            let mut bytes = joined_bytes(rt.alloc(), &whole)?;
            if let Some(byte) = bytes.get_mut(at) {
                *byte = value;
            }
            if let Some(kind) = compare(&rt, rt.alloc(), bytes.as_slice())? {
                kinds.push(kind)?;
            }
        }
    }
    let yes = count_of(kinds.as_slice(), AnswerKind::Yes);
    let read = kinds.len();
    assert!(rt; read >= FEW && yes >= FEW && yes < read, "{yes} of {read}");
    Ok(())
}

/// The recording of 248 bytes with a byte of one of its packets set, and the data checksum of that
/// packet made right again.
fn damaged(alloc: Global, which: usize, at: usize, value: u8) -> Result<Vec<u8>, Fail> {
    let mut bytes = Vec::new(alloc);
    for (number, text) in CHECKED.iter().enumerate() {
        let mut packet = all_bytes(alloc, text)?;
        if let Some(byte) = packet.get_mut(at)
            && number == which
        {
            *byte = value;
        }
        sum_again(&mut packet)?;
        bytes.extend_from_slice(packet.as_slice())?;
    }
    Ok(bytes)
}

/// Each byte of the recording of 248 bytes is set to its least and to its greatest value, too.
#[test]
fn answers_agree_at_each_damaged_byte_with_its_sum(rt: HostRuntime) -> Result<(), Fail> {
    let mut kinds = Vec::new(rt.alloc());
    for which in 0..CHECKED.len() {
        for at in 0..LONGEST_CHECKED {
            for value in [0x00, 0xff] {
                let bytes = damaged(rt.alloc(), which, at, value)?;
                if let Some(kind) = compare(&rt, rt.alloc(), bytes.as_slice())? {
                    kinds.push(kind)?;
                }
            }
        }
    }
    let yes = count_of(kinds.as_slice(), AnswerKind::Yes);
    let read = kinds.len();
    assert!(rt; read >= FEW && yes >= FEW && yes < read, "{yes} of {read}");
    Ok(())
}

/// Recordings of two drawn channels with up to three changes, of which many are still read.
#[test]
fn answers_agree_on_changed_recordings(rt: HostRuntime) -> Result<(), Fail> {
    let alloc = rt.alloc();
    let mut draws = Draws::from_seed(20260701);
    let programs = programs(alloc, &PROGRAMS)?;
    let mut kinds = Vec::new(alloc);
    for _ in 0..RECORDINGS {
        let mut packets = drawn_packets(alloc, &mut draws, programs.as_slice())?;
        for _ in 0..draws.below(4) {
            change(alloc, &mut draws, &mut packets)?;
        }
        let mut bytes = Vec::new(alloc);
        for packet in &packets {
            bytes.extend_from_slice(packet.as_slice())?;
        }
        if let Some(kind) = compare(&rt, alloc, bytes.as_slice())? {
            kinds.push(kind)?;
        }
    }
    for &kind in &KINDS {
        let count = count_of(kinds.as_slice(), kind);
        assert!(rt; count >= FEW, "{kind:?} came up {count} times");
    }
    Ok(())
}

/// What is said of a recording that is read to its end.
fn slow_answer(rt: &impl Abort, alloc: Global, bytes: &[u8]) -> Result<Answer, Fail> {
    let Ok(recording) = read_recording(alloc, bytes) else {
        return Err("a recording that is read".into());
    };
    compared_answer(rt, alloc, &recording)
}

/// Stops unless the audit of a recording answers what is read, where it is read to its end; what
/// kind of answer this is.
pub(crate) fn compare(
    rt: &impl Abort,
    alloc: Global,
    bytes: &[u8],
) -> Result<Option<AnswerKind>, Fail> {
    match read_recording(alloc, bytes) {
        Ok(recording) => Ok(Some(kind_of(&compared_answer(rt, alloc, &recording)?))),
        Err(_) => Ok(None),
    }
}

/// Stops unless the audit of a recording answers what is read, and a yes is true; that answer.
fn compared_answer(
    rt: &impl Abort,
    alloc: Global,
    recording: &Recording<'_>,
) -> Result<Answer, Fail> {
    let answer = answer_of(alloc, recording.packets())?;
    assert_same!(rt; given_answer(alloc, recording)?, answer);
    if let Answer::Yes { .. } = answer {
        assert!(rt; is_yes_true(alloc, recording.packets())?, "{answer:?}");
    }
    Ok(answer)
}

/// What the audit of a recording answers.
fn given_answer(alloc: Global, recording: &Recording<'_>) -> Result<Answer, Fail> {
    let audited = match audit(alloc, recording) {
        Ok(audited) => audited,
        Err(fault) => return Ok(Answer::No(wrong_of(fault)?)),
    };
    let mut lines = Vec::new(alloc);
    for line in audited.channels.as_slice() {
        lines.push(ChannelLine {
            channel: line.channel,
            programs: line.programs,
            frames: line.frames,
            offered: line.offered,
        })?;
    }
    Ok(Answer::Yes {
        lines,
        other: audited.other,
    })
}

/// What is wrong by a fault of an audit.
fn wrong_of(fault: AuditFault) -> Result<Wrong, Fail> {
    Ok(match fault {
        AuditFault::NoProgram { packet } => Wrong::NoProgram {
            packet: packet as usize,
        },
        AuditFault::BadProgram { packet } => Wrong::BadProgram {
            packet: packet as usize,
        },
        AuditFault::NotAccepted { packet, frame } => Wrong::NotAccepted {
            packet: packet as usize,
            frame: frame as usize,
        },
        AuditFault::Order { packet } => Wrong::Order {
            packet: packet as usize,
        },
        AuditFault::NoEnd { channel } => Wrong::NoEnd { channel },
        AuditFault::Counts { channel } => Wrong::Counts { channel },
        AuditFault::Memory => return Err("memory for the audit")?,
    })
}

/// The kind of an answer.
fn kind_of(answer: &Answer) -> AnswerKind {
    match answer {
        Answer::Yes { .. } => AnswerKind::Yes,
        Answer::No(Wrong::NoProgram { .. }) => AnswerKind::NoProgram,
        Answer::No(Wrong::BadProgram { .. }) => AnswerKind::BadProgram,
        Answer::No(Wrong::NotAccepted { .. }) => AnswerKind::NotAccepted,
        Answer::No(Wrong::Order { .. }) => AnswerKind::Order,
        Answer::No(Wrong::NoEnd { .. }) => AnswerKind::NoEnd,
        Answer::No(Wrong::Counts { .. }) => AnswerKind::Counts,
    }
}

/// How many answers are of a kind.
pub(crate) fn count_of(kinds: &[AnswerKind], kind: AnswerKind) -> usize {
    kinds.iter().filter(|found| **found == kind).count()
}

/// The packets of a recording of two drawn channels, each packet's bytes.
fn drawn_packets(
    alloc: Global,
    draws: &mut Draws,
    programs: &[Program],
) -> Result<Vec<Vec<u8>>, Fail> {
    let bytes = drawn_recording(alloc, draws, programs)?;
    let Ok(recording) = read_recording(alloc, bytes.as_slice()) else {
        return Err("a recording that is read".into());
    };
    let mut packets = Vec::new(alloc);
    for packet in recording.packets() {
        let start = packet.at as usize;
        let end = start.saturating_add(packet.header.packet_len as usize);
        let packet = bytes.get(start..end).ok_or("a packet's bytes")?;
        packets.push(packet.to_vec(alloc)?)?;
    }
    Ok(packets)
}

/// The recording of two drawn channels, whose pieces take turns at random.
fn drawn_recording(
    alloc: Global,
    draws: &mut Draws,
    programs: &[Program],
) -> Result<Vec<u8>, Fail> {
    let one = drawn_pieces(alloc, draws, programs, 1)?;
    let other = drawn_pieces(alloc, draws, programs, 2)?;
    let both = one.len().saturating_add(other.len());
    let mut one = one.into_iter();
    let mut other = other.into_iter();
    let mut writer = Writer::new(Vec::new(alloc), &[1, 2], 8);
    for _ in 0..both {
        let piece = if draws.below(2) == 0 {
            one.next().or_else(|| other.next())
        } else {
            other.next().or_else(|| one.next())
        };
        let piece = piece.ok_or("a piece")?;
        if !writer.knows(piece.channel()) {
            return Err("a channel that the writer knows".into());
        }
        writer.put(&piece)?;
    }
    let Ok(bytes) = writer.finish() else {
        return Err("a finished recording".into());
    };
    Ok(bytes)
}

/// The pieces of a channel of a few drawn frames, with changes of its filter between them.
fn drawn_pieces(
    alloc: Global,
    draws: &mut Draws,
    programs: &[Program],
    id: u16,
) -> Result<Vec<Piece>, Fail> {
    let channel = Channel {
        id,
        limit: 16_424,
        net: 2,
        speed: 3,
        span: None,
    };
    let mut slot = Slot::new(alloc, drawn_program(draws, programs)?, u64::MAX)?;
    let mut lane = Lane::new(alloc, lane_spec(channel)?)?;
    let mut pieces = Vec::new(alloc);
    for _ in 0..draws.below(9) {
        take_drawn(alloc, draws, programs, &mut slot, &mut lane, &mut pieces)?;
    }
    for piece in lane.end() {
        pieces.push(piece)?;
    }
    Ok(pieces)
}

/// Offers a drawn frame to a lane, one in five after a change of its filter, and keeps the pieces that
/// it gives.
fn take_drawn(
    alloc: Global,
    draws: &mut Draws,
    programs: &[Program],
    slot: &mut Slot,
    lane: &mut Lane,
    pieces: &mut Vec<Piece>,
) -> Result<(), Fail> {
    if draws.below(5) == 0 {
        slot.install(drawn_program(draws, programs)?)?;
    }
    let len = drawn_length(draws, &LENGTHS)?.min(MAX_FRAME_LEN);
    let frame = drawn_frame(alloc, draws, len)?;
    let _value = offer(lane, slot, &frame, pieces)?;
    Ok(())
}

/// Drops, doubles, exchanges or changes packets. The data checksum of a packet that was changed is
/// mostly made right again, so that its body is judged.
fn change(alloc: Global, draws: &mut Draws, packets: &mut Vec<Vec<u8>>) -> Result<(), Fail> {
    if packets.is_empty() {
        return Ok(());
    }
    let one = drawn_index(draws, packets.len());
    let other = drawn_index(draws, packets.len());
    match draws.below(16) {
        0 => {
            let _dropped = packets.remove(one);
        }
        1 => {
            let copy = packets[one].clone()?;
            packets.insert(other, copy)?;
        }
        2 => packets.swap(one, other),
        3 => packets.insert(other, empty_packet(alloc, draws)?)?,
        4 | 5 => change_header(draws, &mut packets[one])?,
        6 | 7 => change_counts(draws, packets),
        _ => change_body(draws, &mut packets[one]),
    }
    if draws.below(8) != 0 {
        for packet in packets.iter_mut() {
            sum_again(packet)?;
        }
    }
    Ok(())
}

/// Makes the data checksum of a packet right, where its flags say that it has one.
fn sum_again(packet: &mut Vec<u8>) -> Result<(), Fail> {
    let checked = packet.get(FLAGS_AT).is_some_and(|flags| *flags % 4 == 3);
    let at = packet.len().saturating_sub(CHECKSUM_LEN);
    if !checked || at < HEADER_LEN {
        return Ok(());
    }
    let sum = data_sum(packet.get(HEADER_LEN..at).unwrap_or(&[]));
    packet.truncate(at);
    Ok(add_number(packet, sum, CHECKSUM_LEN)?)
}

/// A packet of no frames of a drawn channel.
fn empty_packet(alloc: Global, draws: &mut Draws) -> Result<Vec<u8>, Fail> {
    let channel = u16::from(draws.below(4));
    let header = Header::new(channel, 28, 4, 8, 0, 0, ETHERNET_DATA, 0).ok_or("a header")?;
    let mut packet = header.encode().to_vec(alloc)?;
    packet.extend_from_slice(&[0; 4])?;
    Ok(packet)
}

/// An index below `len`.
fn drawn_index(draws: &mut Draws, len: usize) -> usize
    requires { 0 < len }
    ensures { result < len }
{
    usize::from(draws.below(255)) % len
}

/// Changes a field of a packet's header, and makes its checksum right again.
fn change_header(draws: &mut Draws, packet: &mut Vec<u8>) -> Result<(), Fail> {
    let Some(bytes) = packet.as_mut_slice().get_mut(..HEADER_LEN) else {
        return Err("a header's bytes".into());
    };
    let mut header = [0; HEADER_LEN];
    header.copy_from_slice(bytes);
    let header = Header::decode(&header)?;
    let mut channel = header.channel;
    let mut data_len = header.data_len;
    let mut flags = header.flags;
    let mut kind = header.kind;
    match draws.below(6) {
        0 | 1 => channel = u16::from(draws.below(4)),
        2 => kind = draws.below(2).wrapping_mul(0x68),
        3 => kind = draws.below(4),
        4 => flags ^= 1 << draws.below(8),
        _ => data_len = data_len.saturating_sub(1),
    }
    let changed = Header::new(
        channel,
        header.packet_len,
        data_len,
        draws.below(255),
        draws.below(255),
        flags,
        kind,
        u64::from(draws.below(255)),
    );
    if let Some(header) = changed {
        bytes.copy_from_slice(&header.encode());
    }
    Ok(())
}

/// Changes the number of frames offered or kept in some ends by one.
fn change_counts(draws: &mut Draws, packets: &mut Vec<Vec<u8>>) {
    for packet in packets.iter_mut() {
        let at = if draws.below(2) == 0 { 36 } else { 44 };
        let further = if draws.below(2) == 0 { 1 } else { 0xff };
        let is_end = packet.len() == END_LEN && draws.below(2) == 0;
        if let Some(byte) = packet.get_mut(at)
            && is_end
        {
            *byte = byte.wrapping_add(further);
        }
    }
}

/// Sets a byte of a packet's body, as often as any other one of a record's kind, channel, version,
/// first frame or counts, or of a frame's word.
fn change_body(draws: &mut Draws, packet: &mut Vec<u8>) {
    let fields = [32, 34, 36, 39, 40, 44, 52, 56];
    let at = match draws.below(2) {
        0 => fields[usize::from(draws.below(8))],
        _ => HEADER_LEN.saturating_add(usize::from(draws.below(90))),
    };
    if let Some(byte) = packet.get_mut(at) {
        *byte = match draws.below(5) {
            0 => draws.below(4),
            1 => draws.below(255),
            2 => byte.wrapping_add(1),
            3 => byte.wrapping_sub(1),
            _ => 0xff,
        };
    }
}
