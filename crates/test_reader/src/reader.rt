//! Recordings that are read, whole, cut and damaged.
use crate::shared::{extract, packets_of};
use ch11_packet::{ETHERNET_DATA, HEADER_LEN, Header, ReadFrame, What};
use eth_frame::{FeedSource, FeedWriteFault, FrameBuf, FrameSource, Next, write_feed};
use rec_reader::*;
use std::alloc::Global;
use std::fmt::Write as _;
use std::io;
use std::io::{ErrorKind, Write};
use std::test::Fail;
use test_samples::{
    ACCEPTING, CHECKED, END, FRAMES, REJECTING, all_bytes, assert_same, joined_bytes,
};

/// The recording of a channel that kept the second of two frames.
const TWO_VERSIONS: [&str; 4] = [REJECTING, ACCEPTING, FRAMES, END];

/// Where its packets begin, and what they hold.
const HELD: [(u64, What); 4] = [
    (
        0,
        What::Program {
            channel: 1,
            version: 0,
            first: 0,
            count: 1,
        },
    ),
    (
        60,
        What::Program {
            channel: 1,
            version: 1,
            first: 1,
            count: 1,
        },
    ),
    (120, What::Frames(1)),
    (
        180,
        What::End {
            channel: 1,
            offered: 2,
            kept: 1,
        },
    ),
];

/// How bytes are read: each packet's place and what it holds, and the fault with its place.
pub(crate) fn reading(
    alloc: Global,
    bytes: &[u8],
) -> Result<(Vec<(u64, What)>, Option<(ReadFaultKind, u64)>), Fail> {
    let (recording, fault) = match read_recording(alloc, bytes) {
        Ok(recording) => (recording, None),
        Err(fault) => {
            let ReadEnd { kind, at } = fault.end();
            (fault.into_before(), Some((kind, at)))
        }
    };
    let mut held = Vec::new(alloc);
    for packet in recording.packets() {
        held.push((packet.at, packet.what))?;
    }
    Ok((held, fault))
}

/// A packet with this header's channel, flags and data type, and these data.
fn packet(alloc: Global, head: (u16, u8, u8), text: &str) -> Result<Vec<u8>, Fail> {
    let (channel, flags, kind) = head;
    let data = all_bytes(alloc, text)?;
    let filler = (4 - data.len() % 4) % 4;
    let len = u32::try_from(HEADER_LEN + data.len() + filler)?;
    let data_len = u32::try_from(data.len())?;
    let header = Header::new(channel, len, data_len, 8, 0, flags, kind, 16).ok_or("a header")?;
    let mut packet = header.encode().to_vec(alloc)?;
    packet.extend_from_slice(data.as_slice())?;
    for _ in 0..filler {
        packet.push(0)?;
    }
    Ok(packet)
}

#[test]
fn a_recording_reads_as_its_packets(rt: HostRuntime) -> Result<(), Fail> {
    let bytes = joined_bytes(rt.alloc(), &TWO_VERSIONS)?;
    let (packets, fault) = reading(rt.alloc(), bytes.as_slice())?;
    assert_eq!(rt; packets.as_slice(), HELD.as_slice());
    assert_same!(rt; fault, None);
    let (packets, fault) = reading(rt.alloc(), &[])?;
    assert_same!(rt; (packets.len(), fault), (0, None));
    Ok(())
}

#[test]
fn a_cut_recording_reads_as_its_first_packets(rt: HostRuntime) -> Result<(), Fail> {
    let bytes = joined_bytes(rt.alloc(), &TWO_VERSIONS)?;
    let ends = [0, 60, 120, 180, 232];
    for len in 0..=232 {
        let whole = ends.iter().filter(|end| 0 < **end && **end <= len).count();
        let Some(front) = bytes.get(..len) else {
            return Err("232 bytes".into());
        };
        let (packets, fault) = reading(rt.alloc(), front)?;
        assert_same!(rt; Some(packets.as_slice()), HELD.get(..whole), "{len} bytes");
        let want = match ends.get(whole) {
            Some(end) if *end < len => Some((ReadFaultKind::Truncated, *end as u64)),
            _ => None,
        };
        assert_same!(rt; fault, want, "{len} bytes");
    }
    Ok(())
}

#[test]
fn a_damaged_packet_ends_the_reading(rt: HostRuntime) -> Result<(), Fail> {
    // the byte that is set, its value, the fault, its place, and the number of packets before it
    for &(at, value, kind, place, before) in &[
        (0, 0x00, ReadFaultKind::Sync, 0, 0),
        (4, 0x3d, ReadFaultKind::Checksum, 0, 0),
        (121, 0x00, ReadFaultKind::Sync, 120, 2),
        (142, 0x00, ReadFaultKind::Checksum, 120, 2),
        (144, 0x02, ReadFaultKind::Body, 120, 2),
        (144, 0x00, ReadFaultKind::Body, 120, 2),
        (212, 0x03, ReadFaultKind::Body, 180, 3),
    ] {
        let mut bytes = joined_bytes(rt.alloc(), &TWO_VERSIONS)?;
        if let Some(byte) = bytes.get_mut(at) {
            *byte = value;
        }
        let (packets, fault) = reading(rt.alloc(), bytes.as_slice())?;
        assert_same!(rt; fault, Some((kind, place)), "byte {at}");
        assert_same!(rt; packets.len(), before, "byte {at}");
    }
    Ok(())
}

/// Bytes that aren't read, and their fault.
const FAULTS: [(&str, ReadFaultKind); 8] = [
    // fewer bytes than a header has, whatever they are
    ("00", ReadFaultKind::Truncated),
    (
        "00eb 0100 3c000000 22000000 08 00 00 68 100000000000 9c",
        ReadFaultKind::Truncated,
    ),
    // the sync pattern, then the checksum, then the lengths
    (
        "00eb 0100 3d000000 22000000 08 00 00 68 100000000000 9c53",
        ReadFaultKind::Sync,
    ),
    (
        "25eb 0100 3d000000 22000000 08 00 00 68 100000000000 9c53",
        ReadFaultKind::Checksum,
    ),
    (
        "25eb 0100 3d000000 22000000 08 00 00 68 100000000000 9d53",
        ReadFaultKind::Length,
    ),
    // a length that is only claimed
    (
        "25eb 0100 fcffffff 00000000 08 00 00 01 000000000000 29ec",
        ReadFaultKind::Truncated,
    ),
    // a body that is cut isn't looked at
    (
        "25eb 0100 20000000 04000000 08 00 00 68 100000000000 6253 01000000",
        ReadFaultKind::Truncated,
    ),
    (
        "25eb 0100 1c000000 04000000 08 00 00 68 100000000000 5e53 01000000",
        ReadFaultKind::Body,
    ),
];

#[test]
fn faults_are_looked_for_in_their_order(rt: HostRuntime) -> Result<(), Fail> {
    for &(text, kind) in &FAULTS {
        let bytes = all_bytes(rt.alloc(), text)?;
        let (packets, fault) = reading(rt.alloc(), bytes.as_slice())?;
        assert_same!(rt; (packets.len(), fault), (0, Some((kind, 0))), "{text}");
    }
    Ok(())
}

#[test]
fn other_packets_are_read_and_passed_over(rt: HostRuntime) -> Result<(), Fail> {
    let setup = "25eb 0000 1c000000 04000000 08 00 00 01 000000000000 4dec 00000000";
    let secondary = "25eb 0100 3c000000 22000000 08 00 80 68 100000000000 1c54 \
        01000000 100000000000 0000 12000003 ffffffffffff 020000000001 0806 a1b2c3d4 0000";
    let bytes = joined_bytes(rt.alloc(), &[setup, secondary, FRAMES, setup])?;
    let (packets, fault) = reading(rt.alloc(), bytes.as_slice())?;
    let held = [
        (0, What::Other),
        (28, What::Other),
        (88, What::Frames(1)),
        (148, What::Other),
    ];
    assert_same!(rt; packets.as_slice(), held.as_slice());
    assert_same!(rt; fault, None);
    // each flag and data type of its own, with a packet of frames after it
    for &head in &[
        (1, 0x80, 0x68),
        (1, 0x40, 0x68),
        (1, 0x01, 0x68),
        (1, 0x02, 0x68),
        (0, 0x80, 0x00),
        (1, 0x00, 0x00),
        (0, 0x00, 0x01),
        (0, 0x00, 0x02),
        (0, 0x00, 0x03),
        (1, 0x00, 0x11),
        (1, 0x00, 0x69),
        (1, 0x00, 0xff),
    ] {
        let mut bytes = packet(rt.alloc(), head, "ffffffffff")?;
        bytes.extend_from_slice(all_bytes(rt.alloc(), FRAMES)?.as_slice())?;
        let (packets, fault) = reading(rt.alloc(), bytes.as_slice())?;
        let held = [(0, What::Other), (32, What::Frames(1))];
        assert_same!(rt; packets.as_slice(), held.as_slice(), "{head:?}");
        assert_same!(rt; fault, None, "{head:?}");
    }
    Ok(())
}

/// The counters of a channel's frames.
fn counters(frames: &Vec<ReadFrame<'_>>, alloc: Global) -> Result<Vec<u64>, Fail> {
    let mut counters = Vec::new(alloc);
    for frame in frames {
        counters.push(frame.counter)?;
    }
    Ok(counters)
}

#[test]
fn a_channel_has_the_frames_of_its_packets_in_order(rt: HostRuntime) -> Result<(), Fail> {
    let alloc = rt.alloc();
    let mut bytes = Vec::new(alloc);
    for &(channel, body) in &[
        (
            1,
            "02000000 070000000000 0000 02000000 aaaa 050000000000 0000 00000000",
        ),
        (2, "01000000 060000000000 0000 03000010 bbbbbb 00"),
        (0, "01000000 090000000000 0000 00000000"),
        (1, "00000000"),
        (1, "01000000 010000000000 ffff 02c000c0 cccc"),
    ] {
        bytes.extend_from_slice(packet(alloc, (channel, 0, ETHERNET_DATA), body)?.as_slice())?;
    }
    bytes.extend_from_slice(packet(alloc, (1, 0x80, ETHERNET_DATA), "00000000")?.as_slice())?;
    let Ok(recording) = read_recording(alloc, bytes.as_slice()) else {
        return Err("a recording".into());
    };
    for &(channel, want) in &[
        (1, [7, 5, 1].as_slice()),
        (2, &[6]),
        (0, &[9]),
        (3, &[]),
        (65_535, &[]),
    ] {
        let frames = frames_of(alloc, &recording, channel)?;
        assert_same!(rt;
            counters(&frames, alloc)?.as_slice(),
            want,
            "channel {channel}"
        );
    }
    Ok(())
}

#[test]
fn a_frame_that_is_read_has_its_marks_and_its_bytes(rt: HostRuntime) -> Result<(), Fail> {
    let alloc = rt.alloc();
    let body = "01000000 010000000000 ffff 02c000c0 cccc";
    let bytes = packet(alloc, (1, 0, ETHERNET_DATA), body)?;
    let Ok(recording) = read_recording(alloc, bytes.as_slice()) else {
        return Err("a recording".into());
    };
    let frames = frames_of(alloc, &recording, 1)?;
    let Some(last) = frames.last() else {
        return Err("a frame".into());
    };
    assert_same!(rt; (last.crc_error, last.frame_error), (true, true));
    assert_same!(rt; last.bytes, [0xcc, 0xcc].as_slice());
    Ok(())
}

#[test]
fn an_extracted_feed_reads_as_the_frames_that_were_kept(rt: HostRuntime) -> Result<(), Fail> {
    let alloc = rt.alloc();
    let bytes = joined_bytes(alloc, &TWO_VERSIONS)?;
    let Ok(recording) = read_recording(alloc, bytes.as_slice()) else {
        return Err("a recording".into());
    };
    let mut feed = Vec::new(alloc);
    for read in &frames_of(alloc, &recording, 1)? {
        let frame = read.frame().ok_or("a frame with its check sequence")?;
        write_feed(&frame, &mut feed)?;
    }
    let want = "200000000000 00 1200 ffffffffffff 020000000001 0806 a1b2c3d4";
    assert_same!(rt; feed.as_slice(), all_bytes(alloc, want)?.as_slice());
    let mut source = FeedSource::new(feed.as_slice());
    let mut buffer = FrameBuf::new();
    assert_same!(rt; source.next(&mut buffer), Ok(Next::Frame));
    let Some(frame) = buffer.frame() else {
        return Err("the frame".into());
    };
    assert_same!(rt;
        (frame.counter, frame.crc_error, frame.frame_error),
        (32, false, false)
    );
    assert_same!(rt; source.next(&mut buffer), Ok(Next::End));
    Ok(())
}

/// An output that takes this number of bytes, and then fails.
#[derive(Drop)]
struct Narrow {
    room: usize,
}

impl Write for Narrow {
    fn write(&mut self, buf: &[u8]) -> io::Result<usize> {
        if self.room == 0 {
            return Err(io::Error::from(ErrorKind::StorageFull));
        }
        let taken = buf.len().min(self.room);
        self.room = self.room.saturating_sub(taken);
        Ok(taken)
    }

    fn flush(&mut self) -> io::Result<()> {
        Ok(())
    }
}

/// The recording of two versions, and after it frames of content 1, of 17 bytes, and with a wrong
/// check sequence, each in a packet of its own.
fn with_other_frames(alloc: Global) -> Result<Vec<u8>, Fail> {
    let mut bytes = joined_bytes(alloc, &TWO_VERSIONS)?;
    for &frame in &[
        "12000010 ffffffffffff 020000000001 0806 a1b2c3d4",
        "11000000 ffffffffffff 020000000001 0806 a1b2c3 00",
        "12000080 ffffffffffff 020000000001 0806 a1b2c3d4",
    ] {
        let body = format!(in alloc; "01000000 300000000000 0000 {frame}")?;
        let packet = packet(alloc, (1, 0, ETHERNET_DATA), body.as_str())?;
        bytes.extend_from_slice(packet.as_slice())?;
    }
    Ok(bytes)
}

#[test]
fn a_channel_is_extracted_packet_by_packet(rt: HostRuntime) -> Result<(), Fail> {
    let alloc = rt.alloc();
    let bytes = with_other_frames(alloc)?;
    let recording = packets_of(alloc, bytes.as_slice());
    let mut feed = Vec::new(alloc);
    for &(channel, frames, passed) in &[(1, 2, 2), (2, 0, 0)] {
        let extracted = extract(&recording, channel, &mut feed);
        assert_same!(rt;
            extracted,
            Ok(Extracted { frames, passed }),
            "channel {channel}"
        );
    }
    let want = "200000000000 00 1200 ffffffffffff 020000000001 0806 a1b2c3d4 \
        300000000000 01 1200 ffffffffffff 020000000001 0806 a1b2c3d4";
    assert_same!(rt; feed.as_slice(), all_bytes(alloc, want)?.as_slice());
    Ok(())
}

#[test]
fn an_extraction_ends_at_a_failed_output(rt: HostRuntime) -> Result<(), Fail> {
    let alloc = rt.alloc();
    let bytes = with_other_frames(alloc)?;
    let recording = packets_of(alloc, bytes.as_slice());
    for room in [0, 8, 9, 26, 27, 53] {
        let extracted = extract(&recording, 1, &mut Narrow { room });
        assert_same!(rt; extracted, Err(FeedWriteFault::Device), "{room} bytes");
    }
    Ok(())
}

#[test]
fn a_recording_of_many_packets_is_read(rt: HostRuntime) -> Result<(), Fail> {
    let alloc = rt.alloc();
    let mut bytes = Vec::new(alloc);
    let end = all_bytes(alloc, END)?;
    for _ in 0..20_000 {
        bytes.extend_from_slice(end.as_slice())?;
    }
    // the greatest packet of frames: 17,475 of 18 bytes
    let header = Header::new(7, 524_280, 524_254, 8, 0, 0, ETHERNET_DATA, 0).ok_or("a header")?;
    bytes.extend_from_slice(&header.encode())?;
    let frame = "000000000000 0000 12000000 ffffffffffff 020000000001 0806 a1b2c3d4";
    let frame = all_bytes(alloc, frame)?;
    bytes.extend_from_slice(&all_bytes(alloc, "43440000")?)?;
    for _ in 0..17_475 {
        bytes.extend_from_slice(frame.as_slice())?;
    }
    bytes.extend_from_slice(&[0xff; 2])?;
    let Ok(recording) = read_recording(alloc, bytes.as_slice()) else {
        return Err("a recording".into());
    };
    assert_same!(rt; recording.packets().len(), 20_001);
    let last = recording
        .packets()
        .last()
        .map(|packet| (packet.at, packet.what));
    assert_same!(rt; last, Some((1_040_000, What::Frames(17_475))));
    assert_same!(rt; frames_of(alloc, &recording, 7)?.len(), 17_475);
    Ok(())
}

/// The recording of two versions; read again if there was no memory for one of its packets, which begin
/// at multiples of this length.
fn read_again(alloc: Global, bytes: &[u8], len: u64) -> Result<Recording<'_>, Fail> {
    match read_recording(alloc, bytes) {
        Ok(recording) => Ok(recording),
        Err(fault) => {
            let ReadEnd { kind, at } = fault.end();
            let before = fault.into_before().packets().len() as u64;
            if kind != ReadFaultKind::Memory || at != before.saturating_mul(len) {
                return Err("no memory for the packet after these".into());
            }
            Ok(packets_of(alloc, bytes))
        }
    }
}

/// `dev/trials/long/refused_growth.py` refuses each growth of this test in turn: a call that lacked memory is
/// answered as ever when it is made again.
#[test]
fn a_call_without_memory_is_made_again(rt: HostRuntime) -> Result<(), Fail> {
    let alloc = rt.alloc();
    let bytes = joined_bytes(alloc, &CHECKED)?;
    let recording = read_again(alloc, bytes.as_slice(), 64)?;
    assert_same!(rt; recording.packets().len(), 4);
    let bytes = joined_bytes(alloc, &TWO_VERSIONS)?;
    let recording = read_again(alloc, bytes.as_slice(), 60)?;
    assert_same!(rt; recording.packets().len(), 4);
    let frames = match frames_of(alloc, &recording, 1) {
        Ok(frames) => Some(frames.len()),
        Err(_) => frames_of(alloc, &recording, 1)
            .map(|frames| frames.len())
            .ok(),
    };
    assert_same!(rt; frames, Some(1));
    let index = match Index::of(alloc, &recording) {
        Err(_) => Index::of(alloc, &recording),
        index => index,
    };
    assert_same!(rt; index.map(|index| index.packets_of(1).len()).ok(), Some(1));
    let audited = match audit(alloc, &recording) {
        Err(_) => audit(alloc, &recording),
        audited => audited,
    };
    assert_same!(rt; audited.map(|audited| audited.other).ok(), Some(0));
    Ok(())
}

#[test]
fn a_fault_of_reading_has_its_number_its_name_and_its_place(rt: HostRuntime) -> Result<(), Fail> {
    for &(kind, text) in &[
        (ReadFaultKind::Truncated, "read 1 Truncated 180"),
        (ReadFaultKind::Sync, "read 2 Sync 180"),
        (ReadFaultKind::Checksum, "read 3 Checksum 180"),
        (ReadFaultKind::Length, "read 4 Length 180"),
        (ReadFaultKind::Body, "read 5 Body 180"),
        (ReadFaultKind::DataChecksum, "read 8 DataChecksum 180"),
        (ReadFaultKind::Memory, "memory"),
    ] {
        let mut printed = String::new(rt.alloc());
        write!(printed, "{}", ReadEnd { kind, at: 180 })?;
        assert_same!(rt; printed.as_str(), text);
    }
    let bytes = joined_bytes(rt.alloc(), &TWO_VERSIONS)?;
    let Err(fault) = read_recording(rt.alloc(), bytes.as_slice().get(..210).unwrap_or(&[])) else {
        return Err("a fault".into());
    };
    let printed = format!(in rt.alloc(); "{fault}")?;
    assert_same!(rt; printed.as_str(), "read 1 Truncated 180");
    Ok(())
}
