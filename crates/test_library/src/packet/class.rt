//! What packets hold.
use super::*;
use test_samples::assert_same;

/// A program's record: one instruction, version 0 of channel 1 from frame 0 on.
const PROGRAM: &str = "00000000 43425052 0100 0100 00000000 0000000000000000 0100 0000 \
    0600000000000000";

/// The end of channel 1 after two frames, of which one was kept.
const END: &str = "00000000 43425052 0200 0100 0200000000000000 0100000000000000";

/// Frames with a byte more than the last one's filler.
const LEFT_OVER: &str = "01000000 100000000000 0000 12000003 ffffffffffff 020000000001 0806 \
    a1b2c3d4 0000";

/// The channel, the flags and the data type of a packet.
type Head = (u16, u8, u8);

/// What a packet of this channel, with these flags and of this data type, holds if its data are
/// these. Its filler is 0xff, and there are four bytes more of it than needed.
fn class_of(alloc: Global, head: Head, text: &str) -> Result<Result<What, ClassFault>, Fail> {
    let data = all_bytes(alloc, text)?;
    let body = filled(data.as_slice(), alloc)?;
    classified(head, data.len(), body.as_slice())
}

/// The same of a packet with four bytes more: the sum of its data and filler, with this added to it.
fn class_with_sum(
    alloc: Global,
    head: Head,
    text: &str,
    added: u32,
) -> Result<Result<What, ClassFault>, Fail> {
    let data = all_bytes(alloc, text)?;
    let mut body = filled(data.as_slice(), alloc)?;
    let sum = body_sum(body.as_slice()).wrapping_add(added);
    body.extend_from_slice(&sum.to_le_bytes())?;
    classified(head, data.len(), body.as_slice())
}

/// These data and their filler.
fn filled(data: &[u8], alloc: Global) -> Result<Vec<u8>, Fail> {
    let mut body = data.to_vec(alloc)?;
    for _ in 0..(4 - data.len() % 4) % 4 + 4 {
        body.push(0xff)?;
    }
    Ok(body)
}

/// What a packet holds that has these bytes after its header, of which so many are data.
fn classified(
    (channel, flags, kind): Head,
    data_len: usize,
    body: &[u8],
) -> Result<Result<What, ClassFault>, Fail> {
    let len = u32::try_from(HEADER_LEN + body.len())?;
    let header = Header::new(
        channel,
        len,
        u32::try_from(data_len)?,
        8,
        0,
        flags,
        kind,
        16,
    );
    let header = header.ok_or("a header")?;
    if header.packet_len as usize != HEADER_LEN + body.len() {
        return Err("a packet of this length".into());
    }
    Ok(classify(&header, body))
}

/// What is added to a sum: nothing, or what changes one byte of it.
const ADDED: [u32; 5] = [0, 1, 0x100, 0x1_0000, 0x100_0000];

/// The record of a program is this.
const THE_PROGRAM: What = What::Program {
    channel: 1,
    version: 0,
    first: 0,
    count: 1,
};

/// The record of an end is this.
const THE_END: What = What::End {
    channel: 1,
    offered: 2,
    kept: 1,
};

/// Packets of frames and of records, and what they hold.
const HELD: [(Head, &str, What); 8] = [
    ((1, 0x00, 0x68), BODY, What::Frames(1)),
    ((0, 0x00, 0x68), BODY, What::Frames(1)),
    ((1, 0x3c, 0x68), BODY, What::Frames(1)),
    ((1, 0x00, 0x68), ODD_BODY, What::Frames(1)),
    ((1, 0x00, 0x68), "00000000", What::Frames(0)),
    ((0, 0x00, 0x00), PROGRAM, THE_PROGRAM),
    ((0, 0x3c, 0x00), PROGRAM, THE_PROGRAM),
    ((0, 0x00, 0x00), END, THE_END),
];

#[test]
fn frames_and_records_are_told(rt: HostRuntime) -> Result<(), Fail> {
    for &(head, text, what) in &HELD {
        let found = class_of(rt.alloc(), head, text)?;
        assert_same!(rt; found, Ok(what), "{head:?}, {text}");
    }
    Ok(())
}

#[test]
fn the_sum_of_frames_and_records_is_judged(rt: HostRuntime) -> Result<(), Fail> {
    for &((channel, flags, kind), text, what) in &HELD {
        for &added in &ADDED {
            let head = (channel, flags | 0x03, kind);
            let found = class_with_sum(rt.alloc(), head, text, added)?;
            let want = match added {
                0 => Ok(what),
                _ => Err(ClassFault::DataChecksum),
            };
            assert_same!(rt; found, want, "{head:?}, {text}, {added}");
        }
    }
    Ok(())
}

/// Packets that are neither frames nor records, with a data checksum and without.
const OTHERS: [(Head, &str); 17] = [
    // a secondary header, and its times
    ((1, 0x80, 0x68), BODY),
    ((1, 0x40, 0x68), BODY),
    ((0, 0x80, 0x00), END),
    // the same with data that would be faults
    ((1, 0x80, 0x68), "0000"),
    ((1, 0x40, 0x68), "ffff0000"),
    ((0, 0x40, 0x00), "00000000 43425052"),
    // Ethernet data of another format
    ((1, 0x00, 0x68), "00000010"),
    ((1, 0x00, 0x68), "010000f0"),
    // records on another channel, and data without their tag
    ((1, 0x00, 0x00), END),
    ((0, 0x00, 0x00), "00000000 43425053"),
    ((0, 0x00, 0x00), ""),
    // other data types: setup, recording events, recording index, time, Ethernet format 1
    ((0, 0x00, 0x01), "00000000"),
    ((0, 0x00, 0x02), ""),
    ((0, 0x00, 0x03), ""),
    ((1, 0x00, 0x11), "00000000"),
    ((1, 0x00, 0x69), BODY),
    ((1, 0x00, 0xff), BODY),
];

#[test]
fn other_packets_are_passed_over(rt: HostRuntime) -> Result<(), Fail> {
    for &((channel, flags, kind), text) in &OTHERS {
        let what = class_of(rt.alloc(), (channel, flags, kind), text)?;
        assert_same!(rt; what, Ok(What::Other), "{channel}, {flags}, {kind}, {text}");
        for &added in &ADDED {
            let head = (channel, flags | 0x03, kind);
            let what = class_with_sum(rt.alloc(), head, text, added)?;
            assert_same!(rt; what, Ok(What::Other), "{head:?}, {text}, {added}");
        }
    }
    Ok(())
}

/// One of the two flags alone reports a checksum of 8 or of 16 bits.
#[test]
fn other_checksums_are_passed_over(rt: HostRuntime) -> Result<(), Fail> {
    for &(channel, kind, text) in &[
        (1, 0x68, BODY),
        (0, 0x00, END),
        // data that would be faults
        (1, 0x68, "0000"),
        (0, 0x00, "00000000 43425052"),
    ] {
        for flags in [0x01, 0x02, 0x3d, 0x3e] {
            let head = (channel, flags, kind);
            let what = class_of(rt.alloc(), head, text)?;
            assert_same!(rt; what, Ok(What::Other), "{head:?}, {text}");
            for &added in &ADDED {
                let what = class_with_sum(rt.alloc(), head, text, added)?;
                assert_same!(rt; what, Ok(What::Other), "{head:?}, {text}, {added}");
            }
        }
    }
    Ok(())
}

/// Packets whose body has a fault.
const BAD_BODIES: [(Head, &str); 10] = [
    ((1, 0x00, 0x68), ""),
    ((1, 0x00, 0x68), "000000"),
    ((1, 0x00, 0x68), "01000000"),
    ((1, 0x00, 0x68), "ffff0000"),
    ((1, 0x00, 0x68), LEFT_OVER),
    ((0, 0x00, 0x00), "00000000 43425052"),
    ((0, 0x00, 0x00), "00000000 43425052 0300 0100"),
    ((0, 0x00, 0x00), "00000000 43425052 0200 0000"),
    ((0, 0x00, 0x00), "00000000 43425052 0200 0100"),
    (
        (0, 0x3c, 0x00),
        "00000000 43425052 0100 0100 00000000 0000000000000000 ffff 0000",
    ),
];

#[test]
fn a_bad_body_is_a_fault(rt: HostRuntime) -> Result<(), Fail> {
    for &(head, text) in &BAD_BODIES {
        let found = class_of(rt.alloc(), head, text)?;
        assert_same!(rt; found, Err(ClassFault::Body), "{head:?}, {text}");
    }
    Ok(())
}

#[test]
fn the_sum_is_judged_before_the_body(rt: HostRuntime) -> Result<(), Fail> {
    for &((channel, flags, kind), text) in &BAD_BODIES {
        for &added in &ADDED {
            let head = (channel, flags | 0x03, kind);
            let found = class_with_sum(rt.alloc(), head, text, added)?;
            let want = match added {
                0 => ClassFault::Body,
                _ => ClassFault::DataChecksum,
            };
            assert_same!(rt; found, Err(want), "{head:?}, {text}, {added}");
        }
    }
    Ok(())
}

/// The packets of a recording with data checksums, whose sums are written out.
#[test]
fn packets_with_their_sums_are_told(rt: HostRuntime) -> Result<(), Fail> {
    for &(head, text, data_len, what) in &[
        (
            (0, 0x03, 0x00),
            "00000000 43425052 0100 0100 00000000 0000000000000000 0100 0000 0600000000000000 \
                4b425152",
            36,
            THE_PROGRAM,
        ),
        (
            (1, 0x03, 0x68),
            "01000000 100000000000 0000 12000003 ffffffffffff 020000000001 0806 a1b2c3d4 0000 \
                ecdaa4b6",
            34,
            What::Frames(1),
        ),
        (
            (0, 0x03, 0x00),
            "00000000 43425052 0200 0100 0200000000000000 0100000000000000 48425152",
            28,
            THE_END,
        ),
    ] {
        let body = all_bytes(rt.alloc(), text)?;
        let found = classified(head, data_len, body.as_slice())?;
        assert_same!(rt; found, Ok(what), "{text}");
    }
    Ok(())
}
