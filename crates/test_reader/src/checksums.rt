//! Recordings whose packets have data checksums, whole, cut and damaged.
use crate::audit::told;
use crate::reader::reading;
use crate::shared::{extract, packets_of};
use crate::stream::compare;
use ch11_packet::{HEADER_LEN, Header, What, body_sum};
use rec_reader::*;
use std::alloc::Global;
use std::test::Fail;
use test_samples::{
    ACCEPTING, CHECKED, END, FRAMES, REJECTING, all_bytes, assert_same, joined_bytes,
};

/// The same packets without data checksums.
const PLAIN: [&str; 4] = [REJECTING, ACCEPTING, FRAMES, END];

/// Where its packets begin and end.
const ENDS: [usize; 5] = [0, 64, 128, 192, 248];

/// What they hold: the record of the second program, the frame that it kept, and the channel's end
/// after the record of the first program.
const PROGRAM: What = What::Program {
    channel: 1,
    version: 1,
    first: 1,
    count: 1,
};

const FRAME: What = What::Frames(1);

const LAST: What = What::End {
    channel: 1,
    offered: 2,
    kept: 1,
};

const HELD: [What; 4] = [
    What::Program {
        channel: 1,
        version: 0,
        first: 0,
        count: 1,
    },
    PROGRAM,
    FRAME,
    LAST,
];

/// The sizes of pieces in which recordings come.
const PIECES: [usize; 4] = [1, 7, 24, 4_096];

/// The recording with these bytes set.
fn changed(alloc: Global, places: &[(usize, u8)]) -> Result<Vec<u8>, Fail> {
    let mut bytes = joined_bytes(alloc, &CHECKED)?;
    for (at, value) in places {
        if let Some(byte) = bytes.get_mut(*at) {
            *byte = *value;
        }
    }
    Ok(bytes)
}

/// The recording with data checksums in the packets that the bits of a number choose, and what its
/// packets hold, with their places.
fn mixed(alloc: Global, chosen: usize) -> Result<(Vec<u8>, Vec<(u64, What)>), Fail> {
    let mut bits = chosen;
    let mut bytes = Vec::new(alloc);
    let mut held = Vec::new(alloc);
    for ((checked, plain), what) in CHECKED.iter().zip(PLAIN.iter()).zip(HELD.iter()) {
        let text = if bits % 2 == 1 { checked } else { plain };
        held.push((bytes.len() as u64, *what))?;
        bytes.extend_from_slice(all_bytes(alloc, text)?.as_slice())?;
        bits /= 2;
    }
    Ok((bytes, held))
}

#[test]
fn packets_are_read_with_checksums_and_without(rt: HostRuntime) -> Result<(), Fail> {
    let alloc = rt.alloc();
    for chosen in 0..16 {
        let (bytes, held) = mixed(alloc, chosen)?;
        let (packets, fault) = reading(alloc, bytes.as_slice())?;
        assert_same!(rt; packets.as_slice(), held.as_slice(), "{chosen}");
        assert_same!(rt; fault, None, "{chosen}");
        for &most in &PIECES {
            let found = compare(&rt, alloc, bytes.as_slice(), most)?;
            assert_same!(rt; found, (4, None), "{chosen}, pieces of {most}");
        }
    }
    Ok(())
}

#[test]
fn recordings_with_checksums_are_approved_and_extracted(rt: HostRuntime) -> Result<(), Fail> {
    let alloc = rt.alloc();
    let approved = "channel 1 programs 2 frames 1 offered 2 yes other 0";
    let want = "200000000000 00 1200 ffffffffffff 020000000001 0806 a1b2c3d4";
    let kept = Extracted {
        frames: 1,
        passed: 0,
    };
    for chosen in 0..16 {
        let (bytes, _) = mixed(alloc, chosen)?;
        let recording = packets_of(alloc, bytes.as_slice());
        let answer = told(alloc, audit(alloc, &recording))?;
        assert_same!(rt; answer.as_str(), approved, "{chosen}");
        let mut feed = Vec::new(alloc);
        let extracted = extract(&recording, 1, &mut feed);
        assert_same!(rt; extracted, Ok(kept), "{chosen}");
        assert_same!(rt; feed.as_slice(), all_bytes(alloc, want)?.as_slice());
    }
    Ok(())
}

#[test]
fn a_cut_recording_with_checksums_reads_as_its_first_packets(rt: HostRuntime) -> Result<(), Fail> {
    let alloc = rt.alloc();
    let bytes = joined_bytes(alloc, &CHECKED)?;
    for len in 0..=248 {
        let whole = ENDS.iter().filter(|end| 0 < **end && **end <= len).count();
        let front = bytes.get(..len).unwrap_or(&[]);
        let at = ENDS.get(whole).copied().unwrap_or(0);
        let cut = ReadEnd {
            kind: ReadFaultKind::Truncated,
            at: at as u64,
        };
        let want = (whole, (at < len).then_some(cut));
        for &most in &PIECES {
            let found = compare(&rt, alloc, front, most)?;
            assert_same!(rt; found, want, "{len} bytes in pieces of {most}");
        }
    }
    Ok(())
}

/// Why the recording isn't read to its end with another value in this byte. Data without the tag of
/// a record, or of another format than 0, are another packet's, whose sum isn't judged.
fn fault_of(at: usize) -> Option<ReadEnd> {
    let before = ENDS.iter().filter(|end| **end <= at).count();
    let start = ENDS.get(before.saturating_sub(1)).copied().unwrap_or(0);
    let kind = match (start, at.saturating_sub(start)) {
        (_, 0 | 1) => ReadFaultKind::Sync,
        (_, 2..=23) => ReadFaultKind::Checksum,
        (128, 27) | (0 | 64 | 192, 28..=31) => return None,
        _ => ReadFaultKind::DataChecksum,
    };
    Some(ReadEnd {
        kind,
        at: start as u64,
    })
}

#[test]
fn each_changed_byte_of_a_recording_with_checksums_is_found(rt: HostRuntime) -> Result<(), Fail> {
    let alloc = rt.alloc();
    let whole = joined_bytes(alloc, &CHECKED)?;
    for at in 0..248 {
        for value in [0x00, 0xff] {
            let bytes = changed(alloc, &[(at, value)])?;
            let same = bytes.as_slice() == whole.as_slice();
            let want = if same { None } else { fault_of(at) };
            for &most in &PIECES {
                let (_, end) = compare(&rt, alloc, bytes.as_slice(), most)?;
                assert_same!(rt; end, want, "byte {at} is {value}");
            }
        }
    }
    Ok(())
}

#[test]
fn a_changed_program_with_its_sum_is_not_accepted(rt: HostRuntime) -> Result<(), Fail> {
    let alloc = rt.alloc();
    let bytes = changed(alloc, &[(120, 0x00)])?;
    let Err(fault) = read_recording(alloc, bytes.as_slice()) else {
        return Err("a wrong sum".into());
    };
    let printed = format!(in alloc; "{fault}")?;
    assert_same!(rt; printed.as_str(), "read 8 DataChecksum 64");
    let bytes = changed(alloc, &[(120, 0x00), (124, 0x4d)])?;
    let (_, fault) = reading(alloc, bytes.as_slice())?;
    assert_same!(rt; fault, None);
    let answer = told(alloc, audit(alloc, &packets_of(alloc, bytes.as_slice())))?;
    assert_same!(rt; answer.as_str(), "no 3 NotAccepted 2 0");
    Ok(())
}

#[test]
fn a_cut_packet_is_not_summed(rt: HostRuntime) -> Result<(), Fail> {
    let alloc = rt.alloc();
    let bytes = changed(alloc, &[(120, 0x00)])?;
    for len in 65..=128 {
        let front = bytes.get(..len).unwrap_or(&[]);
        let kind = if len < 128 {
            ReadFaultKind::Truncated
        } else {
            ReadFaultKind::DataChecksum
        };
        for &most in &PIECES {
            let found = compare(&rt, alloc, front, most)?;
            assert_same!(rt; found, (1, Some(ReadEnd { kind, at: 64 })), "{len} bytes");
        }
    }
    Ok(())
}

/// A packet with this header's channel, flags and data type, and these data; its filler is 0xff, and
/// its last four bytes are the sum before them, with this added to it.
fn packet(
    alloc: Global,
    (channel, flags, kind): (u16, u8, u8),
    text: &str,
    added: u32,
) -> Result<Vec<u8>, Fail> {
    let data = all_bytes(alloc, text)?;
    let mut body = data.clone()?;
    for _ in 0..(4 - data.len() % 4) % 4 {
        body.push(0xff)?;
    }
    let sum = body_sum(body.as_slice()).wrapping_add(added);
    body.extend_from_slice(&sum.to_le_bytes())?;
    let len = u32::try_from(HEADER_LEN + body.len())?;
    let data_len = u32::try_from(data.len())?;
    let header = Header::new(channel, len, data_len, 8, 0, flags, kind, 16).ok_or("a header")?;
    let mut packet = header.encode().to_vec(alloc)?;
    packet.extend_from_slice(body.as_slice())?;
    Ok(packet)
}

/// Packets of each kind, and what they hold: nothing where their body has a fault.
const KINDS: [((u16, u8, u8), &str, Option<What>); 11] = [
    // frames, a program and an end
    (
        (1, 0x03, 0x68),
        "01000000 200000000000 0000 12000003 ffffffffffff 020000000001 0806 a1b2c3d4",
        Some(FRAME),
    ),
    (
        (0, 0x3f, 0x00),
        "00000000 43425052 0100 0100 01000000 0100000000000000 0100 0000 0600000001000000",
        Some(PROGRAM),
    ),
    (
        (0, 0x03, 0x00),
        "00000000 43425052 0200 0100 0200000000000000 0100000000000000",
        Some(LAST),
    ),
    // frames that aren't whole, bytes left over, and a tag without a record
    ((1, 0x03, 0x68), "01000000 2000", None),
    ((1, 0x03, 0x68), "00000000 00", None),
    ((0, 0x03, 0x00), "00000000 43425052 0200 0000", None),
    // another format, data type or tag; a secondary header; a checksum of 8 and of 16 bits
    ((1, 0x03, 0x68), "01000010", Some(What::Other)),
    ((0, 0x03, 0x01), "01000000 2000", Some(What::Other)),
    ((0, 0x03, 0x00), "00000000 43425053", Some(What::Other)),
    ((1, 0x83, 0x68), "01000000 2000", Some(What::Other)),
    ((1, 0x01, 0x68), "01000000 2000", Some(What::Other)),
];

/// The fault of a packet that holds this, or whose body has a fault, and to whose sum this is added.
fn kind_of(what: Option<What>, added: u32) -> Option<ReadFaultKind> {
    match what {
        Some(What::Other) => None,
        _ if added != 0 => Some(ReadFaultKind::DataChecksum),
        None => Some(ReadFaultKind::Body),
        Some(_) => None,
    }
}

#[test]
fn the_sum_of_each_kind_of_packet_is_judged(rt: HostRuntime) -> Result<(), Fail> {
    let alloc = rt.alloc();
    let end = all_bytes(alloc, CHECKED[3])?;
    for &(head, text, what) in &KINDS {
        for added in [0, 1, 0x8000_0000] {
            let mut bytes = packet(alloc, head, text, added)?;
            let behind = bytes.len() as u64;
            bytes.extend_from_slice(end.as_slice())?;
            let (packets, fault) = reading(alloc, bytes.as_slice())?;
            match kind_of(what, added) {
                Some(kind) => assert_same!(rt; fault, Some((kind, 0)), "{head:?}, {text}, {added}"),
                None => {
                    let held = [(0, what.unwrap_or(What::Other)), (behind, LAST)];
                    assert_same!(rt; packets.as_slice(), held.as_slice(), "{head:?}, {text}");
                    assert_same!(rt; fault, None, "{head:?}, {text}, {added}");
                }
            }
            for &most in &PIECES {
                compare(&rt, alloc, bytes.as_slice(), most)?;
            }
        }
    }
    Ok(())
}

/// Bytes that aren't read, and their fault: each has all faults that are looked for later.
const FAULTS: [(&str, ReadFaultKind); 6] = [
    (
        "00eb 0100 1d000000 05000000 08 00 03 68 100000000000 6253",
        ReadFaultKind::Sync,
    ),
    (
        "25eb 0100 1d000000 05000000 08 00 03 68 100000000000 6253",
        ReadFaultKind::Checksum,
    ),
    // data that reach into the four bytes of the sum
    (
        "25eb 0100 20000000 05000000 08 00 03 68 100000000000 6653 01000000",
        ReadFaultKind::Length,
    ),
    (
        "25eb 0100 20000000 04000000 08 00 03 68 100000000000 6553 01000000 020000",
        ReadFaultKind::Truncated,
    ),
    (
        "25eb 0100 20000000 04000000 08 00 03 68 100000000000 6553 01000000 02000000",
        ReadFaultKind::DataChecksum,
    ),
    (
        "25eb 0100 20000000 04000000 08 00 03 68 100000000000 6553 01000000 01000000",
        ReadFaultKind::Body,
    ),
];

#[test]
fn a_wrong_sum_is_looked_for_before_the_body(rt: HostRuntime) -> Result<(), Fail> {
    let alloc = rt.alloc();
    for &(text, kind) in &FAULTS {
        let bytes = all_bytes(alloc, text)?;
        for &most in &PIECES {
            let found = compare(&rt, alloc, bytes.as_slice(), most)?;
            assert_same!(rt; found, (0, Some(ReadEnd { kind, at: 0 })), "{text}");
        }
    }
    Ok(())
}
