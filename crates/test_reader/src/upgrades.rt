//! Recordings that are brought up to date.
use crate::audit::told;
use crate::shared::{extract, packets_of};
use ch11_packet::{ETHERNET_DATA, HEADER_LEN, Header, What, body_sum};
use rec_reader::*;
use std::alloc::Global;
use std::io;
use std::io::{ErrorKind, Write};
use std::test::Fail;
use test_samples::{
    ACCEPTING, CHECKED, END, FRAMES, REJECTING, all_bytes, assert_same, joined_bytes,
};

/// The recording of a channel that kept the second of two frames, without data checksums.
const OLD: [&str; 4] = [REJECTING, ACCEPTING, FRAMES, END];

/// A setup record, and a packet of frames with a secondary header.
const SETUP: &str = "25eb 0000 1c000000 04000000 08 00 00 01 000000000000 4dec 00000000";

const SECONDARY: &str = "25eb 0100 3c000000 22000000 08 00 80 68 100000000000 1c54 \
    01000000 100000000000 0000 12000003 ffffffffffff 020000000001 0806 a1b2c3d4 0000";

/// An output that takes one byte at a time, so many in all, and then fails.
#[derive(Drop)]
struct Narrow {
    room: usize,
    taken: Vec<u8>,
}

impl Narrow {
    fn new(alloc: Global, room: usize) -> Narrow {
        Narrow {
            room,
            taken: Vec::new(alloc),
        }
    }
}

impl Write for Narrow {
    fn write(&mut self, buf: &[u8]) -> io::Result<usize> {
        let Some(byte) = buf.first() else {
            return Ok(0);
        };
        if self.taken.len() >= self.room || self.taken.push(*byte).is_err() {
            return Err(io::Error::from(ErrorKind::StorageFull));
        }
        Ok(1)
    }

    fn flush(&mut self) -> io::Result<()> {
        Ok(())
    }
}

/// The upgrade of a recording's bytes, and how many packets were given a data checksum and copied.
fn upgraded(alloc: Global, bytes: &[u8]) -> Result<(Vec<u8>, u64, u64), Fail> {
    let Ok(recording) = read_recording(alloc, bytes) else {
        return Err("a recording".into());
    };
    let mut new = Vec::new(alloc);
    let Ok(Upgraded { packets, copied }) = upgrade(&recording, &mut new) else {
        return Err("memory".into());
    };
    Ok((new, packets, copied))
}

/// A packet with this header's channel, flags and data type, these data, and this behind them.
fn packet(alloc: Global, head: (u16, u8, u8), data: &[u8], tail: &[u8]) -> Result<Vec<u8>, Fail> {
    let (channel, flags, kind) = head;
    let behind = data.len().saturating_add(tail.len());
    let len = u32::try_from(HEADER_LEN.saturating_add(behind))?;
    let data_len = u32::try_from(data.len())?;
    let header = Header::new(channel, len, data_len, 9, 77, flags, kind, 16).ok_or("a header")?;
    let mut packet = header.encode().to_vec(alloc)?;
    packet.extend_from_slice(data)?;
    packet.extend_from_slice(tail)?;
    Ok(packet)
}

#[test]
fn an_old_recording_is_given_its_checksums(rt: HostRuntime) -> Result<(), Fail> {
    let alloc = rt.alloc();
    let old = joined_bytes(alloc, &OLD)?;
    let new = joined_bytes(alloc, &CHECKED)?;
    let (bytes, packets, copied) = upgraded(alloc, old.as_slice())?;
    assert_same!(rt; bytes.as_slice(), new.as_slice());
    assert_same!(rt; (packets, copied), (4, 0));
    let (bytes, packets, copied) = upgraded(alloc, new.as_slice())?;
    assert_same!(rt; bytes.as_slice(), new.as_slice());
    assert_same!(rt; (packets, copied), (0, 4));
    let (bytes, packets, copied) = upgraded(alloc, &[])?;
    assert_same!(rt; (bytes.len(), packets, copied), (0, 0, 0));
    Ok(())
}

#[test]
fn other_packets_are_copied_between_the_others(rt: HostRuntime) -> Result<(), Fail> {
    let alloc = rt.alloc();
    for text in [SETUP, SECONDARY] {
        let old = all_bytes(alloc, text)?;
        let (bytes, packets, copied) = upgraded(alloc, old.as_slice())?;
        assert_same!(rt; bytes.as_slice(), old.as_slice(), "{text}");
        assert_same!(rt; (packets, copied), (0, 1), "{text}");
    }
    let [rejecting, accepting, frames, end] = CHECKED;
    let old = joined_bytes(
        alloc,
        &[SETUP, REJECTING, SECONDARY, accepting, FRAMES, SETUP, END],
    )?;
    let new = joined_bytes(
        alloc,
        &[SETUP, rejecting, SECONDARY, accepting, frames, SETUP, end],
    )?;
    let (bytes, packets, copied) = upgraded(alloc, old.as_slice())?;
    assert_same!(rt; bytes.as_slice(), new.as_slice());
    assert_same!(rt; (packets, copied), (3, 4));
    Ok(())
}

/// The header's fields of the one packet of these bytes, and what follows its data.
fn fields(alloc: Global, bytes: &[u8]) -> Result<(Header, Vec<u8>), Fail> {
    let recording = packets_of(alloc, bytes);
    let [packet] = recording.packets() else {
        return Err("one packet".into());
    };
    let behind = packet.body.get(packet.data().len()..).unwrap_or(&[]);
    Ok((packet.header, behind.to_vec(alloc)?))
}

#[test]
fn all_but_flags_filler_and_sum_stays(rt: HostRuntime) -> Result<(), Fail> {
    let alloc = rt.alloc();
    let body = "01000000 100000000000 0000 11000003 ffffffffffff 020000000001 0806 a1b2c3";
    let data = all_bytes(alloc, body)?;
    // the flags, the old filler, and the flags that are written
    for &(flags, filler, want) in &[
        (0x00, "000000", 0x03),
        (0x3c, "000000", 0x3f),
        (0x14, "ff00ff", 0x17),
        (0x00, "ffffffff ffffff", 0x03),
        (0x00, "0123456789abcdef 000000", 0x03),
    ] {
        let filler = all_bytes(alloc, filler)?;
        let head = (65_535, flags, ETHERNET_DATA);
        let old = packet(alloc, head, data.as_slice(), filler.as_slice())?;
        let (new, packets, copied) = upgraded(alloc, old.as_slice())?;
        assert_same!(rt; (packets, copied), (1, 0), "flags {flags}");
        let (header, behind) = fields(alloc, new.as_slice())?;
        let same = Header::new(65_535, 64, 33, 9, 77, want, ETHERNET_DATA, 16);
        assert_same!(rt; Some(header), same, "flags {flags}");
        let [s0, s1, s2, s3] = body_sum(data.as_slice()).to_le_bytes();
        assert_same!(rt;
            behind.as_slice(),
            [0, 0, 0, s0, s1, s2, s3].as_slice(),
            "flags {flags}"
        );
    }
    Ok(())
}

/// A packet of so many frames without a data checksum: all have 18 bytes but the last, which has as many
/// as make `data_len` bytes of data.
fn long_packet(alloc: Global, data_len: usize, frames: u16) -> Result<Vec<u8>, Fail> {
    let mut data = Vec::new(alloc);
    let [low, high] = frames.to_le_bytes();
    data.extend_from_slice(&[low, high, 0, 0])?;
    let frame = all_bytes(
        alloc,
        "000000000000 0000 12000000 ffffffffffff 020000000001 0806 a1b2c3d4",
    )?;
    for _ in 1..frames {
        data.extend_from_slice(frame.as_slice())?;
    }
    let rest = data_len.saturating_sub(data.len() + 12);
    let [low, high] = u16::try_from(rest)?.to_le_bytes();
    data.extend_from_slice(&[0, 0, 0, 0, 0, 0, 0, 0, low, high, 0, 0])?;
    data.resize(data_len, 0xa5)?;
    let filler = (4 - data_len % 4) % 4;
    let zeros = [0; 3];
    packet(
        alloc,
        (1, 0, ETHERNET_DATA),
        data.as_slice(),
        zeros.get(..filler).unwrap_or(&[]),
    )
}

#[test]
fn a_packet_that_would_get_too_long_is_copied(rt: HostRuntime) -> Result<(), Fail> {
    let alloc = rt.alloc();
    // the data of a packet of 524,284 bytes without data checksum, and of one word more
    for &(data_len, packets, len) in &[
        (524_256, 1, 524_284),
        (524_257, 1, 524_288),
        (524_260, 1, 524_288),
        (524_261, 0, 524_288),
        (524_264, 0, 524_288),
    ] {
        let old = long_packet(alloc, data_len, 17_475)?;
        let (new, given, copied) = upgraded(alloc, old.as_slice())?;
        assert_same!(rt; (given, copied), (packets, 1 - packets), "{data_len} bytes");
        assert_same!(rt; new.len(), len, "{data_len} bytes");
        let (header, _) = fields(alloc, new.as_slice())?;
        assert_same!(rt; header.data_len as usize, data_len);
        if packets == 0 {
            assert!(rt; new.as_slice() == old.as_slice(), "{data_len} bytes");
        }
    }
    Ok(())
}

#[test]
fn a_long_record_of_a_program_is_copied(rt: HostRuntime) -> Result<(), Fail> {
    let alloc = rt.alloc();
    // instructions, and how many packets are given a data checksum: 24 + 28 + 8 * 65,529 + 4 = 524,288
    for &(count, packets) in &[(65_529_u16, 1), (65_530, 0), (65_535, 0)] {
        let mut data = all_bytes(
            alloc,
            "00000000 43425052 0100 0100 00000000 0000000000000000",
        )?;
        let [low, high] = count.to_le_bytes();
        data.extend_from_slice(&[low, high, 0, 0])?;
        data.resize(28 + 8 * usize::from(count), 0)?;
        let old = packet(alloc, (0, 0, 0), data.as_slice(), &[])?;
        let (new, given, copied) = upgraded(alloc, old.as_slice())?;
        assert_same!(rt; (given, copied), (packets, 1 - packets), "{count}");
        let recording = packets_of(alloc, new.as_slice());
        let what = recording.packets().first().map(|packet| packet.what);
        let want = What::Program {
            channel: 1,
            version: 0,
            first: 0,
            count,
        };
        assert_same!(rt; what, Some(want));
    }
    Ok(())
}

#[test]
fn an_upgrade_says_the_same(rt: HostRuntime) -> Result<(), Fail> {
    let alloc = rt.alloc();
    let [rejecting, accepting, frames, end] = CHECKED;
    for &texts in &[
        OLD.as_slice(),
        &CHECKED,
        &[REJECTING, accepting, FRAMES, end],
        &[SETUP, rejecting, SECONDARY, ACCEPTING, frames, END, SETUP],
        &[REJECTING, FRAMES, END],
        &[FRAMES],
        &[REJECTING, ACCEPTING, END, FRAMES],
        &[ACCEPTING, REJECTING, FRAMES, END],
        &[REJECTING, ACCEPTING, FRAMES, FRAMES, END],
    ] {
        let old = joined_bytes(alloc, texts)?;
        let (new, _, _) = upgraded(alloc, old.as_slice())?;
        let before = packets_of(alloc, old.as_slice());
        let after = packets_of(alloc, new.as_slice());
        assert_same!(rt;
            told(alloc, audit(alloc, &after))?.as_str(),
            told(alloc, audit(alloc, &before))?.as_str()
        );
        let mut pairs = before.packets().iter().zip(after.packets());
        assert!(rt; pairs.all(|(old, new)| old.what == new.what && old.data() == new.data()));
        for channel in [0, 1, 2] {
            let mut feed = Vec::new(alloc);
            let extracted = extract(&before, channel, &mut feed);
            let mut again = Vec::new(alloc);
            assert_same!(rt; extract(&after, channel, &mut again), extracted);
            assert_same!(rt; again.as_slice(), feed.as_slice());
        }
        let (twice, packets, _) = upgraded(alloc, new.as_slice())?;
        assert_same!(rt; packets, 0);
        assert_same!(rt; twice.as_slice(), new.as_slice());
    }
    Ok(())
}

#[test]
fn an_output_that_fails_has_the_front_of_the_upgrade(rt: HostRuntime) -> Result<(), Fail> {
    let alloc = rt.alloc();
    let old = joined_bytes(alloc, &OLD)?;
    let new = joined_bytes(alloc, &CHECKED)?;
    let Ok(recording) = read_recording(alloc, old.as_slice()) else {
        return Err("a recording".into());
    };
    for room in 0..248 {
        let mut out = Narrow::new(alloc, room);
        let whole = room / 64;
        let fault = UpgradeFault::Output {
            whole: whole as u64,
            bytes: (room - 64 * whole) as u64,
        };
        assert_same!(rt; upgrade(&recording, &mut out), Err(fault), "{room} bytes");
        assert_same!(rt; Some(out.taken.as_slice()), new.get(..room), "{room} bytes");
    }
    let mut out = Narrow::new(alloc, 248);
    let done = Upgraded {
        packets: 4,
        copied: 0,
    };
    assert_same!(rt; upgrade(&recording, &mut out), Ok(done));
    assert_same!(rt; out.taken.as_slice(), new.as_slice());
    let mut out = Narrow::new(alloc, 70);
    let fault = UpgradeFault::Output { whole: 1, bytes: 6 };
    assert_same!(rt; upgrade(&recording, &mut out), Err(fault));
    Ok(())
}

#[test]
fn an_output_that_fails_in_a_copy_tells_its_bytes(rt: HostRuntime) -> Result<(), Fail> {
    let alloc = rt.alloc();
    let old = joined_bytes(alloc, &[SETUP, REJECTING, SECONDARY])?;
    let (new, _, _) = upgraded(alloc, old.as_slice())?;
    let Ok(recording) = read_recording(alloc, old.as_slice()) else {
        return Err("a recording".into());
    };
    let ends = [0, 28, 92, 152];
    for room in 0..152 {
        let mut out = Narrow::new(alloc, room);
        let whole = ends.iter().filter(|end| 0 < **end && **end <= room).count();
        let bytes = room.saturating_sub(ends.get(whole).copied().unwrap_or(0));
        let fault = UpgradeFault::Output {
            whole: whole as u64,
            bytes: bytes as u64,
        };
        assert_same!(rt; upgrade(&recording, &mut out), Err(fault), "{room} bytes");
        assert_same!(rt; Some(out.taken.as_slice()), new.get(..room), "{room} bytes");
    }
    Ok(())
}

#[test]
fn a_stream_is_upgraded_packet_by_packet(rt: HostRuntime) -> Result<(), Fail> {
    let alloc = rt.alloc();
    let old = joined_bytes(alloc, &OLD)?;
    let new = joined_bytes(alloc, &CHECKED)?;
    let mut reader = Reader::new(alloc, old.as_slice());
    let mut out = Vec::new(alloc);
    let mut counts = Upgraded {
        packets: u64::MAX - 2,
        copied: 5,
    };
    for _ in 0..4 {
        let Ok(Some(owned)) = reader.next() else {
            return Err("a packet".into());
        };
        upgrade_packet(&owned.packet(), &mut out, &mut counts)?;
    }
    assert_same!(rt; out.as_slice(), new.as_slice());
    assert_same!(rt; (counts.packets, counts.copied), (u64::MAX, 5));
    Ok(())
}
