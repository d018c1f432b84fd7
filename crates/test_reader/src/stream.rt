//! Recordings that come as a stream, in pieces, beside the reading of all their bytes.
use crate::shared::packets_of;
use ch11_packet::Header;
use rec_reader::*;
use std::alloc::Global;
use std::io;
use std::io::{ErrorKind, Read};
use std::process::Abort;
use std::test::Fail;
use test_samples::{ACCEPTING, END, FRAMES, REJECTING, all_bytes, assert_same, joined_bytes};

/// The recording of a channel that kept the second of two frames, and where its packets end.
const TWO_VERSIONS: [&str; 4] = [REJECTING, ACCEPTING, FRAMES, END];

const ENDS: [usize; 5] = [0, 60, 120, 180, 232];

/// A packet of another kind, one of no frames, and a header that claims four gigabytes.
const SETUP: &str = "25eb 0000 1c000000 04000000 08 00 00 01 000000000000 4dec 00000000";

const NO_FRAMES: &str = "25eb 0100 1c000000 04000000 08 00 00 68 000000000000 4e53 00000000";

const CLAIM: &str = "25eb 0100 fcffffff 00000000 08 00 00 01 000000000000 29ec";

/// A packet that is a header alone.
const HEADER_ALONE: &str = "25eb 0100 18000000 00000000 08 00 00 01 000000000000 46ec";

/// The most bytes for which a reader may have room before they have come.
const MOST_ROOM: usize = 65_536;

/// Gives bytes in pieces of at most `most`, and fails after this number of calls. It fails too where it
/// is given more room than a reader may have.
#[derive(Drop)]
struct Stream<'a> {
    rest: &'a [u8],
    most: usize,
    calls: usize,
    kind: ErrorKind,
    /// Whether it gives the rest once it has failed.
    fails_once: bool,
}

impl<'a> Stream<'a> {
    fn of(rest: &'a [u8], most: usize) -> Stream<'a> {
        Stream {
            rest,
            most,
            calls: usize::MAX,
            kind: ErrorKind::Other,
            fails_once: false,
        }
    }
}

impl Read for Stream<'_> {
    fn read(&mut self, buf: &mut [u8]) -> io::Result<usize> {
        if buf.len() > MOST_ROOM {
            return Err(io::Error::from(ErrorKind::InvalidInput));
        }
        let Some(calls) = self.calls.checked_sub(1) else {
            if self.fails_once {
                self.calls = usize::MAX;
            }
            return Err(io::Error::from(self.kind));
        };
        self.calls = calls;
        let count = self.most.min(self.rest.len()).min(buf.len());
        let (front, rest) = self.rest.split_at(count);
        buf[..count].copy_from_slice(front);
        self.rest = rest;
        Ok(count)
    }
}

/// All packets of a stream, and how it ends, which has to be answered twice.
fn streamed(
    rt: &impl Abort,
    alloc: Global,
    stream: Stream<'_>,
) -> Result<(Vec<OwnedPacket>, Option<ReadEnd>), Fail> {
    let mut reader = Reader::new(alloc, stream);
    let mut packets = Vec::new(alloc);
    for _ in 0..u64::MAX {
        let end = match reader.next() {
            Ok(Some(packet)) => {
                packets.push(packet)?;
                continue;
            }
            Ok(None) => None,
            Err(end) => Some(end),
        };
        let again = match reader.next() {
            Ok(Some(_)) => return Err("a packet after the end")?,
            Ok(None) => None,
            Err(end) => Some(end),
        };
        assert_same!(rt; again, end);
        return Ok((packets, end));
    }
    Err("an end")?
}

/// Stops unless a recording gives the same packets and the same end as a stream; this end, and the
/// number of packets.
pub(crate) fn compare(
    rt: &impl Abort,
    alloc: Global,
    bytes: &[u8],
    most: usize,
) -> Result<(usize, Option<ReadEnd>), Fail> {
    let (packets, end) = streamed(rt, alloc, Stream::of(bytes, most))?;
    let (recording, want) = match read_recording(alloc, bytes) {
        Ok(recording) => (recording, None),
        Err(fault) => {
            let end = fault.end();
            (fault.into_before(), Some(end))
        }
    };
    assert_same!(rt; end, want);
    assert_same!(rt; packets.len(), recording.packets().len());
    for (owned, packet) in packets.iter().zip(recording.packets()) {
        assert_same!(rt; owned.packet(), *packet);
    }
    Ok((packets.len(), end))
}

/// The recording of two versions with a byte changed.
fn changed(alloc: Global, at: usize, value: u8) -> Result<Vec<u8>, Fail> {
    let mut bytes = joined_bytes(alloc, &TWO_VERSIONS)?;
    if let Some(byte) = bytes.get_mut(at) {
        *byte = value;
    }
    Ok(bytes)
}

/// The audit of a stream, packet by packet.
fn audited(alloc: Global, stream: Stream<'_>) -> Result<Audit, Fail> {
    let mut reader = Reader::new(alloc, stream);
    let mut auditor = Auditor::new(alloc);
    for _ in 0..u64::MAX {
        let Some(packet) = reader.next()? else {
            return Ok(auditor.end()?);
        };
        auditor.take(&packet.packet())?;
    }
    Err("an end")?
}

#[test]
fn recordings_read_the_same_in_any_pieces(rt: HostRuntime) -> Result<(), Fail> {
    let alloc = rt.alloc();
    let whole = joined_bytes(alloc, &TWO_VERSIONS)?;
    let claim = all_bytes(alloc, CLAIM)?;
    let alone = joined_bytes(alloc, &[HEADER_ALONE, END, HEADER_ALONE])?;
    let refused = changed(alloc, 116, 0)?;
    let kind = ReadFaultKind::Truncated;
    let cut = Some(ReadEnd { kind, at: 180 });
    for (bytes, packets, end) in [
        (whole.as_slice(), 4, None),
        (whole.get(..200).unwrap_or(&[]), 3, cut),
        (refused.get(..210).unwrap_or(&[]), 3, cut),
        (alone.as_slice(), 3, None),
        (&[], 0, None),
        (claim.as_slice(), 0, Some(ReadEnd { kind, at: 0 })),
    ] {
        for most in [1, 7, 24, 4_096] {
            let found = compare(&rt, alloc, bytes, most)?;
            assert_same!(rt; found, (packets, end), "pieces of {most}");
        }
    }
    for most in [1, 7, 24, 4_096] {
        let audit = audited(alloc, Stream::of(whole.as_slice(), most))?;
        let line = AuditLine {
            channel: 1,
            programs: 2,
            frames: 1,
            offered: 2,
        };
        assert_eq!(rt;
            (audit.channels.as_slice(), audit.other),
            ([line].as_slice(), 0)
        );
    }
    Ok(())
}

/// Stops unless a stream whose packets are each given back gives the packets of a recording.
fn compare_given_back(
    rt: &impl Abort,
    alloc: Global,
    bytes: &[u8],
    most: usize,
) -> Result<(), Fail> {
    let recording = read_recording(alloc, bytes)?;
    let mut reader = Reader::new(alloc, Stream::of(bytes, most));
    for packet in recording.packets() {
        let Some(owned) = reader.next()? else {
            return Err("a packet")?;
        };
        assert_same!(rt; owned.packet(), *packet);
        reader.give_back(owned);
    }
    Ok(())
}

/// Long ones before short ones, and the other way round.
#[test]
fn packets_that_are_given_back_leave_the_next_as_they_are(rt: HostRuntime) -> Result<(), Fail> {
    let alloc = rt.alloc();
    let mut bytes = joined_bytes(alloc, &TWO_VERSIONS)?;
    for len in [60_000, 1_000, 28, 24, 40_000] {
        bytes.extend_from_slice(with_packet(alloc, len)?.as_slice())?;
    }
    for most in [1, 7, 24, 4_096, usize::MAX] {
        compare_given_back(&rt, alloc, bytes.as_slice(), most)?;
    }
    Ok(())
}

/// An input that gives all that is left once it has failed is not asked for it.
#[test]
fn a_failing_input_is_a_fault_of_the_device(rt: HostRuntime) -> Result<(), Fail> {
    let bytes = joined_bytes(rt.alloc(), &TWO_VERSIONS)?;
    for &(kind, fails_once) in &[
        (ErrorKind::BrokenPipe, false),
        (ErrorKind::BrokenPipe, true),
        (ErrorKind::Interrupted, false),
        (ErrorKind::Interrupted, true),
    ] {
        // each packet takes two calls, and the end one
        for calls in 0..9 {
            let mut stream = Stream::of(bytes.as_slice(), usize::MAX);
            stream.calls = calls;
            stream.kind = kind;
            stream.fails_once = fails_once;
            let (packets, end) = streamed(&rt, rt.alloc(), stream)?;
            assert_same!(rt; packets.len(), calls / 2, "{calls} calls");
            let at = ENDS.get(calls / 2).copied().unwrap_or(0) as u64;
            let kind = ReadFaultKind::Device;
            assert_same!(rt; end, Some(ReadEnd { kind, at }), "{calls} calls");
        }
    }
    Ok(())
}

/// A packet of this length of another kind, between two ends.
fn with_packet(alloc: Global, len: u32) -> Result<Vec<u8>, Fail> {
    let header = Header::new(1, len, len.saturating_sub(24), 8, 0, 0, 1, 0).ok_or("a header")?;
    let end = all_bytes(alloc, END)?;
    let mut bytes = all_bytes(alloc, END)?;
    bytes.extend_from_slice(&header.encode())?;
    let body = (len as usize).saturating_sub(24);
    bytes.resize(bytes.len().saturating_add(body), 0x5a)?;
    bytes.extend_from_slice(end.as_slice())?;
    Ok(bytes)
}

#[test]
fn packets_over_65536_bytes_read_the_same(rt: HostRuntime) -> Result<(), Fail> {
    let alloc = rt.alloc();
    for len in [65_536, 65_560, 65_564, 131_096, 131_100, 524_288, 5_000_000] {
        let bytes = with_packet(alloc, len)?;
        for most in [4_093, 65_535, usize::MAX] {
            let found = compare(&rt, alloc, bytes.as_slice(), most)?;
            assert_same!(rt; found, (3, None), "a packet of {len}, pieces of {most}");
        }
    }
    Ok(())
}

#[test]
fn damaged_recordings_read_the_same(rt: HostRuntime) -> Result<(), Fail> {
    let alloc = rt.alloc();
    let bytes = joined_bytes(alloc, &TWO_VERSIONS)?;
    for len in 0..=232 {
        let whole = ENDS.iter().filter(|end| 0 < **end && **end <= len).count();
        let front = bytes.get(..len).unwrap_or(&[]);
        let (packets, end) = compare(&rt, alloc, front, 7)?;
        let at = ENDS.get(whole).copied().unwrap_or(0);
        let kind = ReadFaultKind::Truncated;
        let cut = ReadEnd {
            kind,
            at: at as u64,
        };
        assert_same!(rt;
            (packets, end),
            (whole, (at < len).then_some(cut)),
            "{len} bytes"
        );
    }
    for at in 0..232 {
        for value in [0x00, 0xff] {
            let bytes = changed(alloc, at, value)?;
            compare(&rt, alloc, bytes.as_slice(), 24)?;
            let answer = audit(alloc, &packets_of(alloc, bytes.as_slice()));
            assert!(rt; !matches!(answer, Err(AuditFault::Memory)), "byte {at}");
        }
    }
    Ok(())
}

/// Numbers that follow from a seed.
#[derive(Drop)]
struct Numbers {
    state: u64,
}

impl Numbers {
    /// A number below `bound`, or 0.
    fn below(&mut self, bound: usize) -> usize {
        self.state = self
            .state
            .wrapping_mul(6_364_136_223_846_793_005)
            .wrapping_add(1_442_695_040_888_963_407);
        ((self.state >> 33) as usize)
            .checked_rem(bound)
            .unwrap_or(0)
    }
}

#[test]
fn drawn_recordings_read_the_same(rt: HostRuntime) -> Result<(), Fail> {
    let alloc = rt.alloc();
    let texts = [REJECTING, ACCEPTING, FRAMES, FRAMES, END, SETUP, NO_FRAMES];
    let mut numbers = Numbers { state: 20_261_123 };
    let mut whole = 0u32;
    for _ in 0..1_000 {
        let mut bytes = Vec::new(alloc);
        for _ in 0..numbers.below(8) {
            let text = texts.get(numbers.below(texts.len())).unwrap_or(&END);
            bytes.extend_from_slice(all_bytes(alloc, text)?.as_slice())?;
        }
        let at = numbers.below(bytes.len());
        match numbers.below(3) {
            0 => {}
            1 => bytes.truncate(at),
            _ => {
                if let Some(byte) = bytes.get_mut(at) {
                    *byte = u8::try_from(numbers.below(256)).unwrap_or(0);
                }
            }
        }
        let most = [1, 7, 24, 4_096]
            .get(numbers.below(4))
            .copied()
            .unwrap_or(1);
        let (_, end) = compare(&rt, alloc, bytes.as_slice(), most)?;
        if end.is_none() {
            whole = whole.saturating_add(1);
        }
    }
    assert!(rt; whole > 200 && whole < 800, "{whole} are whole");
    Ok(())
}
