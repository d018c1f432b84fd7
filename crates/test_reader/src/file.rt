//! Whole Chapter 11 files of recordings.

use ch11_clock::{Clock, Origin, read_origin};
use ch11_file::*;
use ch11_packet::{COMPUTER_GENERATED_DATA, ETHERNET_DATA, Header, end_body, packet_len};
use ch11_setup::SetupChannel;
use rec_pieces::*;
use rec_reader::Reader;
use rec_whole::FileNames;
use sha2::{Digest, Sha256};
use std::alloc::Global;
use std::io;
use std::io::{ErrorKind, Write};
use std::test::Fail;
use test_samples::{CHECKED, all_bytes, assert_same, joined_bytes};

/// The origin of the recording of the examples.
const ORIGIN: &str = "1764590400.250000123";

/// Its whole file's SHA-256, and the packets of the time, the node and the root in it.
const WHOLE_SHA256: &str = "bc7788fb6bd5a9b95dc6af282ea8a3d1a4b274476766c991a927b7373ea32e74";

const TIME: &str = "25eb 0200 28000000 0c000000 08 00 03 11 9f8601000000 0683 \
    30020000 2600 0012 0112 2520 57142532";

const NODE: &str = "25eb 0000 98000000 7c000000 08 04 03 03 9f8601000000 e479 06000080 \
    9f86010000000000 0000 01 00 0000000000000000 9f86010000000000 0200 11 00 b002000000000000";

const ROOT: &str = "25eb 0000 40000000 24000000 08 05 03 03 9f8601000000 347a 02000000 \
    9f86010000000000 d003000000000000 9f86010000000000 6804000000000000 78150300";

/// How many entries a node has at most, and for how many bytes an output has room.
const MOST: u16 = 16_384;

const ROOM: usize = 1 << 20;

/// The last moment of the year 3999, and the one behind it.
const LAST_MOMENT: &str = "64060588799.99";

const MOMENT_BEHIND: &str = "64060588800";

/// An output that fails once it has some bytes.
#[derive(Drop)]
struct Limited {
    bytes: Vec<u8>,
    room: usize,
}

impl Write for Limited {
    fn write(&mut self, buf: &[u8]) -> io::Result<usize> {
        let count = self.room.saturating_sub(self.bytes.len()).min(buf.len());
        if count == 0 || self.bytes.extend_from_slice(&buf[..count]).is_err() {
            return Err(io::Error::from(ErrorKind::Other));
        }
        Ok(count)
    }

    fn flush(&mut self) -> io::Result<()> {
        Ok(())
    }
}

/// The clock with this time of counter 0.
fn clock_of(alloc: Global, origin: &str) -> Result<Clock, Fail> {
    let Some(nanos) = read_origin(origin.as_bytes()) else {
        return Err("an origin".into());
    };
    let Some(origin) = Origin::new(0, nanos) else {
        return Err("an origin in range".into());
    };
    Ok(Clock::new(alloc, &[origin])?)
}

/// The channels of a recording, all of one name.
fn channels_of(alloc: Global, listing: &PieceListing) -> Result<Vec<SetupChannel<'static>>, Fail> {
    let mut channels = Vec::new(alloc);
    for &id in listing.channels(alloc)?.as_slice() {
        channels.push(SetupChannel {
            id,
            name: "channel",
            net: 0,
        })?;
    }
    Ok(channels)
}

/// The setup record of a file of these channels, whose times stand on channel 2.
fn setup_of<'a>(channels: &'a [SetupChannel<'a>]) -> FileSetup<'a> {
    FileSetup {
        host: "bpfrec",
        program: "bpfrec",
        is_external: false,
        is_indexed: true,
        time_channel: 2,
        channels,
        attributes: &[],
    }
}

/// The file of a recording, up to its end or why it ended early.
fn file_of(
    alloc: Global,
    recording: &[u8],
    clock: &Clock,
    most: u16,
    room: usize,
) -> Result<(Result<FileCounts, FileEnd>, Vec<u8>), Fail> {
    let mut reader = Reader::new(alloc, recording);
    let Ok(listing) = list_recording(alloc, &mut reader) else {
        return Err("a recording".into());
    };
    let packets = FilePackets::new(&recording);
    let mut sources = channel_sources(alloc, &packets, &listing)?;
    let channels = channels_of(alloc, &listing)?;
    let setup = setup_of(channels.as_slice());
    let least = listing.least().unwrap_or(0);
    if least >= 1 << 48 || setup.channels.len() >= 1 << 16 || most == 0 || most > 16_384 {
        return Err("what a file can be made of".into());
    }
    let mut out = Limited {
        bytes: Vec::new(alloc),
        room,
    };
    let ending = write_file(alloc, &mut sources, &setup, clock, least, most, &mut out);
    Ok((ending, out.bytes))
}

/// The file of a recording by the clock of the example.
fn whole_file_of(alloc: Global, recording: &[u8], most: u16) -> Result<Vec<u8>, Fail> {
    let clock = clock_of(alloc, ORIGIN)?;
    match file_of(alloc, recording, &clock, most, ROOM)? {
        (Ok(_), bytes) => Ok(bytes),
        (Err(_), _) => Err("a whole file".into()),
    }
}

/// Why the file of a recording ended early: `None` for a whole one.
fn end_of(alloc: Global, recording: &[u8], clock: &Clock) -> Result<Option<FileEnd>, Fail> {
    Ok(file_of(alloc, recording, clock, MOST, ROOM)?.0.err())
}

/// Adds a packet without a data checksum.
fn add_packet(
    recording: &mut Vec<u8>,
    channel: u16,
    kind: u8,
    counter: u64,
    body: &[u8],
) -> Result<(), Fail> {
    if body.len() > 1_000 {
        return Err("a short body".into());
    }
    let len = packet_len(body.len());
    let Some(header) = Header::new(
        channel,
        len as u32,
        body.len() as u32,
        8,
        0,
        0,
        kind,
        counter,
    ) else {
        return Err("a header".into());
    };
    recording.extend_from_slice(&header.encode())?;
    recording.extend_from_slice(body)?;
    'filler: for _ in 0..(4 - body.len() % 4) % 4 {
        recording.push(0)?;
    }
    Ok(())
}

/// Adds a packet of one frame of four bytes.
fn add_frame(recording: &mut Vec<u8>, channel: u16, counter: u64) -> Result<(), Fail> {
    let [c0, c1, c2, c3, c4, c5, _, _] = counter.to_le_bytes();
    let body = [
        1, 0, 0, 0, c0, c1, c2, c3, c4, c5, 0, 0, 4, 0, 0, 0, 1, 2, 3, 4,
    ];
    add_packet(recording, channel, ETHERNET_DATA, counter, &body)
}

/// Adds the end of a channel that was offered frames, or none.
fn add_end(recording: &mut Vec<u8>, channel: u16, counter: u64, offered: u64) -> Result<(), Fail> {
    if channel == 0 {
        return Err("a channel".into());
    }
    let body = end_body(channel, offered, offered);
    add_packet(recording, 0, COMPUTER_GENERATED_DATA, counter, &body)
}

/// The channel, the data type and the counter of each packet of a file.
fn heads_of(alloc: Global, file: &[u8]) -> Result<Vec<(u16, u8, u64)>, Fail> {
    let mut heads = Vec::new(alloc);
    let mut rest = file;
    'packets: for _ in 0..file.len() {
        let Some((bytes, _)) = rest.split_first_chunk::<24>() else {
            return Ok(heads);
        };
        let Ok(header) = Header::decode(bytes) else {
            return Err("a header".into());
        };
        heads.push((header.channel, header.kind, header.counter))?;
        let Some(more) = rest.get(header.packet_len as usize..) else {
            return Err("a whole packet".into());
        };
        rest = more;
    }
    Ok(heads)
}

#[test]
fn the_example_is_a_whole_file(rt: HostRuntime) -> Result<(), Fail> {
    let alloc = rt.alloc();
    let recording = joined_bytes(alloc, &CHECKED)?;
    let clock = clock_of(alloc, ORIGIN)?;
    let (ending, bytes) = file_of(alloc, recording.as_slice(), &clock, MOST, ROOM)?;
    let wanted = FileCounts {
        times: 1,
        packets: 1,
        records: 3,
        index: 2,
        bytes: 1_192,
    };
    assert_same!(rt; ending, Ok(wanted));
    for &(at, text) in &[(688, TIME), (976, NODE), (1_128, ROOT)] {
        let Some(packet) = bytes.get(at..) else {
            return Err("1,192 bytes".into());
        };
        assert!(rt; packet.starts_with(all_bytes(alloc, text)?.as_slice()));
    }
    let sum = all_bytes(alloc, WHOLE_SHA256)?;
    assert!(rt; Sha256::digest(bytes.as_slice()).as_slice() == sum.as_slice());
    Ok(())
}

#[test]
fn a_recording_in_memory_has_that_file(rt: HostRuntime) -> Result<(), Fail> {
    let alloc = rt.alloc();
    let recording = joined_bytes(alloc, &CHECKED)?;
    let clock = clock_of(alloc, ORIGIN)?;
    let names = FileNames {
        host: "bpfrec",
        program: "bpfrec",
        is_external: false,
        channels: &[],
        attributes: &[],
    };
    let Ok(file) = test_whole::whole_file_of(alloc, recording.as_slice(), &names, &clock, MOST)
    else {
        return Err("a whole file".into());
    };
    let sum = all_bytes(alloc, WHOLE_SHA256)?;
    assert!(rt; Sha256::digest(file.as_slice()).as_slice() == sum.as_slice());
    Ok(())
}

#[test]
fn an_output_that_fails_holds_the_first_bytes_of_a_file(rt: HostRuntime) -> Result<(), Fail> {
    let alloc = rt.alloc();
    let recording = joined_bytes(alloc, &CHECKED)?;
    let clock = clock_of(alloc, ORIGIN)?;
    let whole = whole_file_of(alloc, recording.as_slice(), MOST)?;
    'rooms: for room in 0..whole.len() {
        let (ending, bytes) = file_of(alloc, recording.as_slice(), &clock, MOST, room)?;
        assert_same!(rt; ending, Err(FileEnd::Write(FileFault::Output)));
        assert!(rt; bytes.as_slice() == &whole[..room]);
    }
    Ok(())
}

#[test]
fn nodes_and_roots_go_out_when_they_are_full(rt: HostRuntime) -> Result<(), Fail> {
    let alloc = rt.alloc();
    let recording = joined_bytes(alloc, &CHECKED)?;
    let rows = [
        (16_384, "01 11 00 00 68 00 03 03"),
        (2, "01 11 03 00 00 03 03 68 00 03 03"),
        (1, "01 03 03 11 03 03 00 03 03 00 03 03 68 03 03 00 03 03"),
    ];
    for &(most, text) in &rows {
        let bytes = whole_file_of(alloc, recording.as_slice(), most)?;
        let mut kinds = Vec::new(alloc);
        for &(_, kind, _) in heads_of(alloc, bytes.as_slice())?.as_slice() {
            kinds.push(kind)?;
        }
        assert!(rt; kinds.as_slice() == all_bytes(alloc, text)?.as_slice());
    }
    Ok(())
}

#[test]
fn over_a_second_behind_is_disorder_and_over_a_week_ahead_a_gap(
    rt: HostRuntime,
) -> Result<(), Fail> {
    let alloc = rt.alloc();
    let clock = clock_of(alloc, "0")?;
    let rows = [
        (10_000_000, 0, None),
        (
            10_000_001,
            0,
            Some(FileEnd::Refused(Refusal::Disorder { at: 44 })),
        ),
        // The time packets of a week have no room.
        (
            99_999,
            6_048_000_099_999,
            Some(FileEnd::Write(FileFault::Output)),
        ),
        (
            99_999,
            6_048_000_100_000,
            Some(FileEnd::Refused(Refusal::Gap { at: 44 })),
        ),
    ];
    for &(first, second, wanted) in &rows {
        let mut recording = Vec::new(alloc);
        add_frame(&mut recording, 1, first)?;
        add_frame(&mut recording, 1, second)?;
        assert_same!(rt; end_of(alloc, recording.as_slice(), &clock)?, wanted);
    }
    Ok(())
}

#[test]
fn a_time_packet_that_goes_out_has_a_year_to_3999(rt: HostRuntime) -> Result<(), Fail> {
    let alloc = rt.alloc();
    let year = Some(FileEnd::Refused(Refusal::Year));
    let rows = [
        (LAST_MOMENT, 99_999, None),
        (LAST_MOMENT, 100_000, year),
        (MOMENT_BEHIND, 0, year),
    ];
    for &(origin, counter, wanted) in &rows {
        let clock = clock_of(alloc, origin)?;
        let mut recording = Vec::new(alloc);
        add_frame(&mut recording, 1, 0)?;
        add_frame(&mut recording, 1, counter)?;
        assert_same!(rt; end_of(alloc, recording.as_slice(), &clock)?, wanted);
    }
    Ok(())
}

#[test]
fn a_recording_without_a_moment_that_has_a_tick_is_refused(rt: HostRuntime) -> Result<(), Fail> {
    let alloc = rt.alloc();
    let last = (1 << 48) - 1;
    let (Some(first), Some(later)) = (Origin::new(0, 0), Origin::new(last, 0)) else {
        return Err("two origins".into());
    };
    let clock = Clock::new(alloc, &[first, later])?;
    let mut recording = Vec::new(alloc);
    add_frame(&mut recording, 1, last)?;
    let wanted = Some(FileEnd::Refused(Refusal::Origin));
    assert_same!(rt; end_of(alloc, recording.as_slice(), &clock)?, wanted);
    Ok(())
}

#[test]
fn equal_counters_go_by_channel_and_an_end_that_was_offered_nothing_last(
    rt: HostRuntime,
) -> Result<(), Fail> {
    let alloc = rt.alloc();
    let mut recording = Vec::new(alloc);
    add_end(&mut recording, 9, 0, 0)?;
    add_frame(&mut recording, 5, 70)?;
    add_frame(&mut recording, 3, 70)?;
    add_frame(&mut recording, 3, 80)?;
    add_end(&mut recording, 5, 75, 1)?;
    let bytes = whole_file_of(alloc, recording.as_slice(), MOST)?;
    let heads = heads_of(alloc, bytes.as_slice())?;
    let wanted = [
        (3, ETHERNET_DATA, 70),
        (5, ETHERNET_DATA, 70),
        (0, COMPUTER_GENERATED_DATA, 75),
        (3, ETHERNET_DATA, 80),
        // It has the greatest counter of a header, which is that of the time packet.
        (0, COMPUTER_GENERATED_DATA, 99_999),
    ];
    let Some(pieces) = heads.as_slice().get(2..7) else {
        return Err("seven packets".into());
    };
    assert!(rt; pieces == wanted.as_slice());
    Ok(())
}
