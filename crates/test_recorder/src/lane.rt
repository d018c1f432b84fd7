//! A lane beside a slot, piece by piece.
use ch11_packet::{Blank, Limit};
use eth_frame::Frame;
use rec_channel::Slot;
use rec_lane::*;
use std::alloc::Global;
use std::test::Fail;
use test_samples::{all_bytes, assert_same, program};

/// Accepts each frame.
const ACCEPT: &str = "1,6 0 0 1,";

/// Drops each frame.
const REJECT: &str = "1,6 0 0 0,";

/// A broadcast ARP frame without a payload, with its check sequence.
const ARP: &str = "ffffffffffff 020000000001 0806 a1b2c3d4";

/// The least limit, which the longest frame fills.
const LEAST: u32 = 16_424;

/// A lane of channel 1 with network identifier 7 and speed 3.
pub(crate) fn lane(alloc: Global, limit: u32) -> Result<Lane, Fail> {
    let limit = Limit::new(limit).ok_or("a limit in range")?;
    let spec = LaneSpec::new(1, 7, 3, limit).ok_or("settings in range")?;
    Ok(Lane::new(alloc, spec)?)
}

/// Draws a frame from the slot and offers it to the lane, which has met all frames drawn before. A
/// lane without memory for its buffer is as before, and gets it when it is asked again:
/// `dev/trials/long/refused_growth.py` refuses it.
pub(crate) fn offer(lane: &mut Lane, slot: &mut Slot, frame: &Frame<'_>) -> Result<Offered, Fail> {
    let before = (lane.offered(), lane.kept(), false);
    if lane.ready().is_err() {
        if (lane.offered(), lane.kept(), lane.is_ready()) != before || lane.ready().is_err() {
            return Err("a lane that is as before".into());
        }
    }
    let drawn = slot.draw()?;
    if drawn.number != lane.offered() {
        return Err(Fail::from("the lane has met other frames"));
    }
    Ok(lane.offer(frame, drawn))
}

/// A piece in words: what it is, its channel and its counter, and then of a program its version,
/// the number of its first frame and the constant of its first instruction, of a packet its number
/// of frames and its bytes, and of an end the numbers of frames offered and kept.
fn words(alloc: Global, piece: &Piece) -> Result<String, Fail> {
    Ok(match piece {
        Piece::Program(p) => {
            let returned = p.program.insns().first().map_or(0, |insn| insn.k);
            format!(in alloc;
                "program {} {} {} {} {returned}",
                p.channel, p.counter, p.version, p.first,
            )?
        }
        Piece::Data(p) => {
            let (counter, count) = (p.body.counter(), p.body.count());
            let len = p.body.bytes().len();
            format!(in alloc; "data {} {counter} {count} {len}", p.channel)?
        }
        Piece::End(p) => format!(in alloc;
            "end {} {} {} {}",
            p.channel, p.counter, p.offered, p.kept,
        )?,
    })
}

/// Pieces in words, separated by commas.
fn all_words(alloc: Global, pieces: &[Piece]) -> Result<String, Fail> {
    let mut text = String::new(alloc);
    for piece in pieces {
        if !text.is_empty() {
            text.push_str(", ")?;
        }
        text.push_str(words(alloc, piece)?.as_str())?;
    }
    Ok(text)
}

/// What happens on a channel.
#[derive(Clone, Copy)]
enum Step {
    /// A frame of so many bytes comes at a counter.
    Frame(u64, usize),
    /// A time mark comes.
    Time(u64),
    /// A program that accepts each frame is installed.
    Accept,
    /// A program that drops each frame is installed.
    Reject,
}

/// The pieces that a lane gives from its first program on, in words: those of each frame, and last
/// those of the end, with a semicolon after each frame's.
fn pieces_of(alloc: Global, first: &str, steps: &[Step]) -> Result<String, Fail> {
    pieces_from(alloc, lane(alloc, LEAST)?, first, steps)
}

/// The same of a lane that has met nothing.
fn pieces_from(alloc: Global, mut lane: Lane, first: &str, steps: &[Step]) -> Result<String, Fail> {
    let mut slot = Slot::new(alloc, program(alloc, first)?, 9)?;
    let mut text = String::new(alloc);
    for step in steps {
        match *step {
            Step::Accept => install(alloc, &mut slot, ACCEPT)?,
            Step::Reject => install(alloc, &mut slot, REJECT)?,
            Step::Frame(counter, len) => {
                let given = given_for(alloc, &mut lane, &mut slot, counter, len)?;
                text.push_str(given.as_str())?;
            }
            Step::Time(counter) => {
                lane.ready()?;
                if let Some(packet) = lane.at(counter) {
                    text.push_str(words(alloc, &Piece::Data(packet))?.as_str())?;
                }
                text.push_str("; ")?;
            }
        }
    }
    text.push_str(all_words(alloc, lane.end().as_slice())?.as_str())?;
    Ok(text)
}

/// Installs a listed program.
fn install(alloc: Global, slot: &mut Slot, listing: &str) -> Result<(), Fail> {
    slot.install(program(alloc, listing)?)?;
    Ok(())
}

/// The pieces that a lane gives for a frame of `len` bytes, in words, with a semicolon behind them.
fn given_for(
    alloc: Global,
    lane: &mut Lane,
    slot: &mut Slot,
    counter: u64,
    len: usize,
) -> Result<String, Fail> {
    let bytes = vec![in alloc; 0x5au8; len]?;
    let frame = Frame::new(counter, false, false, bytes.as_slice()).ok_or("a frame in range")?;
    let offered = offer(lane, slot, &frame)?;
    let mut text = all_words(alloc, offered.pieces.as_slice())?;
    text.push_str("; ")?;
    Ok(text)
}

/// Steps from a first program on, and the pieces that they give.
const GIVEN: [(&str, &[Step], &str); 4] = [
    (
        ACCEPT,
        &[Step::Frame(16, 18), Step::Frame(32, 18)],
        "program 1 16 0 0 1; ; data 1 16 2 64, end 1 32 2 2",
    ),
    (
        REJECT,
        &[Step::Frame(16, 18), Step::Accept, Step::Frame(32, 18)],
        "program 1 16 0 0 0; program 1 32 1 1 1; data 1 32 1 34, end 1 32 2 1",
    ),
    (
        ACCEPT,
        &[Step::Frame(16, 16_383), Step::Frame(32, 16_383)],
        "program 1 16 0 0 1; data 1 16 1 16400; data 1 32 1 16400, end 1 32 2 2",
    ),
    (ACCEPT, &[], "end 1 0 0 0"),
];

#[test]
fn each_frame_gives_the_pieces_that_are_certain(rt: HostRuntime) -> Result<(), Fail> {
    for &(first, steps, text) in &GIVEN {
        assert_same!(rt; pieces_of(rt.alloc(), first, steps)?.as_str(), text);
    }
    Ok(())
}

/// The same where versions end packets, and where counters fall.
const ENDED: [(&str, &[Step], &str); 2] = [
    // the first version meets no frame, and the third neither
    (
        REJECT,
        &[
            Step::Accept,
            Step::Frame(16, 18),
            Step::Reject,
            Step::Reject,
            Step::Frame(32, 18),
            Step::Frame(48, 18),
        ],
        "program 1 16 1 0 1; data 1 16 1 34, program 1 32 3 1 0; ; end 1 48 3 1",
    ),
    (
        ACCEPT,
        &[Step::Frame(281_474_976_710_655, 18), Step::Frame(0, 18)],
        "program 1 281474976710655 0 0 1; ; data 1 281474976710655 2 64, end 1 0 2 2",
    ),
];

#[test]
fn versions_end_packets_and_counters_may_fall(rt: HostRuntime) -> Result<(), Fail> {
    for &(first, steps, text) in &ENDED {
        assert_same!(rt; pieces_of(rt.alloc(), first, steps)?.as_str(), text);
    }
    Ok(())
}

/// Accepts a frame of 60 bytes.
const SIXTY: &str = "4,128 0 0 0,21 0 1 56,6 0 0 1,6 0 0 0,";

/// The same of a lane with a span of 100.
const AGED: [(&str, &[Step], &str); 3] = [
    (
        ACCEPT,
        &[
            Step::Time(7),
            Step::Frame(1_000, 60),
            Step::Frame(1_099, 60),
            Step::Time(1_100),
            Step::Frame(1_150, 60),
            Step::Time(1_249),
            Step::Time(1_250),
            Step::Time(5_000),
            Step::Frame(6_000, 60),
        ],
        "; program 1 1000 0 0 1; ; data 1 1000 2 148; ; ; data 1 1150 1 76; ; ; \
         data 1 6000 1 76, end 1 6000 4 4",
    ),
    (
        SIXTY,
        &[
            Step::Frame(1_000, 60),
            Step::Frame(1_099, 64),
            Step::Time(1_100),
            Step::Frame(1_150, 64),
        ],
        "program 1 1000 0 0 0; ; data 1 1000 1 76; ; end 1 1150 3 1",
    ),
    (
        SIXTY,
        &[
            Step::Frame(1_000, 60),
            Step::Frame(1_099, 64),
            Step::Frame(1_150, 64),
        ],
        "program 1 1000 0 0 0; ; data 1 1000 1 76; end 1 1150 3 1",
    ),
];

#[test]
fn a_frame_or_a_mark_a_span_later_ends_a_packet(rt: HostRuntime) -> Result<(), Fail> {
    let limit = Limit::new(LEAST).ok_or("a limit in range")?;
    let spec = LaneSpec::new(1, 7, 3, limit).ok_or("settings in range")?;
    for &(first, steps, text) in &AGED {
        let lane = Lane::new(rt.alloc(), spec.with_span(100))?;
        assert_same!(rt; pieces_from(rt.alloc(), lane, first, steps)?.as_str(), text);
    }
    Ok(())
}

#[test]
fn a_frame_is_packed_with_the_settings_of_its_lane(rt: HostRuntime) -> Result<(), Fail> {
    let body = "02000000 \
        100000000000 0000 12000743 ffffffffffff 020000000001 0806 a1b2c3d4 \
        200000000000 0000 13000783 ffffffffffff 020000000001 0806 a1b2c3d4 e5 00";
    let arp = all_bytes(rt.alloc(), ARP)?;
    let odd = all_bytes(rt.alloc(), "ffffffffffff 020000000001 0806 a1b2c3d4 e5")?;
    let first = Frame::new(16, false, true, arp.as_slice()).ok_or("a frame in range")?;
    let second = Frame::new(32, true, false, odd.as_slice()).ok_or("a frame in range")?;
    let mut slot = Slot::new(rt.alloc(), program(rt.alloc(), ACCEPT)?, 2)?;
    let mut lane = lane(rt.alloc(), 524_284)?;
    assert_same!(rt;
        (lane.offered(), lane.kept(), lane.is_ready()),
        (0, 0, false)
    );
    assert_same!(rt; offer(&mut lane, &mut slot, &first)?.value, 1);
    assert_same!(rt; offer(&mut lane, &mut slot, &second)?.value, 1);
    assert_same!(rt;
        (lane.offered(), lane.kept(), lane.is_ready()),
        (2, 2, true)
    );
    let pieces = lane.end();
    let Some(Piece::Data(data)) = pieces.as_slice().first() else {
        return Err(Fail::from("the open packet goes out before the end"));
    };
    assert_same!(rt; data.body.bytes(), all_bytes(rt.alloc(), body)?.as_slice());
    Ok(())
}

#[test]
fn the_filter_sees_the_frame_without_its_check_sequence(rt: HostRuntime) -> Result<(), Fail> {
    // the length of what it sees, and a byte of the check sequence
    for &(listing, value, kept) in &[
        ("2,128 0 0 0,22 0 0 0,", 14, 1),
        ("2,48 0 0 14,22 0 0 0,", 0, 0),
    ] {
        let arp = all_bytes(rt.alloc(), ARP)?;
        let frame = Frame::new(16, false, false, arp.as_slice()).ok_or("a frame in range")?;
        let mut slot = Slot::new(rt.alloc(), program(rt.alloc(), listing)?, 1)?;
        let mut lane = lane(rt.alloc(), LEAST)?;
        assert_same!(rt; offer(&mut lane, &mut slot, &frame)?.value, value);
        assert_same!(rt; (lane.offered(), lane.kept()), (1, kept));
    }
    Ok(())
}

#[test]
fn a_lane_packs_257_packets_in_two_buffers(rt: HostRuntime) -> Result<(), Fail> {
    let bytes = vec![in rt.alloc(); 0x5au8; 16_383]?;
    let mut slot = Slot::new(rt.alloc(), program(rt.alloc(), ACCEPT)?, 257)?;
    let mut lane = lane(rt.alloc(), LEAST)?;
    lane.ready()?;
    let mut packets = 0u64;
    for counter in 0..257 {
        let frame = Frame::new(counter, false, false, bytes.as_slice()).ok_or("a frame in range")?;
        assert!(rt; lane.is_ready());
        let mut offered = offer(&mut lane, &mut slot, &frame)?;
        if let Some(Piece::Data(data)) = offered.pieces.pop() {
            assert_same!(rt; (data.body.counter(), data.body.count()), (packets, 1));
            packets = packets.saturating_add(1);
            assert!(rt; lane.give(data.body.reuse()).is_none());
        }
    }
    assert_same!(rt; packets, 256);
    let last = all_words(rt.alloc(), lane.end().as_slice())?;
    assert_same!(rt; last.as_str(), "data 1 256 1 16400, end 1 256 257 257");
    Ok(())
}

#[test]
fn a_buffer_is_taken_where_it_is_missing_and_of_the_lanes_limit(
    rt: HostRuntime,
) -> Result<(), Fail> {
    let table = &[
        (16_424, false, true),
        (16_424, true, false),
        (16_428, false, false),
        (524_284, true, false),
    ];
    for &(most, ready, is_taken) in table {
        let mut lane = lane(rt.alloc(), LEAST)?;
        if ready {
            lane.ready()?;
        }
        let limit = Limit::new(most).ok_or("a limit in range")?;
        let back = lane.give(Blank::with_limit(rt.alloc(), limit)?);
        assert_same!(rt; back.is_none(), is_taken, "{most}");
        assert_same!(rt; lane.is_ready(), ready || is_taken, "{most}");
        if let Some(blank) = back {
            assert_same!(rt; blank.limit(), limit);
        }
        lane.ready()?;
        assert!(rt; lane.is_ready());
    }
    Ok(())
}

#[test]
fn settings_have_a_channel_over_0_and_a_speed_of_15_at_most(rt: HostRuntime) -> Result<(), Fail> {
    let limit = Limit::new(LEAST).ok_or("the least limit")?;
    let table = &[
        (0, 0, false),
        (1, 0, true),
        (65_535, 15, true),
        (1, 16, false),
        (0, 255, false),
    ];
    for &(channel, speed, in_range) in table {
        let spec = LaneSpec::new(channel, 255, speed, limit);
        assert_same!(rt; spec.is_some(), in_range, "{channel} {speed}");
    }
    let place = words(rt.alloc(), &Piece::default())?;
    assert_same!(rt; place.as_str(), "end 1 0 0 0");
    Ok(())
}
