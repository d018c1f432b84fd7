//! The core beside its slow model: worked lists of events, and drawn ones.

use crate::approval::{Answer, answer_of};
use crate::draws::Draws;
use crate::pieces::{Channel, PlainFrame};
use crate::shared::{drawn_frame, drawn_length, drawn_program, frame_of, lane_spec, programs};
use crate::world::{PlainAnswer, PlainEvent, PlainReply, PlainWorld, Refusal};
use bpf_verify::Verified;
use eth_frame::MAX_FRAME_LEN;
use rec_core::{ChannelSpec, CoreFault, Event, MAX_RING, Reply, Which, World, run_world, specs_ok};
use rec_reader::read_recording;
use std::alloc::Global;
use std::process::Abort;
use std::sync::Arc;
use std::test::Fail;
use test_samples::{CHECKED, assert_same, joined_bytes, program};

/// A broadcast ARP frame without a payload, with its check sequence.
const ARP: &str = "ffffffffffff 020000000001 0806 a1b2c3d4";

/// A program that keeps nothing.
const REJECT: &str = "1,6 0 0 0,";

/// A program that keeps all.
const ACCEPT: &str = "1,6 0 0 1,";

/// The channels of the drawn lists.
const KNOWN: [u16; 2] = [5, 9];

/// A channel that isn't there.
const UNKNOWN: u16 = 6;

/// The version byte of the packets.
const VERSION: u8 = 8;

/// A program that channels share.
type Program = Arc<Verified, Global>;

/// How many lists of events are drawn.
const LISTS: usize = 2_000;

/// How many events a list has, before those that end it.
const EVENTS: usize = 32;

/// How often all that was sent and written is tried once more, where a list is brought to its end.
/// No channel has as many pieces.
const ROUNDS: usize = 32;

/// How often each kind of answer has to come up at least.
const FEW: usize = 100;

/// The lengths of the frames that are drawn. No two of the longest fit a packet.
const LENGTHS: [usize; 16] = [
    18, 18, 18, 18, 18, 18, 18, 19, 19, 20, 20, 21, 61, 64, 400, 8_300,
];

/// The programs that are drawn.
const PROGRAMS: [&str; 5] = [
    ACCEPT,
    ACCEPT,
    REJECT,
    // byte 14 is below 128; in a frame of 18 bytes it is in the check sequence
    "4,48 0 0 14,53 1 0 128,6 0 0 7,6 0 0 0,",
    // the length of the view modulo 3
    "3,128 0 0 0,148 0 0 3,22 0 0 0,",
];

/// An event that is written down.
#[derive(Clone, Copy, Debug)]
enum Written {
    /// The ARP frame with this counter.
    Take(u64),
    /// The program with this listing.
    Install(&'static str),
    Send,
    Write,
    Close,
}

/// What an answer says, in one word.
#[derive(Clone, Copy, Debug, PartialEq, Eq)]
enum Sort {
    Took,
    Timed,
    Installed,
    SentProgram,
    SentFrames,
    SentEnd,
    Wrote,
    Closed,
    NoChannel,
    WasClosed,
    RingFull,
    NothingToSend,
    NothingToWrite,
    VersionsFull,
    CountFull,
}

/// The answers that come up in drawn lists: all but that a channel has too many versions.
const SORTS: [Sort; 14] = [
    Sort::Took,
    Sort::Timed,
    Sort::Installed,
    Sort::SentProgram,
    Sort::SentFrames,
    Sort::SentEnd,
    Sort::Wrote,
    Sort::Closed,
    Sort::NoChannel,
    Sort::WasClosed,
    Sort::RingFull,
    Sort::NothingToSend,
    Sort::NothingToWrite,
    Sort::CountFull,
];

/// Two frames of a channel whose filter is changed between them, event by event to the end of its
/// recording of 248 bytes.
#[test]
fn two_versions_are_recorded_event_by_event(rt: HostRuntime) -> Result<(), Fail> {
    let events = [
        (1, Written::Take(16), took(0, 0, 0)),
        (1, Written::Install(ACCEPT), installed(1, 1)),
        (1, Written::Take(32), took(1, 1, 1)),
        (1, Written::Send, Ok(PlainReply::SentProgram(0))),
        (1, Written::Write, wrote(64)),
        (1, Written::Send, Ok(PlainReply::SentProgram(1))),
        (1, Written::Write, wrote(64)),
        (1, Written::Close, closed(2, 1)),
        (1, Written::Send, Ok(PlainReply::SentFrames(1))),
        (1, Written::Write, wrote(64)),
        (1, Written::Send, Ok(PlainReply::SentEnd)),
        (1, Written::Write, wrote(56)),
        (1, Written::Write, Err(Refusal::NothingToWrite)),
    ];
    let mut world = PlainWorld::new(rt.alloc(), 4, 8);
    let first = program(rt.alloc(), REJECT)?;
    world.add_channel(rt.alloc(), channel(1, 3), first, 100)?;
    answer_all(&rt, rt.alloc(), &mut world, &events)?;
    let want = joined_bytes(rt.alloc(), &CHECKED)?;
    assert_same!(rt; world.output(rt.alloc())?.as_slice(), want.as_slice());
    Ok(())
}

/// A channel of one frame at most, with a ring of one piece.
#[test]
fn refusals_come_in_their_order(rt: HostRuntime) -> Result<(), Fail> {
    let events = [
        (7, Written::Take(1), took(0, 0, 1)),
        (7, Written::Take(2), Err(Refusal::CountFull)),
        (7, Written::Send, Ok(PlainReply::SentProgram(0))),
        (7, Written::Send, Err(Refusal::NothingToSend)),
        (7, Written::Close, closed(1, 1)),
        (7, Written::Send, Err(Refusal::RingFull)),
        (7, Written::Close, Err(Refusal::Closed)),
        (7, Written::Take(3), Err(Refusal::Closed)),
        (7, Written::Install(REJECT), installed(1, 1)),
        (9, Written::Send, Err(Refusal::NoChannel)),
    ];
    let mut world = PlainWorld::new(rt.alloc(), 1, 8);
    let first = program(rt.alloc(), ACCEPT)?;
    world.add_channel(rt.alloc(), channel(7, 0), first, 1)?;
    answer_all(&rt, rt.alloc(), &mut world, &events)?;
    assert_same!(rt; world.output(rt.alloc())?.len(), 0);
    Ok(())
}

/// Drawn lists of events of two channels and of one that isn't there. Some lists are brought to the
/// end of both channels; what was written is then a recording with which nothing is wrong.
#[test]
fn answers_and_bytes_agree_on_drawn_events(rt: HostRuntime) -> Result<(), Fail> {
    let alloc = rt.alloc();
    let mut draws = Draws::from_seed(20260702);
    let programs = programs(alloc, &PROGRAMS)?;
    let mut sorts = Vec::new(alloc);
    for number in 0..LISTS {
        let plan = drawn_plan(&mut draws, programs.as_slice())?;
        let mut events = drawn_events(alloc, &mut draws, programs.as_slice())?;
        if number % 8 == 0 {
            add_ending(&mut events)?;
        }
        let answers = compare(&rt, alloc, plan, events)?;
        for answer in &answers {
            sorts.push(sort_of(answer))?;
        }
    }
    for &sort in &SORTS {
        let count = sorts.iter().filter(|found| **found == sort).count();
        assert!(rt; count >= FEW, "{sort:?} came up {count} times");
    }
    Ok(())
}

/// A version for each frame, so that more records are written than a sequence number tells apart.
#[test]
fn answers_and_bytes_agree_past_256_records(rt: HostRuntime) -> Result<(), Fail> {
    let alloc = rt.alloc();
    let mut events = Vec::new(alloc);
    let programs = programs(alloc, &[ACCEPT, REJECT])?;
    for number in 0..130 {
        for &channel in &KNOWN {
            let at = usize::from(number % 16 != 0);
            let program = Arc::try_clone(programs.get(at).ok_or("a program")?)?;
            let frame = arp_frame(alloc, number)?;
            events.push((channel, PlainEvent::Install(program)))?;
            events.push((channel, PlainEvent::Take(frame)))?;
            events.push((channel, PlainEvent::Send))?;
            events.push((channel, PlainEvent::Write))?;
        }
    }
    add_ending(&mut events)?;
    let answers = compare(&rt, alloc, endless_plan(alloc)?, events)?;
    let ends = answers
        .iter()
        .filter(|answer| sort_of(answer) == Sort::SentEnd);
    assert_same!(rt; ends.count(), KNOWN.len());
    Ok(())
}

/// A channel has 1,024 versions at most.
#[test]
fn answers_agree_past_1024_versions(rt: HostRuntime) -> Result<(), Fail> {
    let alloc = rt.alloc();
    let mut events = Vec::new(alloc);
    let program = program(alloc, ACCEPT)?;
    for _ in 0..1_025 {
        events.push((KNOWN[0], PlainEvent::Install(Arc::try_clone(&program)?)))?;
    }
    let answers = compare(&rt, alloc, endless_plan(alloc)?, events)?;
    let full = answers
        .iter()
        .filter(|answer| sort_of(answer) == Sort::VersionsFull);
    assert_same!(rt; full.count(), 2);
    Ok(())
}

/// What a recorder is made of: its rings' room, and each channel's first program and most frames.
#[derive(Drop)]
struct Plan {
    ring: usize,
    programs: [Program; 2],
    maxima: [usize; 2],
}

/// A drawn plan.
fn drawn_plan(draws: &mut Draws, programs: &[Program]) -> Result<Plan, Fail> {
    Ok(Plan {
        ring: usize::from(draws.below(3)).saturating_add(1),
        programs: [
            drawn_program(draws, programs)?,
            drawn_program(draws, programs)?,
        ],
        maxima: [usize::from(draws.below(14)), usize::from(draws.below(14))],
    })
}

/// A plan of channels that take all frames.
fn endless_plan(alloc: Global) -> Result<Plan, Fail> {
    Ok(Plan {
        ring: 1,
        programs: [program(alloc, ACCEPT)?, program(alloc, ACCEPT)?],
        maxima: [usize::MAX, usize::MAX],
    })
}

/// A drawn list of events, each with its channel.
fn drawn_events(
    alloc: Global,
    draws: &mut Draws,
    programs: &[Program],
) -> Result<Vec<(u16, PlainEvent)>, Fail> {
    let mut events = Vec::new(alloc);
    for _ in 0..EVENTS {
        let channel = match draws.below(16) {
            0 => UNKNOWN,
            1..=7 => KNOWN[0],
            _ => KNOWN[1],
        };
        let event = match draws.below(28) {
            0..=7 => {
                let len = drawn_length(draws, &LENGTHS)?.min(MAX_FRAME_LEN);
                PlainEvent::Take(drawn_frame(alloc, draws, len)?)
            }
            8..=10 => PlainEvent::Install(drawn_program(draws, programs)?),
            11..=16 => PlainEvent::Send,
            17..=22 => PlainEvent::Write,
            23..=26 => PlainEvent::Time(drawn_frame(alloc, draws, 0)?.counter),
            _ => PlainEvent::Close,
        };
        events.push((channel, event))?;
    }
    Ok(events)
}

/// Adds events that close both channels, and send and write all that is left of them.
fn add_ending(events: &mut Vec<(u16, PlainEvent)>) -> Result<(), Fail> {
    for &channel in &KNOWN {
        events.push((channel, PlainEvent::Close))?;
        for _ in 0..ROUNDS {
            events.push((channel, PlainEvent::Write))?;
            events.push((channel, PlainEvent::Send))?;
        }
        for _ in 0..3 {
            events.push((channel, PlainEvent::Write))?;
        }
    }
    Ok(())
}

/// Stops unless the core answers each event as the model does, and the same bytes are written; the
/// answers.
fn compare(
    rt: &impl Abort,
    alloc: Global,
    plan: Plan,
    events: Vec<(u16, PlainEvent)>,
) -> Result<Vec<PlainAnswer>, Fail> {
    let (given, written) = given_answers(alloc, &plan, events.as_slice())?;
    let mut world = model_of(alloc, plan)?;
    let mut answers = Vec::new(alloc);
    for (channel, event) in events {
        answers.push(world.step(alloc, channel, event)?)?;
    }
    let first = (0..answers.len()).find(|at| given.get(*at) != answers.get(*at));
    assert_same!(rt; first, None, "the first answer that differs");
    assert_same!(rt; given.len(), answers.len());
    let bytes = world.output(alloc)?;
    assert_same!(rt; written.as_slice(), bytes.as_slice());
    if world.is_written(alloc)? {
        let Ok(recording) = read_recording(alloc, bytes.as_slice()) else {
            return Err("a recording that is read".into());
        };
        let answer = answer_of(alloc, recording.packets())?;
        assert!(rt; matches!(answer, Answer::Yes { .. }), "{answer:?}");
    }
    Ok(answers)
}

/// What the core of a recorder that is made by this plan answers each event, and the bytes that it
/// writes.
fn given_answers(
    alloc: Global,
    plan: &Plan,
    events: &[(u16, PlainEvent)],
) -> Result<(Vec<PlainAnswer>, Vec<u8>), Fail> {
    let specs = specs_of(plan)?;
    if !specs_ok(&specs) || plan.ring == 0 || plan.ring > MAX_RING {
        return Err("channels and a ring that a recorder may have".into());
    }
    let mut world = World::new(alloc, &specs, plan.ring, VERSION, Vec::new(alloc))?;
    let mut given = Vec::new(alloc);
    for (channel, event) in events {
        given.push(core_event(alloc, *channel, event)?)?;
    }
    let mut answers = Vec::new(alloc);
    for answer in run_world(alloc, &mut world, given.as_slice())? {
        answers.push(plain_answer(&answer)?)?;
    }
    Ok((answers, world.out().clone()?))
}

/// The core's settings of the two channels.
fn specs_of(plan: &Plan) -> Result<[ChannelSpec; 2], Fail> {
    let [one, other] = channels();
    Ok([
        ChannelSpec {
            lane: lane_spec(one)?,
            program: Arc::try_clone(&plan.programs[0])?,
            max: plan.maxima[0] as u64,
        },
        ChannelSpec {
            lane: lane_spec(other)?,
            program: Arc::try_clone(&plan.programs[1])?,
            max: plan.maxima[1] as u64,
        },
    ])
}

/// The core's form of an event.
fn core_event(alloc: Global, channel: u16, event: &PlainEvent) -> Result<Event, Fail> {
    Ok(match event {
        PlainEvent::Take(frame) => Event::Take {
            channel,
            frame: frame_of(frame)?.to_owned(alloc)?,
        },
        PlainEvent::Time(counter) => Event::Time {
            channel,
            counter: *counter,
        },
        PlainEvent::Install(program) => Event::Install {
            channel,
            program: Arc::try_clone(program)?,
        },
        PlainEvent::Send => Event::Send { channel },
        PlainEvent::Write => Event::Write { channel },
        PlainEvent::Close => Event::Close { channel },
    })
}

/// The model's form of an answer.
fn plain_answer(answer: &Result<Reply, CoreFault>) -> Result<PlainAnswer, Fail> {
    match answer {
        Ok(reply) => Ok(Ok(plain_reply(*reply))),
        Err(fault) => Ok(Err(refusal_of(fault)?)),
    }
}

/// The model's form of a reply.
fn plain_reply(reply: Reply) -> PlainReply {
    match reply {
        Reply::Took {
            number,
            version,
            value,
        } => PlainReply::Took {
            number: number as usize,
            version: Some(version as usize),
            value: Some(value),
        },
        Reply::Timed => PlainReply::Timed,
        Reply::Installed { version, mark } => PlainReply::Installed {
            version: version as usize,
            mark: mark as usize,
        },
        Reply::Sent(Which::Program(version)) => PlainReply::SentProgram(version as usize),
        Reply::Sent(Which::Frames(count)) => PlainReply::SentFrames(usize::from(count)),
        Reply::Sent(Which::End) => PlainReply::SentEnd,
        Reply::Wrote { bytes } => PlainReply::Wrote {
            bytes: bytes as usize,
        },
        Reply::Closed { offered, kept } => PlainReply::Closed {
            offered: offered as usize,
            kept: kept as usize,
        },
    }
}

/// The model's form of a refusal. Memory and the output work here.
fn refusal_of(fault: &CoreFault) -> Result<Refusal, Fail> {
    Ok(match fault {
        CoreFault::NoChannel => Refusal::NoChannel,
        CoreFault::Closed => Refusal::Closed,
        CoreFault::RingFull => Refusal::RingFull,
        CoreFault::NothingToSend => Refusal::NothingToSend,
        CoreFault::NothingToWrite => Refusal::NothingToWrite,
        CoreFault::VersionsFull => Refusal::VersionsFull,
        CoreFault::CountFull => Refusal::CountFull,
        CoreFault::Output => return Err("an output that works")?,
        CoreFault::Memory => return Err("memory for the core")?,
    })
}

/// The model of a recorder that is made by this plan.
fn model_of(alloc: Global, plan: Plan) -> Result<PlainWorld, Fail> {
    let mut world = PlainWorld::new(alloc, plan.ring, VERSION);
    let channels = channels();
    for ((channel, program), max) in channels.iter().zip(plan.programs).zip(plan.maxima) {
        world.add_channel(alloc, *channel, program, max)?;
    }
    Ok(world)
}

/// The settings of the two channels.
fn channels() -> [Channel; 2] {
    [
        channel(KNOWN[0], 3),
        Channel {
            id: KNOWN[1],
            limit: 20_001,
            net: 0xa7,
            speed: 0xb,
            span: Some(1 << 46),
        },
    ]
}

/// The sort of an answer.
fn sort_of(answer: &PlainAnswer) -> Sort {
    match answer {
        Ok(PlainReply::Took { .. }) => Sort::Took,
        Ok(PlainReply::Timed) => Sort::Timed,
        Ok(PlainReply::Installed { .. }) => Sort::Installed,
        Ok(PlainReply::SentProgram(_)) => Sort::SentProgram,
        Ok(PlainReply::SentFrames(_)) => Sort::SentFrames,
        Ok(PlainReply::SentEnd) => Sort::SentEnd,
        Ok(PlainReply::Wrote { .. }) => Sort::Wrote,
        Ok(PlainReply::Closed { .. }) => Sort::Closed,
        Err(Refusal::NoChannel) => Sort::NoChannel,
        Err(Refusal::Closed) => Sort::WasClosed,
        Err(Refusal::RingFull) => Sort::RingFull,
        Err(Refusal::NothingToSend) => Sort::NothingToSend,
        Err(Refusal::NothingToWrite) => Sort::NothingToWrite,
        Err(Refusal::VersionsFull) => Sort::VersionsFull,
        Err(Refusal::CountFull) => Sort::CountFull,
    }
}

/// A channel of the least limit.
fn channel(id: u16, speed: u8) -> Channel {
    Channel {
        id,
        limit: 16_424,
        net: 0,
        speed,
        span: None,
    }
}

/// The answer to a frame that was taken.
fn took(number: usize, version: usize, value: u32) -> PlainAnswer {
    Ok(PlainReply::Took {
        number,
        version: Some(version),
        value: Some(value),
    })
}

/// The answer to a program that was installed.
fn installed(version: usize, mark: usize) -> PlainAnswer {
    Ok(PlainReply::Installed { version, mark })
}

/// The answer to a piece that was written.
fn wrote(bytes: usize) -> PlainAnswer {
    Ok(PlainReply::Wrote { bytes })
}

/// The answer to the closing of a channel.
fn closed(offered: usize, kept: usize) -> PlainAnswer {
    Ok(PlainReply::Closed { offered, kept })
}

/// Stops unless each event is answered as written down.
fn answer_all(
    rt: &impl Abort,
    alloc: Global,
    world: &mut PlainWorld,
    events: &[(u16, Written, PlainAnswer)],
) -> Result<(), Fail> {
    for (channel, written, want) in events {
        let event = event_of(alloc, *written)?;
        let answer = world.step(alloc, *channel, event)?;
        assert_same!(rt; answer, *want, "{written:?} of {channel}");
    }
    Ok(())
}

/// The event that is written down.
fn event_of(alloc: Global, written: Written) -> Result<PlainEvent, Fail> {
    Ok(match written {
        Written::Take(counter) => PlainEvent::Take(arp_frame(alloc, counter)?),
        Written::Install(listing) => PlainEvent::Install(program(alloc, listing)?),
        Written::Send => PlainEvent::Send,
        Written::Write => PlainEvent::Write,
        Written::Close => PlainEvent::Close,
    })
}

/// The ARP frame with this counter.
fn arp_frame(alloc: Global, counter: u64) -> Result<PlainFrame, Fail> {
    let bytes = joined_bytes(alloc, &[ARP])?;
    if bytes.len() > MAX_FRAME_LEN {
        return Err("a frame's bytes".into());
    }
    Ok(PlainFrame {
        counter,
        crc_error: false,
        frame_error: false,
        bytes,
        times: Vec::new(alloc),
    })
}
