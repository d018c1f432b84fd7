//! The core by lists of events.

ghost use Rattle.std.specs.Prelude.{◌<◌, ◌≤◌};
ghost use Rattle.rec_channel.specs.declared.limits.TheConstants.{MAX_RING};

use crate::shared::{counters_of, settings};
use crate::writer::{Output, Then};
use ch11_packet::MIN_LIMIT;
use eth_frame::Frame;
use rec_core::*;
use std::alloc::Global;
use std::io::{ErrorKind, Write};
use std::process::Abort;
use std::test::Fail;
use test_samples::{CHECKED, all_bytes, assert_same, joined_bytes, program};

/// A broadcast ARP frame without a payload, with its check sequence.
const ARP: &str = "ffffffffffff 020000000001 0806 a1b2c3d4";

/// Accepts each frame.
const ACCEPT: &str = "1,6 0 0 1,";

/// Drops each frame.
const REJECT: &str = "1,6 0 0 0,";

/// What happens on a channel.
#[derive(Clone, Copy)]
enum Step {
    /// The ARP frame comes at a counter.
    Take(u64),
    /// A time mark comes.
    Time(u64),
    /// The program of a listing is installed.
    Install(&'static str),
    Send,
    Write,
    Close,
}

/// A program that drops a frame is followed by one that keeps the next, and all is written.
const INTERLEAVING: [(Step, &str); 13] = [
    (Step::Take(16), "took 0 0 0"),
    (Step::Install(ACCEPT), "installed 1 1"),
    (Step::Take(32), "took 1 1 1"),
    (Step::Send, "sent program 0"),
    (Step::Write, "wrote 64"),
    (Step::Send, "sent program 1"),
    (Step::Write, "wrote 64"),
    (Step::Close, "closed 2 1"),
    (Step::Send, "sent frames 1"),
    (Step::Write, "wrote 64"),
    (Step::Send, "sent end"),
    (Step::Write, "wrote 56"),
    (Step::Write, "refused 5 NothingToWrite"),
];

/// The event of a step on a channel.
fn event_of(alloc: Global, channel: u16, step: Step) -> Result<Event, Fail> {
    Ok(match step {
        Step::Take(counter) => {
            let bytes = all_bytes(alloc, ARP)?;
            let frame = Frame::new(counter, false, false, bytes.as_slice()).ok_or("a frame")?;
            Event::Take {
                channel,
                frame: frame.to_owned(alloc)?,
            }
        }
        Step::Time(counter) => Event::Time { channel, counter },
        Step::Install(listing) => Event::Install {
            channel,
            program: program(alloc, listing)?,
        },
        Step::Send => Event::Send { channel },
        Step::Write => Event::Write { channel },
        Step::Close => Event::Close { channel },
    })
}

/// An answer in words: what was done, with its numbers, or the refusal.
fn words(alloc: Global, answer: &Result<Reply, CoreFault>) -> Result<String, Fail> {
    match answer {
        Ok(reply) => reply_words(alloc, reply),
        Err(fault) => Ok(format!(in alloc; "{fault}")?),
    }
}

/// What was done, with its numbers.
fn reply_words(alloc: Global, reply: &Reply) -> Result<String, Fail> {
    Ok(match reply {
        Reply::Took {
            number,
            version,
            value,
        } => format!(in alloc; "took {number} {version} {value}")?,
        Reply::Timed => String::from_str(alloc, "timed")?,
        Reply::Installed { version, mark } => format!(in alloc; "installed {version} {mark}")?,
        Reply::Sent(Which::Program(version)) => format!(in alloc; "sent program {version}")?,
        Reply::Sent(Which::Frames(count)) => format!(in alloc; "sent frames {count}")?,
        Reply::Sent(Which::End) => String::from_str(alloc, "sent end")?,
        Reply::Wrote { bytes } => format!(in alloc; "wrote {bytes}")?,
        Reply::Closed { offered, kept } => format!(in alloc; "closed {offered} {kept}")?,
    })
}

/// A channel with network identifier 0 and speed 3, whose packets are of the least limit.
pub(crate) fn spec_of(
    alloc: Global,
    channel: u16,
    max: u64,
    listing: &str,
) -> Result<ChannelSpec, Fail> {
    Ok(ChannelSpec {
        lane: settings(channel, MIN_LIMIT)?,
        program: program(alloc, listing)?,
        max,
    })
}

/// A core of these channels, whose packets have data type version 8.
pub(crate) fn core_of<W: Write + Drop>(
    alloc: Global,
    specs: &[ChannelSpec],
    ring: usize,
    out: W,
) -> Result<World<W>, Fail>
    requires some { 0 < ring }
    requires few { ring ≤ MAX_RING }
{
    if !specs_ok(specs) {
        return Err("channels that a core may have".into());
    }
    Ok(World::new(alloc, specs, ring, 8, out)?)
}

/// Does steps on a channel; each answer has to be the one beside the step.
fn run_steps<W: Write + Drop>(
    rt: &impl Abort,
    alloc: Global,
    world: &mut World<W>,
    channel: u16,
    steps: &[(Step, &str)],
) -> Result<(), Fail> {
    let mut events = Vec::new(alloc);
    for (step, _) in steps {
        events.push(event_of(alloc, channel, *step)?)?;
    }
    let answers = run_world(alloc, world, events.as_slice())?;
    assert_same!(rt; answers.len(), steps.len());
    for (answer, (_, want)) in answers.iter().zip(steps) {
        assert_same!(rt; words(alloc, answer)?.as_str(), *want);
    }
    Ok(())
}

#[test]
fn an_interleaving_is_written_to_the_byte(rt: HostRuntime) -> Result<(), Fail> {
    let specs = [spec_of(rt.alloc(), 1, 100, REJECT)?];
    let mut world = core_of(rt.alloc(), &specs, 4, Vec::new(rt.alloc()))?;
    run_steps(&rt, rt.alloc(), &mut world, 1, &INTERLEAVING)?;
    let want = joined_bytes(rt.alloc(), &CHECKED)?;
    assert_same!(rt; world.out().as_slice(), want.as_slice());
    Ok(())
}

/// A mark ahead of the first frame, one that is not due, one that is, and one where nothing is open.
#[test]
fn a_mark_that_is_due_ends_the_packet(rt: HostRuntime) -> Result<(), Fail> {
    let mut spec = spec_of(rt.alloc(), 1, 100, ACCEPT)?;
    spec.lane = spec.lane.with_span(100);
    let specs = [spec];
    let mut world = core_of(rt.alloc(), &specs, 4, Vec::new(rt.alloc()))?;
    let steps = &[
        (Step::Time(7), "timed"),
        (Step::Take(16), "took 0 0 1"),
        (Step::Send, "sent program 0"),
        (Step::Time(115), "timed"),
        (Step::Send, "refused 4 NothingToSend"),
        (Step::Time(116), "timed"),
        (Step::Send, "sent frames 1"),
        (Step::Time(500), "timed"),
        (Step::Send, "refused 4 NothingToSend"),
        (Step::Close, "closed 1 1"),
        (Step::Send, "sent end"),
    ];
    run_steps(&rt, rt.alloc(), &mut world, 1, steps)
}

#[test]
fn refusals_come_in_their_order(rt: HostRuntime) -> Result<(), Fail> {
    let specs = [spec_of(rt.alloc(), 7, 1, ACCEPT)?];
    let mut world = core_of(rt.alloc(), &specs, 1, Vec::new(rt.alloc()))?;
    let steps = &[
        (Step::Take(1), "took 0 0 1"),
        (Step::Take(2), "refused 7 CountFull"),
        (Step::Send, "sent program 0"),
        (Step::Send, "refused 4 NothingToSend"),
        (Step::Close, "closed 1 1"),
        (Step::Send, "refused 3 RingFull"),
        (Step::Close, "refused 2 Closed"),
        (Step::Take(3), "refused 2 Closed"),
        (Step::Time(4), "refused 2 Closed"),
        (Step::Install(REJECT), "installed 1 1"),
    ];
    run_steps(&rt, rt.alloc(), &mut world, 7, steps)?;
    run_steps(
        &rt,
        rt.alloc(),
        &mut world,
        9,
        &[
            (Step::Send, "refused 1 NoChannel"),
            (Step::Take(1), "refused 1 NoChannel"),
            (Step::Time(1), "refused 1 NoChannel"),
            (Step::Install(ACCEPT), "refused 1 NoChannel"),
            (Step::Write, "refused 1 NoChannel"),
            (Step::Close, "refused 1 NoChannel"),
        ],
    )?;
    assert!(rt; world.out().is_empty());
    Ok(())
}

#[test]
fn a_channel_has_1024_versions(rt: HostRuntime) -> Result<(), Fail> {
    let specs = [spec_of(rt.alloc(), 1, 1, ACCEPT)?];
    let mut world = core_of(rt.alloc(), &specs, 1, Vec::new(rt.alloc()))?;
    let install = event_of(rt.alloc(), 1, Step::Install(REJECT))?;
    for number in 1..1024 {
        let installed = Reply::Installed {
            version: number,
            mark: 0,
        };
        assert_same!(rt; world.step(&install), Ok(installed));
    }
    assert_same!(rt; world.step(&install), Err(CoreFault::VersionsFull));
    Ok(())
}

/// The end of a channel with no frame, as its packet with a sequence number and its checksums.
const FIRST_END: &str = "25eb 0000 38000000 1c000000 08 00 03 00 000000000000 84eb \
    00000000 43425052 0200 0200 0000000000000000 0000000000000000 45425252";

const SECOND_END: &str = "25eb 0000 38000000 1c000000 08 01 03 00 000000000000 84ec \
    00000000 43425052 0200 0100 0000000000000000 0000000000000000 45425152";

#[test]
fn channels_are_written_beside_one_another(rt: HostRuntime) -> Result<(), Fail> {
    let specs = [
        spec_of(rt.alloc(), 1, 1, ACCEPT)?,
        spec_of(rt.alloc(), 2, 1, ACCEPT)?,
    ];
    let mut world = core_of(rt.alloc(), &specs, 1, Vec::new(rt.alloc()))?;
    let end = [(Step::Close, "closed 0 0"), (Step::Send, "sent end")];
    run_steps(&rt, rt.alloc(), &mut world, 1, &end)?;
    run_steps(&rt, rt.alloc(), &mut world, 2, &end)?;
    run_steps(&rt, rt.alloc(), &mut world, 2, &[(Step::Write, "wrote 56")])?;
    run_steps(&rt, rt.alloc(), &mut world, 1, &[(Step::Write, "wrote 56")])?;
    let want = joined_bytes(rt.alloc(), &[FIRST_END, SECOND_END])?;
    assert_same!(rt; world.out().as_slice(), want.as_slice());
    Ok(())
}

/// How many bytes are out after each step of the interleaving that writes; 0 for the others.
const ENDS: [usize; 13] = [0, 0, 0, 0, 64, 0, 128, 0, 0, 192, 0, 248, 248];

/// The steps of the interleaving, and what is answered by a core whose output takes `room` bytes: the
/// writes that end past these are refused.
fn cut_steps(alloc: Global, room: usize) -> Result<Vec<(Step, &'static str)>, Fail> {
    let mut steps = Vec::new(alloc);
    for (&(step, want), &end) in INTERLEAVING.iter().zip(&ENDS) {
        let want = if end > room { "refused 8 Output" } else { want };
        steps.push((step, want))?;
    }
    Ok(steps)
}

#[test]
fn an_output_that_fails_holds_its_first_bytes(rt: HostRuntime) -> Result<(), Fail> {
    let want = joined_bytes(rt.alloc(), &CHECKED)?;
    let specs = [spec_of(rt.alloc(), 1, 100, REJECT)?];
    for &(at_once, then) in &[
        (usize::MAX, Then::Fails),
        (1, Then::TakesNone),
        (7, Then::FailsOnce(ErrorKind::Interrupted)),
    ] {
        for room in 0..248 {
            let out = Output::new(rt.alloc(), room, at_once, then);
            let mut world = core_of(rt.alloc(), &specs, 4, out)?;
            let steps = cut_steps(rt.alloc(), room)?;
            run_steps(&rt, rt.alloc(), &mut world, 1, steps.as_slice())?;
            assert_same!(rt; Some(world.out().bytes.as_slice()), want.get(..room));
            let again = [(Step::Write, "refused 8 Output")];
            run_steps(&rt, rt.alloc(), &mut world, 1, &again)?;
            assert_same!(rt; world.out().bytes.len(), room);
            // the frame that was accepted is read where its packet went out whole
            let frames: &[u64] = if room < 192 { &[] } else { &[32] };
            let found = counters_of(rt.alloc(), world.out().bytes.as_slice(), 1)?;
            assert_same!(rt; found.as_slice(), frames, "{room} bytes");
        }
    }
    Ok(())
}

/// Does steps on a channel; each answer has to be the one beside the step. An event that lacked memory
/// is done again: it left the world as it was.
fn done_again<W: Write + Drop>(
    rt: &impl Abort,
    alloc: Global,
    world: &mut World<W>,
    channel: u16,
    steps: &[(Step, &str)],
) -> Result<(), Fail> {
    for (step, want) in steps {
        let event = event_of(alloc, channel, *step)?;
        let answer = match world.step(&event) {
            Err(CoreFault::Memory) => world.step(&event),
            answer => answer,
        };
        assert_same!(rt; words(alloc, &answer)?.as_str(), *want);
    }
    Ok(())
}

/// `dev/trials/long/refused_growth.py` refuses each growth of this test in turn.
#[test]
fn an_event_without_memory_is_done_again(rt: HostRuntime) -> Result<(), Fail> {
    let alloc = rt.alloc();
    let specs = [
        spec_of(alloc, 1, 100, REJECT)?,
        spec_of(alloc, 2, 1, ACCEPT)?,
    ];
    let want = joined_bytes(alloc, &CHECKED)?;
    let mut world = core_of(alloc, &specs, 4, Vec::with_capacity(alloc, want.len())?)?;
    done_again(&rt, alloc, &mut world, 1, &INTERLEAVING)?;
    let close = [(Step::Close, "closed 0 0"), (Step::Send, "sent end")];
    done_again(&rt, alloc, &mut world, 2, &close)?;
    assert_same!(rt; world.out().as_slice(), want.as_slice());
    let events = [Event::Close { channel: 2 }];
    let answers = match run_world(alloc, &mut world, &events) {
        Err(_) => run_world(alloc, &mut world, &events),
        answers => answers,
    };
    let first = answers.as_ref().ok().and_then(|answers| answers.first());
    assert_same!(rt; first, Some(&Err(CoreFault::Closed)));
    Ok(())
}
