//! Recordings of a few frames, whose sources, control and output wait for one another.

ghost use Rattle.std.specs.Prelude.{◌≡◌, ◌≤◌, [], false};

use super::parts::*;
use super::script::Script;
use crate::shared::counters_of;
use crate::writer::{Output, Then, wide};
use eth_frame::{FeedSource, SourceFault};
use rec_run::*;
use rec_writer::WriteFault;
use std::alloc::Global;
use std::sync::{Arc, Wait};
use std::test::Fail;
use std::thread::Threads;
use test_samples::{all_bytes, assert_same};

const ACCEPT: &str = "1,6 0 0 1,";

const REJECT: &str = "1,6 0 0 0,";

/// The recording of a channel with speed 3 that keeps two frames: its program, a packet of both, and
/// its end.
const TWO_FRAMES: &str = "25eb 0000 40000000 24000000 08 00 03 00 100000000000 a4eb \
    00000000 43425052 0100 0100 00000000 0000000000000000 0100 0000 0600000001000000 4c425152 \
    25eb 0100 5c000000 40000000 08 00 03 68 100000000000 dd53 02000000 \
    100000000000 0000 12000003 ffffffffffff 020000000001 0806 a1b2c3d4 \
    200000000000 0000 12000003 ffffffffffff 020000000001 0806 a1b2c3d4 8f91a191 \
    25eb 0000 38000000 1c000000 08 01 03 00 200000000000 a4ec \
    00000000 43425052 0200 0100 0200000000000000 0200000000000000 49425152";

/// The recording of a channel without a frame.
const NO_FRAME: &str = "25eb 0000 38000000 1c000000 08 00 03 00 000000000000 84eb \
    00000000 43425052 0200 0100 0000000000000000 0000000000000000 45425152";

/// A stage that waits for nothing.
pub(super) fn plain(bytes: Vec<u8>) -> Stage {
    stage_of(bytes, NONE, [NONE, NONE], NONE)
}

/// What is told of a channel: versions, offered, kept and its ending.
type Told4 = (usize, u64, u64, Ending);

/// The stages of up to two frames.
fn feed(alloc: Global, frames: u8) -> Result<Vec<Stage>, Fail> {
    let mut stages = Vec::new(alloc);
    for k in 0..frames {
        stages.push(plain(record_of(alloc, 16 + 16 * (k % 2))?))?;
    }
    Ok(stages)
}

/// Records up to two frames of channel 1 into an output, with no change.
fn two_frames<R: Threads + Wait + Sync>(
    rt: &R,
    alloc: Global,
    frames: u8,
    output: Output,
) -> Result<(Vec<u8>, Option<Told4>, Option<WriteFault>), Fail> {
    let marks = fresh_marks(alloc)?;
    let mut jobs = Vec::new(alloc);
    let source = source(Arc::try_clone(&marks)?, feed(alloc, frames)?);
    jobs.push(job(alloc, 1, ACCEPT, source)?)?;
    let control = fresh_script(alloc, Arc::try_clone(&marks)?, Vec::new(alloc), NONE);
    if !jobs_ok(jobs.as_slice()) {
        return Err("jobs that may be recorded".into());
    }
    match record(rt, alloc, jobs, 64, 8, control, behind_marks(output, marks)) {
        Ok(Done { report, out, .. }) => Ok((
            out.output.bytes,
            first_told(report.channels.as_slice()),
            None,
        )),
        Err(
            RunFault::Write {
                fault,
                report,
                out,
                ..
            },
        ) => Ok((
            out.output.bytes,
            first_told(report.channels.as_slice()),
            Some(fault),
        )),
        Err(_) => Err("a recording")?,
    }
}

/// What is told of the first channel.
fn first_told<S: Drop>(reports: &[ChannelReport<S>]) -> Option<Told4> {
    let report = reports.first()?;
    Some((
        report.versions.len(),
        report.offered,
        report.kept,
        report.ending,
    ))
}

#[test]
fn a_feed_is_recorded(rt: HostRuntime) -> Result<(), Fail> {
    let alloc = rt.alloc();
    for at_once in [usize::MAX, 1] {
        let (bytes, told, fault) = two_frames(&rt, alloc, 2, wide(alloc, at_once))?;
        assert_same!(rt; bytes, all_bytes(alloc, TWO_FRAMES)?);
        assert_same!(rt; told, Some((1, 2, 2, Ending::SourceEnd)));
        assert_same!(rt; fault, None);
    }
    let (bytes, told, _) = two_frames(&rt, alloc, 0, wide(alloc, usize::MAX))?;
    assert_same!(rt; bytes, all_bytes(alloc, NO_FRAME)?);
    assert_same!(rt; told, Some((1, 0, 0, Ending::SourceEnd)));
    Ok(())
}

/// The first packets of the recording are whole, and the frames that are read are those in them.
#[test]
fn an_output_that_fails_cuts_the_recording(rt: HostRuntime) -> Result<(), Fail> {
    let alloc = rt.alloc();
    let all = all_bytes(alloc, TWO_FRAMES)?;
    for &(at_once, then) in &[(usize::MAX, Then::Fails), (1, Then::TakesNone)] {
        for room in 0..212usize {
            let out = Output::new(alloc, room, at_once, then);
            let (bytes, told, fault) = two_frames(&rt, alloc, 2, out)?;
            assert_eq!(rt; bytes.as_slice(), &all[..room.min(all.len())]);
            assert!(rt; told.is_some());
            let (whole, rest, frames): (u64, usize, &[u64]) = match room {
                0..64 => (0, room, &[]),
                64..156 => (1, room - 64, &[]),
                _ => (2, room - 156, &[16, 32]),
            };
            let found = counters_of(alloc, bytes.as_slice(), 1)?;
            assert_eq!(rt; found.as_slice(), frames, "{room} bytes");
            let bytes = rest as u64;
            assert_eq!(rt; fault, Some(WriteFault::Output { whole, bytes }));
        }
    }
    let mut out = wide(alloc, usize::MAX);
    out.flushes_fail = true;
    let (bytes, _, fault) = two_frames(&rt, alloc, 2, out)?;
    assert_eq!(rt; bytes, all);
    let found = counters_of(alloc, bytes.as_slice(), 1)?;
    assert_eq!(rt; found.as_slice(), [16, 32].as_slice());
    assert_eq!(rt; fault, Some(WriteFault::Output { whole: 3, bytes: 0 }));
    Ok(())
}

/// A recording that ends.
pub(super) fn recorded<R: Threads + Wait + Sync>(
    rt: &R,
    alloc: Global,
    jobs: Vec<Job<FeedSource<Stages>>>,
    ring: usize,
    control: Script,
    out: Watched,
) -> Result<Done<FeedSource<Stages>, Script, Watched>, Fail>
    requires ring { (1 ≤ ring) × (ring ≤ 4096) }
    requires given { control.log.given ≡ [] }
    requires told { control.log.answered ≡ [] }
    requires goes_on { control.log.ended ≡ false }
{
    if !jobs_ok(jobs.as_slice()) {
        return Err("jobs that may be recorded".into());
    }
    match record(rt, alloc, jobs, ring, 8, control, out) {
        Ok(done) if !done.control.late => Ok(done),
        _ => Err("a recording that ends, whose control waited for nothing in vain")?,
    }
}

/// What a job's channel is told, and the marks of its versions.
fn told_of<S: Drop>(
    alloc: Global,
    reports: &[ChannelReport<S>],
    at: usize,
) -> Result<(Told4, Vec<u64>), Fail> {
    let report = reports.get(at).ok_or("a report of each channel")?;
    let mut marks = Vec::new(alloc);
    marks.extend_from_slice(report.marks.as_slice())?;
    let told = first_told(&reports[at..]).ok_or("a report of each channel")?;
    Ok((told, marks))
}

/// Channel 2's source waits until the control was told of its change and channel 1's source is
/// asked; channel 1's waits for that frame and for the control's second call, and then, at its end,
/// until a whole packet went out; the output's first write waits for that. So sources are asked in
/// threads of their own, beside the control and the writer, and no lock is held meanwhile.
#[test]
fn sources_control_and_output_wait_for_one_another(rt: HostRuntime) -> Result<(), Fail> {
    const ASKED_1: usize = 0;
    const GAVE_1: usize = 1;
    const ASKED_1_AGAIN: usize = 2;
    const GAVE_2: usize = 3;
    const TOLD: usize = 4;
    const ASKED_CONTROL_AGAIN: usize = 5;
    const PACKET_OUT: usize = 6;
    let alloc = rt.alloc();
    let marks = fresh_marks(alloc)?;
    let frame = record_of(alloc, 16)?;
    let mut first = Vec::new(alloc);
    first.push(stage_of(frame, ASKED_1, [GAVE_2, ASKED_CONTROL_AGAIN], GAVE_1))?;
    first.push(stage_of(Vec::new(alloc), ASKED_1_AGAIN, [PACKET_OUT, NONE], NONE))?;
    let mut second = Vec::new(alloc);
    second.push(stage_of(record_of(alloc, 16)?, NONE, [TOLD, ASKED_1], GAVE_2))?;
    let mut steps = Vec::new(alloc);
    steps.push(end(ASKED_CONTROL_AGAIN, GAVE_1))?;
    steps.push(change(alloc, 2, ACCEPT, NONE)?)?;
    let mut jobs = Vec::new(alloc);
    let source_1 = source(Arc::try_clone(&marks)?, first);
    jobs.push(job(alloc, 1, REJECT, source_1)?)?;
    let source_2 = source(Arc::try_clone(&marks)?, second);
    jobs.push(job(alloc, 2, REJECT, source_2)?)?;
    let control = fresh_script(alloc, Arc::try_clone(&marks)?, steps, TOLD);
    let mut out = output(alloc, marks, usize::MAX);
    out.needs = ASKED_1_AGAIN;
    out.full = 64;
    out.full_mark = PACKET_OUT;
    let done = recorded(&rt, alloc, jobs, 1, control, out)?;
    let reports = done.report.channels.as_slice();
    let (told, marks) = told_of(alloc, reports, 0)?;
    assert_same!(rt; told, (1, 1, 0, Ending::SourceEnd));
    assert_eq!(rt; marks.as_slice(), [0].as_slice());
    let (told, marks) = told_of(alloc, reports, 1)?;
    assert_same!(rt; told, (2, 1, 1, Ending::SourceEnd));
    assert_eq!(rt; marks.as_slice(), [0, 0].as_slice());
    assert_same!(rt; done.report.bytes, done.out.output.bytes.len() as u64);
    Ok(())
}

/// The change comes while the third frame is waited for: it is in force from that frame on.
#[test]
fn a_change_meets_the_frames_after_it(rt: HostRuntime) -> Result<(), Fail> {
    const ASKED_THIRD: usize = 0;
    const TOLD: usize = 1;
    let alloc = rt.alloc();
    let marks = fresh_marks(alloc)?;
    let mut stages = Vec::new(alloc);
    stages.push(plain(record_of(alloc, 16)?))?;
    stages.push(plain(record_of(alloc, 32)?))?;
    stages.push(stage_of(record_of(alloc, 48)?, ASKED_THIRD, [TOLD, NONE], NONE))?;
    let mut steps = Vec::new(alloc);
    steps.push(change(alloc, 1, ACCEPT, ASKED_THIRD)?)?;
    let mut jobs = Vec::new(alloc);
    let source = source(Arc::try_clone(&marks)?, stages);
    jobs.push(job(alloc, 1, REJECT, source)?)?;
    let control = fresh_script(alloc, Arc::try_clone(&marks)?, steps, TOLD);
    let out = output(alloc, marks, usize::MAX);
    let done = recorded(&rt, alloc, jobs, 4, control, out)?;
    let (told, marks) = told_of(alloc, done.report.channels.as_slice(), 0)?;
    assert_same!(rt; told, (2, 3, 1, Ending::SourceEnd));
    assert_eq!(rt; marks.as_slice(), [0, 2].as_slice());
    let want = Answer::Installed {
        version: 1,
        mark: 2,
    };
    assert_same!(rt;
        done.control.log.told().first().map(|told| told.answer),
        Some(want)
    );
    Ok(())
}

/// How a channel of these bytes ends that may have `max` frames.
fn ending_of<R: Threads + Wait + Sync>(
    rt: &R,
    alloc: Global,
    bytes: Vec<u8>,
    max: u64,
) -> Result<Option<Told4>, Fail> {
    let marks = fresh_marks(alloc)?;
    let mut stages = Vec::new(alloc);
    stages.push(plain(bytes))?;
    let mut one = job(alloc, 1, ACCEPT, source(Arc::try_clone(&marks)?, stages))?;
    one.max = max;
    let mut jobs = Vec::new(alloc);
    jobs.push(one)?;
    let control = fresh_script(alloc, Arc::try_clone(&marks)?, Vec::new(alloc), NONE);
    let out = output(alloc, marks, usize::MAX);
    let done = recorded(rt, alloc, jobs, 1, control, out)?;
    Ok(first_told(done.report.channels.as_slice()))
}

/// Two frames, and then the beginning of another record.
fn two_and(alloc: Global, rest: &str) -> Result<Vec<u8>, Fail> {
    let mut bytes = record_of(alloc, 16)?;
    bytes.extend_from_slice(record_of(alloc, 32)?.as_slice())?;
    bytes.extend_from_slice(all_bytes(alloc, rest)?.as_slice())?;
    Ok(bytes)
}

#[test]
fn a_channel_ends_as_its_source_or_at_its_count(rt: HostRuntime) -> Result<(), Fail> {
    let alloc = rt.alloc();
    let cases = &[
        ("", 2, Ending::CountFull),
        ("", 3, Ending::SourceEnd),
        ("10", 9, Ending::SourceFault(SourceFault::Truncated)),
        (
            "100000000000 00 1100",
            9,
            Ending::SourceFault(SourceFault::Length),
        ),
        (
            "100000000000 04 1200",
            9,
            Ending::SourceFault(SourceFault::Marks),
        ),
    ];
    for &(rest, max, ending) in cases {
        let told = ending_of(&rt, alloc, two_and(alloc, rest)?, max)?;
        assert_same!(rt; told, Some((1, 2, 2, ending)));
    }
    let told = ending_of(&rt, alloc, two_and(alloc, "")?, 0)?;
    assert_same!(rt; told, Some((1, 0, 0, Ending::CountFull)));
    Ok(())
}

/// Records two frames on channel 1, whose reader gives at most `most` bytes a call and fails after
/// this number of calls, and the same frames on channel 2: what is told of both, and the recording.
fn beside_a_failing_reader<R: Threads + Wait + Sync>(
    rt: &R,
    alloc: Global,
    most: usize,
    calls: usize,
) -> Result<([Option<Told4>; 2], Vec<u8>), Fail> {
    let marks = fresh_marks(alloc)?;
    let mut jobs = Vec::new(alloc);
    let failing = failing_source(Arc::try_clone(&marks)?, feed(alloc, 2)?, most, calls);
    jobs.push(job(alloc, 1, ACCEPT, failing)?)?;
    let whole = source(Arc::try_clone(&marks)?, feed(alloc, 2)?);
    jobs.push(job(alloc, 2, ACCEPT, whole)?)?;
    let control = fresh_script(alloc, Arc::try_clone(&marks)?, Vec::new(alloc), NONE);
    let out = output(alloc, marks, usize::MAX);
    let Done { report, out, .. } = recorded(rt, alloc, jobs, 1, control, out)?;
    let reports = report.channels.as_slice();
    let told = [
        first_told(reports),
        first_told(reports.get(1..).unwrap_or(&[])),
    ];
    Ok((told, out.output.bytes))
}

/// A record takes two calls, for its head and for its frame, or one for each of its 27 bytes; the
/// last call finds the end.
#[test]
fn a_reader_that_fails_at_any_call_ends_its_channel_alone(rt: HostRuntime) -> Result<(), Fail> {
    let alloc = rt.alloc();
    for &(most, a_record, last) in &[(usize::MAX, 2usize, 4usize), (1, 27, 54)] {
        for calls in 0..=last {
            let ([failed, whole], bytes) = beside_a_failing_reader(&rt, alloc, most, calls)?;
            let taken = calls.checked_div(a_record).unwrap_or(0);
            let count = taken as u64;
            let ending = Ending::SourceFault(SourceFault::Device);
            assert_same!(rt; failed, Some((1, count, count, ending)), "{calls} calls");
            assert_same!(rt; whole, Some((1, 2, 2, Ending::SourceEnd)), "{calls} calls");
            let both = [16, 32];
            let found = counters_of(alloc, bytes.as_slice(), 1)?;
            assert_same!(rt; Some(found.as_slice()), both.get(..taken), "{calls} calls");
            let found = counters_of(alloc, bytes.as_slice(), 2)?;
            assert_same!(rt; found.as_slice(), both.as_slice(), "{calls} calls");
        }
    }
    Ok(())
}
