//! Long recordings of many channels, read again.

ghost use Rattle.std.specs.Prelude.{◌≤◌, IfOk, vec_len};

use super::parts::*;
use super::runs::{plain, recorded};
use bpf_machine::run;
use ch11_packet::ReadFrame;
use eth_frame::MAX_FRAME_LEN;
use rec_reader::{Recording, frames_of, read_recording};
use rec_run::*;
use rec_writer::WriteFault;
use std::alloc::Global;
use std::sync::Arc;
use std::test::Fail;
use test_samples::{assert_same, program};

const ACCEPT: &str = "1,6 0 0 1,";

const REJECT: &str = "1,6 0 0 0,";

/// How many frames there are of changing lengths, marks and bytes.
const VARIED: u16 = 10_000;

/// Filters that select, each of a channel.
const SELECTING: [(u16, &str); 3] = [
    // the length of the view is no multiple of 3
    (7, "3,128 0 0 0,148 0 0 3,22 0 0 0,"),
    // byte 14 is below 100; a view of 14 bytes lacks it
    (2, "4,48 0 0 14,53 1 0 100,6 0 0 1,6 0 0 0,"),
    // the last byte of the view is odd
    (
        65_535,
        "6,128 0 0 0,20 0 0 1,7 0 0 0,80 0 0 0,84 0 0 1,22 0 0 0,",
    ),
];

/// The feed of so many ARP frames, whose counters are their numbers.
fn feed(alloc: Global, frames: u16) -> Result<Vec<u8>, Fail> {
    let record = record_of(alloc, 0)?;
    let rest = record.get(2..).ok_or("a record")?;
    let mut feed = Vec::new(alloc);
    for number in 0..frames {
        feed.extend_from_slice(&number.to_le_bytes())?;
        feed.extend_from_slice(rest)?;
    }
    Ok(feed)
}

/// The stages of a source that waits for nothing but a mark, and gives so many frames.
fn stages(alloc: Global, frames: u16, needs: usize) -> Result<Vec<Stage>, Fail> {
    one_stage(alloc, feed(alloc, frames)?, needs)
}

/// The stages of a source that waits for nothing but a mark, and gives this feed.
fn one_stage(alloc: Global, feed: Vec<u8>, needs: usize) -> Result<Vec<Stage>, Fail> {
    let mut stages = Vec::new(alloc);
    let mut one = plain(feed);
    one.needs = [needs, NONE];
    stages.push(one)?;
    Ok(stages)
}

/// The counters of a channel's frames in a recording, in order, if each is over the one before.
fn rising_counters(alloc: Global, bytes: &[u8], channel: u16) -> Result<Option<usize>, Fail> {
    let Ok(recording) = read_recording(alloc, bytes) else {
        return Err("a recording that is read".into());
    };
    let frames = frames_of(alloc, &recording, channel)?;
    let mut last = None;
    for frame in frames.as_slice() {
        if last >= Some(frame.counter) {
            return Ok(None);
        }
        last = Some(frame.counter);
    }
    Ok(Some(frames.len()))
}

/// The bytes of the frame of a number, 18 to 40 of them.
fn varied_frame(alloc: Global, number: u16) -> Result<Vec<u8>, Fail>
    ensures { IfOk result (λ bytes. vec_len bytes ≤ MAX_FRAME_LEN) }
{
    let mut next = (number % 251) as u8;
    let mut bytes = vec![in alloc; 0u8; 18 + usize::from(number % 23)]?;
    for byte in bytes.iter_mut() {
        *byte = next;
        next = next.wrapping_add(37);
    }
    Ok(bytes)
}

/// The marks of the frame of a number, as a feed has them.
fn varied_marks(number: u16) -> u8 {
    marks_of(number % 5 == 0, number % 7 == 0)
}

/// The marks of a frame with or without an error of its check sequence, and another error.
fn marks_of(crc_error: bool, frame_error: bool) -> u8 {
    match (crc_error, frame_error) {
        (false, false) => 0,
        (true, false) => 1,
        (false, true) => 2,
        (true, true) => 3,
    }
}

/// The feed of the frames of all numbers. A frame's counter is its number.
fn varied_feed(alloc: Global) -> Result<Vec<u8>, Fail> {
    let mut feed = Vec::new(alloc);
    for number in 0..VARIED {
        let frame = varied_frame(alloc, number)?;
        feed.extend_from_slice(&number.to_le_bytes())?;
        feed.extend_from_slice(&[0, 0, 0, 0, varied_marks(number)])?;
        feed.extend_from_slice(&u16::try_from(frame.len())?.to_le_bytes())?;
        feed.extend_from_slice(frame.as_slice())?;
    }
    Ok(feed)
}

/// The numbers of the frames that a filter accepts, each without its check sequence.
fn accepted_numbers(alloc: Global, listing: &str) -> Result<Vec<u16>, Fail> {
    let program = program(alloc, listing)?;
    let mut numbers = Vec::new(alloc);
    for number in 0..VARIED {
        let frame = varied_frame(alloc, number)?;
        let view = &frame[..frame.len().saturating_sub(4)];
        if run(&program, view).value != 0 {
            numbers.push(number)?;
        }
    }
    Ok(numbers)
}

/// Whether a frame that was read is the one of a number.
fn is_varied(alloc: Global, read: &ReadFrame<'_>, number: u16) -> Result<bool, Fail> {
    let bytes = varied_frame(alloc, number)?;
    let marks = marks_of(read.crc_error, read.frame_error);
    Ok(
        read.counter == u64::from(number)
            && marks == varied_marks(number)
            && (read.net, read.speed, read.content) == (0, 3, 0)
            && read.bytes == bytes.as_slice(),
    )
}

/// Whether the frames of a channel in a recording are those of these numbers, in order and once
/// each.
fn has_just(
    alloc: Global,
    recording: &Recording<'_>,
    channel: u16,
    numbers: &[u16],
) -> Result<bool, Fail> {
    let frames = frames_of(alloc, recording, channel)?;
    for (frame, number) in frames.iter().zip(numbers) {
        if !is_varied(alloc, frame, *number)? {
            return Ok(false);
        }
    }
    Ok(frames.len() == numbers.len())
}

/// Channel 1 gets 1,100 changes while 64 channels record 1,000 frames each.
#[test]
fn many_channels_record_beside_many_changes(rt: HostRuntime) -> Result<(), Fail> {
    let alloc = rt.alloc();
    let marks = fresh_marks(alloc)?;
    let mut jobs = Vec::new(alloc);
    for channel in 1..=64 {
        let source = source(Arc::try_clone(&marks)?, stages(alloc, 1_000, NONE)?);
        jobs.push(job(alloc, channel, ACCEPT, source)?)?;
    }
    let mut steps = Vec::new(alloc);
    for _ in 0..1_100 {
        steps.push(change(alloc, 1, REJECT, NONE)?)?;
    }
    let control = fresh_script(alloc, Arc::try_clone(&marks)?, steps, NONE);
    let out = output(alloc, marks, usize::MAX);
    let done = recorded(&rt, alloc, jobs, 4_096, control, out)?;
    let told = done.control.log.told();
    let full = told
        .iter()
        .filter(|t| t.answer == Answer::VersionsFull)
        .count();
    assert_same!(rt; (told.len(), full), (1_100, 77));
    for report in done.report.channels.as_slice() {
        let found = rising_counters(alloc, done.out.output.bytes.as_slice(), report.channel)?;
        assert_same!(rt; found.map(|n| n as u64), Some(report.kept));
        let versions = if report.channel == 1 { 1_024 } else { 1 };
        assert_same!(rt; (report.versions.len(), report.offered), (versions, 1_000));
    }
    Ok(())
}

/// 10,000 frames through a ring for one piece, in packets of the least limit; the other channel's
/// source waits in its call until nearly all of them are written.
#[test]
fn a_source_that_waits_holds_up_its_own_channel_alone(rt: HostRuntime) -> Result<(), Fail> {
    const WRITTEN: usize = 0;
    let alloc = rt.alloc();
    let marks = fresh_marks(alloc)?;
    let mut jobs = Vec::new(alloc);
    let waits = source(Arc::try_clone(&marks)?, stages(alloc, 3, WRITTEN)?);
    jobs.push(job(alloc, 1, ACCEPT, waits)?)?;
    let goes_on = source(Arc::try_clone(&marks)?, stages(alloc, 10_000, NONE)?);
    jobs.push(job(alloc, 2, ACCEPT, goes_on)?)?;
    let control = fresh_script(alloc, Arc::try_clone(&marks)?, Vec::new(alloc), NONE);
    let mut out = output(alloc, marks, usize::MAX);
    out.full = 290_000;
    out.full_mark = WRITTEN;
    let done = recorded(&rt, alloc, jobs, 1, control, out)?;
    let bytes = done.out.output.bytes.as_slice();
    assert_same!(rt; rising_counters(alloc, bytes, 1)?, Some(3));
    assert_same!(rt; rising_counters(alloc, bytes, 2)?, Some(10_000));
    Ok(())
}

/// 10,000 frames on each channel, through rings for one piece and in packets of the least limit: of
/// each channel just the frames are read that its filter accepts.
#[test]
fn each_channel_has_the_frames_that_its_filter_accepts(rt: HostRuntime) -> Result<(), Fail> {
    let alloc = rt.alloc();
    let marks = fresh_marks(alloc)?;
    let mut jobs = Vec::new(alloc);
    for &(channel, listing) in &SELECTING {
        let stages = one_stage(alloc, varied_feed(alloc)?, NONE)?;
        let source = source(Arc::try_clone(&marks)?, stages);
        jobs.push(job(alloc, channel, listing, source)?)?;
    }
    let control = fresh_script(alloc, Arc::try_clone(&marks)?, Vec::new(alloc), NONE);
    let out = output(alloc, marks, usize::MAX);
    let done = recorded(&rt, alloc, jobs, 1, control, out)?;
    let Ok(recording) = read_recording(alloc, done.out.output.bytes.as_slice()) else {
        return Err("a recording that is read".into());
    };
    assert_same!(rt; done.report.pieces, recording.packets.len() as u64);
    assert_same!(rt; done.report.channels.len(), SELECTING.len());
    for (report, (channel, listing)) in done.report.channels.iter().zip(SELECTING) {
        let numbers = accepted_numbers(alloc, listing)?;
        let accepted = numbers.len() as u64;
        assert!(rt; (1_000..9_000).contains(&accepted), "{listing} selects");
        let counts = (report.channel, report.offered, report.kept);
        assert_same!(rt; counts, (channel, u64::from(VARIED), accepted));
        assert!(rt; has_just(alloc, &recording, channel, numbers.as_slice())?);
    }
    Ok(())
}

/// The output fails while the worker has much to send: it is stopped.
#[test]
fn a_failed_output_stops_the_workers(rt: HostRuntime) -> Result<(), Fail> {
    let alloc = rt.alloc();
    let marks = fresh_marks(alloc)?;
    let mut jobs = Vec::new(alloc);
    let source = source(Arc::try_clone(&marks)?, stages(alloc, 10_000, NONE)?);
    jobs.push(job(alloc, 1, ACCEPT, source)?)?;
    let control = fresh_script(alloc, Arc::try_clone(&marks)?, Vec::new(alloc), NONE);
    let out = output(alloc, marks, 1_000);
    if !jobs_ok(jobs.as_slice()) {
        return Err("jobs that may be recorded".into());
    }
    let Err(RunFault::Write { fault, report, .. }) = record(&rt, alloc, jobs, 1, 8, control, out)
    else {
        return Err("a recording whose output failed".into());
    };
    assert_same!(rt;
        fault,
        WriteFault::Output {
            whole: 1,
            bytes: 936
        }
    );
    let ending = report.channels.first().map(|channel| channel.ending);
    assert_same!(rt; ending, Some(Ending::Stopped));
    Ok(())
}
