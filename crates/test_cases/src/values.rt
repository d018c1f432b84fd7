//! Recordings and scripts with each of their numbers at its least and at its greatest.

use crate::records::show_record;
use crate::run::{Input, NOTHING, run_program, show_run, title};
use crate::scripts::{show_counts, show_script};
use rec_cli::{LockFile, PlacedRead};
use std::alloc::AllocError;
use std::rt::Files;
use std::sync::Wait;
use std::thread::Threads;
use std::{fs, io};

/// The numbers of a recording and of its one channel, each at an end of its range.
struct Extreme {
    /// The settings, of a channel that reads the file `feed`.
    settings: &'static str,
    /// A script's recorder and channel.
    opening: &'static str,
    /// The channel, as a script's events name it.
    channel: &'static str,
    /// How many frames follow one another, and how many bytes each has. The first ones fill packets
    /// to the limit; so would the others, but that the last one has a byte too many.
    frames: &'static [(usize, u16)],
}

/// The network identifier and the speed, which share a word, are at different ends. A packet at the
/// least limit has room for 16,396 bytes of frames, and one at the greatest for 524,256: each frame
/// takes 12 bytes and its own, filled up to an even number.
static EXTREMES: [Extreme; 2] = [
    Extreme {
        settings: "limit = 16424\nring = 1\nversion = 255\n[[channel]]\nid = 1\nnet = 255\nspeed = 0\n\
            feed = \"feed\"\nfilter = \"records/keeps\"\n",
        opening: "recorder 16424 1 255\nchannel 1 255 0 9 1,6 0 0 1,",
        channel: "1",
        frames: &[(1, 16_383), (3, 8_186), (1, 8_187)],
    },
    Extreme {
        settings: "limit = 524284\nring = 4096\nversion = 0\n[[channel]]\nid = 65535\nnet = 0\n\
            speed = 15\nfeed = \"feed\"\nfilter = \"records/keeps\"\n",
        opening: "recorder 524284 4096 0\nchannel 65535 0 15 99 1,6 0 0 1,",
        channel: "65535",
        frames: &[(31, 16_383), (1, 15_968), (31, 16_383), (1, 15_969)],
    },
];

/// The line of a short frame, behind the channel.
const SHORT: &str = " 16 0 ffffffffffff0200000000010806a1b2c3d4";

/// How many pieces a script sends at most.
const PIECES: usize = 6;

/// How many programs a channel may have, and how many long frames there are behind these: with the
/// packets of both 4,097 pieces wait, one more than a ring has room for at most.
const VERSIONS: usize = 1_024;

const LONG_FRAMES: usize = 2_051;

const MAX_RING: usize = 4_096;

/// A frame of this length has no room beside another one in a packet of the least limit.
const LONG_FRAME: u16 = 8_187;

/// For each: the bytes of a recording and of a script of short frames, and the lengths of the packets
/// that long frames fill. Then a ring at its greatest that is full.
pub(crate) fn show_values<R: AllocGlobal + Files + Print + Threads + Wait + Sync>(
    rt: &R,
) -> io::Result<()>
where
    R::File: Send + LockFile + PlacedRead,
    R::Dir: Send,
{
    for extreme in &EXTREMES {
        println!(rt; "# {:?}", extreme.settings)?;
        fs::write(rt, "settings", extreme.settings.as_bytes())?;
        show_short(rt, extreme)?;
        show_filled(rt, extreme)?;
    }
    show_full_ring(rt)
}

/// A recording of short frames, and a script of one, with all bytes.
fn show_short<R: AllocGlobal + Files + Print + Threads + Wait + Sync>(
    rt: &R,
    extreme: &Extreme,
) -> io::Result<()>
where
    R::File: Send + LockFile + PlacedRead,
    R::Dir: Send,
{
    let feed = fs::read(rt, "records/two.feed")?;
    fs::write(rt, "feed", feed.as_slice())?;
    show_record(rt, "settings", "short.ch11", "")?;
    let mut script = String::from_str(rt.alloc(), extreme.opening)?;
    push_event(&mut script, "take", extreme.channel)?;
    script.push_str(SHORT)?;
    push_event(&mut script, "close", extreme.channel)?;
    for word in [
        "send", "send", "write", "write", "send", "write", "send", "write",
    ] {
        push_event(&mut script, word, extreme.channel)?;
    }
    show_script(rt, extreme.opening, script.as_str())
}

/// A recording and a script whose frames fill packets: how many bytes each packet has.
fn show_filled<R: AllocGlobal + Files + Print + Threads + Wait + Sync>(
    rt: &R,
    extreme: &Extreme,
) -> io::Result<()>
where
    R::File: Send + LockFile + PlacedRead,
    R::Dir: Send,
{
    let feed = feed_of(rt, extreme.frames)?;
    fs::write(rt, "feed", feed.as_slice())?;
    show_run(rt, &["record", "settings", "filled.ch11"], NOTHING)?;
    show_run(rt, &["list", "filled.ch11"], NOTHING)?;
    let script = filling_script(rt, extreme)?;
    let words = ["simulate", "-"];
    let run = run_program(rt, &words, Input::Bytes(script.as_bytes()))?;
    title(rt, &words)?;
    for line in run.output().lines() {
        if let Some(digits) = line.strip_prefix("wrote ") {
            println!(rt; "wrote {} bytes", digits.len() / 2)?;
        }
    }
    println!(rt; "= {}, {} bytes of errors", run.status, run.errors().len())
}

/// A script of a ring of 4,096 places, in which one piece more is sent than it has room for: how many
/// lines answer it, of each kind.
fn show_full_ring<R: AllocGlobal + Files + Print + Threads + Wait + Sync>(rt: &R) -> io::Result<()>
where
    R::File: Send + LockFile + PlacedRead,
    R::Dir: Send,
{
    let script = full_ring_script(rt)?;
    println!(rt; "# a full ring of 4096 places")?;
    show_counts(
        rt,
        script.as_str(),
        &["took", "installed", "sent", "refused 3", "refused"],
    )
}

/// The feed of frames of zeros, whose counters are 0.
fn feed_of<R: AllocGlobal>(rt: &R, frames: &[(usize, u16)]) -> Result<Vec<u8>, AllocError> {
    let mut feed = Vec::new(rt.alloc());
    for &(count, len) in frames {
        for _ in 0..count {
            feed.extend_from_slice(&[0; 7])?;
            feed.extend_from_slice(&len.to_le_bytes())?;
            for _ in 0..len {
                feed.push(0)?;
            }
        }
    }
    Ok(feed)
}

/// The script that takes the same frames, and writes all pieces.
fn filling_script<R: AllocGlobal>(rt: &R, extreme: &Extreme) -> Result<String, AllocError> {
    let mut script = String::from_str(rt.alloc(), extreme.opening)?;
    for &(count, len) in extreme.frames {
        for _ in 0..count {
            push_zeros(&mut script, extreme.channel, len)?;
        }
    }
    push_event(&mut script, "close", extreme.channel)?;
    for _ in 0..PIECES {
        push_event(&mut script, "send", extreme.channel)?;
        push_event(&mut script, "write", extreme.channel)?;
    }
    Ok(script)
}

/// The script of [`show_full_ring`]: a short frame for each program, and then long frames.
fn full_ring_script<R: AllocGlobal>(rt: &R) -> Result<String, AllocError> {
    let mut script = String::from_str(rt.alloc(), "recorder 16424 4096 8\n")?;
    script.push_str("channel 1 0 0 9999 1,6 0 0 1,")?;
    for version in 0..VERSIONS {
        if version > 0 {
            script.push_str("\ninstall 1 1,6 0 0 1,")?;
        }
        push_event(&mut script, "take", "1")?;
        script.push_str(SHORT)?;
    }
    for _ in 0..LONG_FRAMES {
        push_zeros(&mut script, "1", LONG_FRAME)?;
    }
    for _ in 0..=MAX_RING {
        push_event(&mut script, "send", "1")?;
    }
    Ok(script)
}

/// The line that takes a frame of zeros.
fn push_zeros(script: &mut String, channel: &str, len: u16) -> Result<(), AllocError> {
    push_event(script, "take", channel)?;
    script.push_str(" 0 0 ")?;
    for _ in 0..len {
        script.push_str("00")?;
    }
    Ok(())
}

/// A line of a script, with the line feed ahead of it.
fn push_event(script: &mut String, word: &str, channel: &str) -> Result<(), AllocError> {
    script.push_str("\n")?;
    script.push_str(word)?;
    script.push_str(" ")?;
    script.push_str(channel)
}
