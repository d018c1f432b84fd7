//! Times the machine, what is done with a program before it runs, the feed's reader, packets, the sum of a data checksum, the
//! slot, the lane, the writer and whole recordings, and makes a recording for the program to read.
//! The first word names the part, and the others say how much of it is timed; `bench/README.md` has them. Without words
//! it runs a little of each part, and prints what each loop came to.
#![tactic(auto)]

mod clock;
mod feed;
mod lane;
mod machine;
mod packets;
mod programs;
mod recorder;
mod recording;
mod slot;
mod sums;
mod words;
mod writer;

use anyhow::{Result, bail};
use std::env;
use std::sync::Wait;
use std::thread::Threads;

fn main(rt: HostRuntime) -> Result<()> {
    let mut words = Vec::new(rt.alloc());
    for word in env::args(&rt)?.skip(1) {
        words.push(word)?;
    }
    let Some(part) = words.first() else {
        return self_check(&rt, &rt);
    };
    measure(
        &rt,
        &rt,
        part.as_str(),
        words.as_slice().get(1..).unwrap_or(&[]),
    )
}

/// Times one part. A draw waits for the slot's lock, and a recording for its threads, by `waits`.
fn measure<R: Threads + Wait + Sync>(
    rt: &HostRuntime,
    waits: &R,
    part: &str,
    words: &[String],
) -> Result<()> {
    if part == "machine" {
        return machine::measure(rt, words);
    }
    if part == "programs" {
        return programs::measure(rt, words);
    }
    if part == "feed" {
        return feed::measure(rt, words);
    }
    if part == "packets" {
        return packets::measure(rt, words);
    }
    if part == "sums" {
        return sums::measure(rt, words);
    }
    if part == "slot" {
        return slot::measure(rt, waits, words);
    }
    if part == "lane" {
        return lane::measure(rt, words);
    }
    if part == "writer" {
        return writer::measure(rt, words);
    }
    if part == "recorder" {
        return recorder::measure(rt, waits, words);
    }
    if part == "recording" {
        return recording::make(rt, words);
    }
    bail!("no such part: `bench/README.md` has them");
}

/// Runs a little of each part, and prints what each loop came to.
fn self_check<R: Threads + Wait + Sync>(rt: &HostRuntime, waits: &R) -> Result<()> {
    println!(rt; "machine {}", machine::self_check(rt)?)?;
    println!(rt; "programs {}", programs::self_check(rt)?)?;
    println!(rt; "feed {}", feed::self_check(rt)?)?;
    println!(rt; "packets {}", packets::self_check(rt)?)?;
    println!(rt; "sums {}", sums::self_check(rt)?)?;
    println!(rt; "slot {}", slot::self_check(rt, waits)?)?;
    println!(rt; "lane {}", lane::self_check(rt)?)?;
    println!(rt; "writer {}", writer::self_check(rt)?)?;
    println!(rt; "recorder {}", recorder::self_check(waits, rt.alloc())?)?;
    println!(rt; "recording {}", recording::self_check(rt)?)?;
    Ok(())
}
