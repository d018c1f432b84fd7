//! The filter machine on a file of frames.

ghost use Rattle.std.specs.Prelude.{◌<◌, IsSome};

use crate::clock::{Clock, Work, print};
use crate::words::{number, word};
use anyhow::{Context, Result, bail};
use bpf_insn::parse_listing;
use bpf_machine::{MAX_VIEW, Prepared, run};
use bpf_verify::{Verified, verify};
use std::io::{BufWriter, Write};
use std::{fs, io};

/// Loads, arithmetic and tests in a straight line.
const BUILT_IN: &str =
    "8,40 0 0 12,21 0 0 2054,4 0 0 7,7 0 0 0,84 0 0 255,12 0 0 0,69 0 0 1,22 0 0 0,";

/// How many times a program is laid out, to time it.
const LAID_OUT: u64 = 1000;

/// The sum of the values that a built-in program returns.
pub(crate) fn self_check(rt: &HostRuntime) -> Result<u64> {
    let program = program_of(rt, BUILT_IN)?;
    let mut prepared = Prepared::with_room(rt.alloc())?;
    prepared.prepare(&program);
    let (sum, _) = total(&program, &[7; 6400], 64, 5);
    Ok(sum.wrapping_add(values(&prepared, &[7; 6400], 64, 5)))
}

/// `machine time LISTING FRAMES LENGTH TURNS` cuts the file FRAMES into frames of that length, and
/// runs the listed program on each of them, TURNS times over. `machine values LISTING FRAMES
/// LENGTH` prints the value for each frame, a line each.
pub(crate) fn measure(rt: &HostRuntime, words: &[String]) -> Result<()> {
    let listing = fs::read_to_string(rt, word(words, 1)?)?;
    let program = program_of(rt, listing.as_str())?;
    let frames = fs::read(rt, word(words, 2)?)?;
    let length = (number(words, 3)? as usize).max(1);
    let command = word(words, 0)?;
    if command == "values" {
        return print_values(rt, &program, frames.as_slice(), length);
    }
    if command == "time" {
        return time(rt, &program, frames.as_slice(), length, number(words, 4)?);
    }
    bail!("the machine has the commands time and values");
}

/// Prints what a frame took by the program that is laid out and by the program itself, each with
/// the sum of the values; the steps of a frame; and what it took to lay the program out.
fn time(
    rt: &HostRuntime,
    program: &Verified,
    frames: &[u8],
    length: usize,
    turns: u64,
) -> Result<()>
    requires { 0 < length }
{
    let mut prepared = Prepared::with_room(rt.alloc())?;
    let clock = Clock::start(rt)?;
    for _ in 0..LAID_OUT {
        prepared.prepare(program);
    }
    let laid_out = clock.nanos(rt)?;
    prepared.prepare(program);
    let clock = Clock::start(rt)?;
    let sum = values(&prepared, frames, length, turns);
    let by_value = clock.nanos(rt)?;
    let clock = Clock::start(rt)?;
    let (same, steps) = total(program, frames, length, turns);
    let by_run = clock.nanos(rt)?;
    let count = ((frames.len() / length) as u64)
        .saturating_mul(turns)
        .max(1);
    let frame = |name, sum| Work {
        name,
        bytes: length,
        count,
        sum,
    };
    print(rt, frame("machine.frame", sum), by_value)?;
    print(rt, frame("machine.run", same), by_run)?;
    let step = Work {
        name: "machine.step",
        bytes: 0,
        count: steps,
        sum: steps / count,
    };
    print(rt, step, by_run)?;
    let prepare = Work {
        name: "machine.prepare",
        bytes: 8 * program.len(),
        count: LAID_OUT,
        sum: LAID_OUT,
    };
    print(rt, prepare, laid_out)
}

fn print_values(rt: &HostRuntime, program: &Verified, frames: &[u8], length: usize) -> Result<()>
    requires { 0 < length }
{
    let mut prepared = Prepared::with_room(rt.alloc())?;
    prepared.prepare(program);
    let mut out = BufWriter::new(rt.alloc(), io::writer(rt))?;
    for frame in frames.chunks(length) {
        if frame.len() <= MAX_VIEW {
            writeln!(out, "{}", prepared.value(frame))?;
        }
    }
    out.flush()?;
    Ok(())
}

/// The sum of the values over all frames and turns, and that of the steps, modulo 2^64.
fn total(program: &Verified, frames: &[u8], length: usize, turns: u64) -> (u64, u64)
    requires { 0 < length }
{
    let mut values = 0u64;
    let mut steps = 0u64;
    for _ in 0..turns {
        for frame in frames.chunks(length) {
            if frame.len() <= MAX_VIEW {
                let outcome = run(program, frame);
                values = values.wrapping_add(u64::from(outcome.value));
                steps = steps.wrapping_add(u64::from(outcome.steps));
            }
        }
    }
    (values, steps)
}

/// The sum of the values over all frames and turns, modulo 2^64.
fn values(prepared: &Prepared, frames: &[u8], length: usize, turns: u64) -> u64
    requires length { 0 < length }
    requires prepared { IsSome prepared.now }
{
    let mut values = 0u64;
    for _ in 0..turns {
        for frame in frames.chunks(length) {
            if frame.len() <= MAX_VIEW {
                values = values.wrapping_add(u64::from(prepared.value(frame)));
            }
        }
    }
    values
}

/// A listing's program, which must be valid.
fn program_of(rt: &HostRuntime, listing: &str) -> Result<Verified> {
    let program = parse_listing(rt.alloc(), listing)?;
    verify(program).ok().context("the program is not valid")
}
