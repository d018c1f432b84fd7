//! The draws of a shared slot that no other thread uses.

use crate::clock::{Clock, Work, print};
use crate::words::number;
use anyhow::{Context, Result};
use bpf_insn::parse_listing;
use bpf_verify::verify;
use rec_channel::{DrawnSince, Front, SharedSlot, Slot};
use std::sync::{Arc, Wait};

/// The sum of the numbers of a hundred draws of each kind.
pub(crate) fn self_check<R: Wait>(rt: &HostRuntime, waits: &R) -> Result<u64> {
    let slot = slot_of(rt, 200)?;
    Ok(draw(waits, &slot, 100)?.wrapping_add(draw_since(waits, &slot, 100)?))
}

/// `slot DRAWS`: that many draws, and as many of a caller that has the program already.
pub(crate) fn measure<R: Wait>(rt: &HostRuntime, waits: &R, words: &[String]) -> Result<()> {
    let draws = number(words, 0)?;
    let slot = slot_of(rt, draws)?;
    let clock = Clock::start(rt)?;
    let sum = draw(waits, &slot, draws)?;
    print_draws(rt, &clock, "slot.draw", draws, sum)?;
    let slot = slot_of(rt, draws)?;
    let clock = Clock::start(rt)?;
    let sum = draw_since(waits, &slot, draws)?;
    print_draws(rt, &clock, "slot.draw_since", draws, sum)
}

fn print_draws(rt: &HostRuntime, clock: &Clock, name: &str, count: u64, sum: u64) -> Result<()> {
    let nanos = clock.nanos(rt)?;
    let work = Work {
        name,
        bytes: 0,
        count,
        sum,
    };
    print(rt, work, nanos)
}

/// A slot that may have `max` frames.
fn slot_of(rt: &HostRuntime, max: u64) -> Result<SharedSlot> {
    let listing = parse_listing(rt.alloc(), "1,6 0 0 1,")?;
    let program = verify(listing).ok().context("a valid program")?;
    let program = Arc::new(rt.alloc(), program)?;
    Ok(SharedSlot::new(Slot::new(rt.alloc(), program, max)?))
}

/// The sum of the numbers of `draws` draws, modulo 2^64.
fn draw<R: Wait>(rt: &R, slot: &SharedSlot, draws: u64) -> Result<u64> {
    let mut front = Front::START;
    let mut sum = 0u64;
    for _ in 0..draws {
        let (drawn, after) = slot.draw(rt, &front)?;
        sum = sum.wrapping_add(drawn.number);
        front = after;
    }
    Ok(sum)
}

/// The same of draws that give the program of a new version alone.
fn draw_since<R: Wait>(rt: &R, slot: &SharedSlot, draws: u64) -> Result<u64> {
    let mut front = Front::START;
    let mut sum = 0u64;
    for _ in 0..draws {
        let number = match slot.draw_since(rt, &mut front)? {
            DrawnSince::NoVersion(number) => number,
            DrawnSince::LaterVersion(drawn) => drawn.number,
        };
        sum = sum.wrapping_add(number);
    }
    Ok(sum)
}
