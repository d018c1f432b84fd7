//! What is done with a program before it runs: at 512 instructions, and at the most that a program
//! may have.

use crate::clock::{Clock, Work, print};
use crate::words::number;
use anyhow::{Result, bail};
use bpf_asm::assemble;
use bpf_dis::text_of;
use bpf_insn::{Insn, MAX_INSNS, SCRATCH_WORDS};
use bpf_machine::Prepared;
use bpf_verify::{Refused, VerifyFault, check_path, verify};
use std::alloc::{AllocError, Global};

/// The number of instructions of a short program.
const SHORT: usize = 512;

/// How far ahead of a test the instruction stands to which it leads.
const AHEAD: usize = 200;

/// How many instructions the text of the longest program has.
pub(crate) fn self_check(rt: &HostRuntime) -> Result<u64> {
    let insns = tests(rt.alloc(), MAX_INSNS)?;
    let text = text_of(rt.alloc(), insns.as_slice())?;
    Ok(assemble(rt.alloc(), text.as_str())?.len() as u64)
}

/// `programs TURNS`: each call on a short program that many times, and on the longest an eighth of
/// them.
pub(crate) fn measure(rt: &HostRuntime, words: &[String]) -> Result<()> {
    let alloc = rt.alloc();
    let turns = number(words, 0)?;
    for (count, turns) in [(SHORT, turns), (MAX_INSNS, turns / 8)] {
        time_verify(rt, "verify.line", line(alloc, count)?, turns)?;
        time_verify(rt, "verify.tests", tests(alloc, count)?, turns)?;
        time_verify(rt, "verify.scratch", scratch(alloc, count)?, turns)?;
        let insns = unset(alloc, count)?;
        time_unset(rt, insns.as_slice(), turns)?;
        time_path(rt, insns, turns)?;
        time_texts(rt, count, turns)?;
        time_prepare(rt, count, turns)?;
    }
    Ok(())
}

/// Verifies a valid program, a copy each time.
fn time_verify(rt: &HostRuntime, name: &str, insns: Vec<Insn>, turns: u64) -> Result<()> {
    let mut sum = 0u64;
    let clock = Clock::start(rt)?;
    for _ in 0..turns {
        let program = verify(copy_of(rt.alloc(), insns.as_slice())?)?;
        sum = sum.wrapping_add(program.len() as u64);
    }
    let nanos = clock.nanos(rt)?;
    print(
        rt,
        work(name, insns.len().saturating_mul(8), turns, sum),
        nanos,
    )
}

/// Refuses a line whose last read is unset, a copy each time.
fn time_unset(rt: &HostRuntime, insns: &[Insn], turns: u64) -> Result<()> {
    let mut checked = 0u64;
    let clock = Clock::start(rt)?;
    for _ in 0..turns {
        let Err(refused) = verify(copy_of(rt.alloc(), insns)?) else {
            bail!("an unset read is accepted");
        };
        checked = checked.wrapping_add(refused.program.len() as u64);
    }
    let nanos = clock.nanos(rt)?;
    print(
        rt,
        work(
            "verify.unset",
            insns.len().saturating_mul(8),
            turns,
            checked,
        ),
        nanos,
    )
}

/// Checks the path to that read, which has an index for each instruction but the last.
fn time_path(rt: &HostRuntime, insns: Vec<Insn>, turns: u64) -> Result<()> {
    let Err(refused) = verify(insns) else {
        bail!("an unset read is accepted");
    };
    let Refused { program, fault } = refused;
    let VerifyFault::Unset { word, path, .. } = fault else {
        bail!("no unset read");
    };
    let mut paths = 0u64;
    let clock = Clock::start(rt)?;
    for _ in 0..turns {
        paths = paths.wrapping_add(u64::from(check_path(
            program.as_slice(),
            path.as_slice(),
            word,
        )));
    }
    let nanos = clock.nanos(rt)?;
    print(
        rt,
        work("check_path", program.len().saturating_mul(8), turns, paths),
        nanos,
    )
}

/// A line whose last read is of a scratch word that is not set.
fn unset(alloc: Global, count: usize) -> Result<Vec<Insn>, AllocError> {
    let mut insns = vec![in alloc; insn(0x84, 0, 0, 0); count.saturating_sub(2)]?;
    insns.push(insn(0x60, 0, 0, 7))?;
    insns.push(insn(0x16, 0, 0, 0))?;
    Ok(insns)
}

/// Prints a program of tests as its text, and assembles a text with a label a line.
fn time_texts(rt: &HostRuntime, count: usize, turns: u64) -> Result<()> {
    let insns = tests(rt.alloc(), count)?;
    let mut printed = 0u64;
    let clock = Clock::start(rt)?;
    for _ in 0..turns {
        let text = text_of(rt.alloc(), insns.as_slice())?;
        printed = printed.wrapping_add(text.len() as u64);
    }
    let nanos = clock.nanos(rt)?;
    print(
        rt,
        work("text_of", count.saturating_mul(8), turns, printed),
        nanos,
    )?;
    let text = labelled(rt.alloc(), count)?;
    let mut assembled = 0u64;
    let clock = Clock::start(rt)?;
    for _ in 0..turns {
        let program = assemble(rt.alloc(), text.as_str())?;
        assembled = assembled.wrapping_add(program.len() as u64);
    }
    let nanos = clock.nanos(rt)?;
    print(rt, work("assemble", text.len(), turns, assembled), nanos)
}

/// Lays a program of tests out.
fn time_prepare(rt: &HostRuntime, count: usize, turns: u64) -> Result<()> {
    let program = verify(tests(rt.alloc(), count)?)?;
    let mut prepared = Prepared::with_room(rt.alloc())?;
    let clock = Clock::start(rt)?;
    for _ in 0..turns {
        prepared.prepare(&program);
    }
    let nanos = clock.nanos(rt)?;
    print(
        rt,
        work("prepare", count.saturating_mul(8), turns, turns),
        nanos,
    )
}

fn work<'a>(name: &'a str, bytes: usize, count: u64, sum: u64) -> Work<'a> {
    Work {
        name,
        bytes,
        count,
        sum,
    }
}

/// The same instructions in memory of their own.
fn copy_of(alloc: Global, insns: &[Insn]) -> Result<Vec<Insn>, AllocError> {
    let mut copy = Vec::new(alloc);
    copy.extend_from_slice(insns)?;
    Ok(copy)
}

/// Additions in a straight line.
fn line(alloc: Global, count: usize) -> Result<Vec<Insn>, AllocError> {
    let mut insns = vec![in alloc; insn(0x04, 0, 0, 1); count.saturating_sub(1)]?;
    insns.push(insn(0x16, 0, 0, 0))?;
    Ok(insns)
}

/// Tests that lead far ahead, or go on with the next instruction, and two returns.
fn tests(alloc: Global, count: usize) -> Result<Vec<Insn>, AllocError> {
    let mut insns = Vec::new(alloc);
    let last = count.saturating_sub(1);
    for at in 0..count.saturating_sub(2) {
        let far = at.saturating_add(AHEAD).min(last);
        let over = far.saturating_sub(at).saturating_sub(1);
        insns.push(insn(0x15, u8::try_from(over).unwrap_or(u8::MAX), 0, constant(at)))?;
    }
    insns.push(insn(0x06, 0, 0, 1))?;
    insns.push(insn(0x06, 0, 0, 0))?;
    Ok(insns)
}

/// Tests whose two ways each write a scratch word, which is read where they meet, and returns.
fn scratch(alloc: Global, count: usize) -> Result<Vec<Insn>, AllocError> {
    let mut insns = Vec::new(alloc);
    for block in 0..count.saturating_sub(1) / 5 {
        let word = (block % SCRATCH_WORDS) as u32;
        insns.push(insn(0x15, 0, 2, constant(block)))?;
        insns.push(insn(0x02, 0, 0, word))?;
        insns.push(insn(0x05, 0, 0, 1))?;
        insns.push(insn(0x03, 0, 0, word))?;
        insns.push(insn(0x60, 0, 0, word))?;
    }
    for _ in insns.len()..count {
        insns.push(insn(0x06, 0, 0, 0))?;
    }
    Ok(insns)
}

/// The text of such tests, with a label in each line.
fn labelled(alloc: Global, count: usize) -> Result<String, AllocError> {
    let mut text = String::new(alloc);
    let last = count.saturating_sub(1);
    for at in 0..count.saturating_sub(2) {
        let far = at.saturating_add(AHEAD).min(last);
        write!(text, "L{at}: jeq #{at}, L{far}\n")?;
    }
    write!(
        text,
        "L{}: ret #1\nL{last}: ret #0\n",
        count.saturating_sub(2)
    )?;
    Ok(text)
}

/// A number as the constant of an instruction.
fn constant(number: usize) -> u32 {
    u32::try_from(number).unwrap_or(u32::MAX)
}

fn insn(code: u16, jt: u8, jf: u8, k: u32) -> Insn {
    Insn { code, jt, jf, k }
}
