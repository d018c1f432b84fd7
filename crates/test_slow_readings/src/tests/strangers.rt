//! The audit beside its slow reading, on packets that no recorder wrote: their numbers are nearly
//! those that they should be, and stand in any order.

use crate::draws::Draws;
use crate::packets::packet_of;
use crate::pieces::{Holds, ReadPiece, add_number};
use crate::tests::audit::{KINDS, compare, count_of};
use bpf_insn::{Insn, parse_listing};
use std::alloc::Global;
use std::test::Fail;

/// How many lists of packets are drawn.
const LISTS: usize = 4_000;

/// How often each kind of answer has to come up at least.
const FEW: usize = 50;

/// The programs that are drawn.
const PROGRAMS: [&str; 8] = [
    "1,6 0 0 1,",
    "1,6 0 0 1,",
    "1,6 0 0 1,",
    // the first byte
    "2,48 0 0 0,22 0 0 0,",
    "2,48 0 0 0,22 0 0 0,",
    "2,48 0 0 0,22 0 0 0,",
    "1,6 0 0 0,",
    // reads a scratch word that isn't set
    "2,96 0 0 0,22 0 0 0,",
];

/// What a channel's next packets should say.
#[derive(Clone, Copy)]
struct Next {
    version: usize,
    first: usize,
    frames: usize,
}

#[test]
fn answers_agree_on_packets_that_no_recorder_wrote(rt: HostRuntime) -> Result<(), Fail> {
    let alloc = rt.alloc();
    let mut draws = Draws::from_seed(20260704);
    let mut programs = Vec::new(alloc);
    for &listing in &PROGRAMS {
        programs.push(parse_listing(alloc, listing)?)?;
    }
    let mut kinds = Vec::new(alloc);
    for _ in 0..LISTS {
        let bytes = drawn_packets(alloc, &mut draws, programs.as_slice())?;
        let kind = compare(&rt, alloc, bytes.as_slice())?;
        kinds.push(kind.ok_or("a recording that is read")?)?;
    }
    for &kind in &KINDS {
        let count = count_of(kinds.as_slice(), kind);
        assert!(rt; count >= FEW, "{kind:?} came up {count} times");
    }
    Ok(())
}

/// The bytes of a few packets of two channels. Mostly each channel has an end after them.
fn drawn_packets(
    alloc: Global,
    draws: &mut Draws,
    programs: &[Vec<Insn>],
) -> Result<Vec<u8>, Fail> {
    let none = Next {
        version: 0,
        first: 0,
        frames: 0,
    };
    let mut bytes = Vec::new(alloc);
    let mut one = none;
    let mut other = none;
    for _ in 0..draws.below(7) {
        if draws.below(4) > 0 {
            add_drawn(alloc, draws, programs, 1, &mut one, &mut bytes)?;
        } else {
            add_drawn(alloc, draws, programs, 2, &mut other, &mut bytes)?;
        }
    }
    for &(channel, next) in &[(2, other), (1, one)] {
        if draws.below(8) > 0 {
            add_packet(alloc, channel, drawn_end(draws, next), &mut bytes)?;
        }
    }
    Ok(bytes)
}

/// Adds a packet of a program or of frames, and now and then of an end. Mostly a program is the
/// first.
fn add_drawn(
    alloc: Global,
    draws: &mut Draws,
    programs: &[Vec<Insn>],
    channel: u16,
    next: &mut Next,
    bytes: &mut Vec<u8>,
) -> Result<(), Fail> {
    let which = draws.below(16);
    let begins = next.version == 0 && draws.below(8) > 0;
    let holds = match if begins { 1 } else { which } {
        0 => drawn_end(draws, *next),
        1..=7 => {
            let at = usize::from(draws.below(PROGRAMS.len() as u8));
            let version = near(draws, next.version);
            let first = near(draws, next.first);
            next.version = version.saturating_add(1);
            next.first = first.saturating_add(1);
            Holds::Program {
                version,
                first,
                insns: programs.get(at).ok_or("a program")?.clone()?,
            }
        }
        _ => {
            let count = usize::from(draws.below(4));
            next.frames = next.frames.saturating_add(count);
            Holds::Data {
                count,
                body: drawn_body(alloc, draws, count)?,
            }
        }
    };
    add_packet(alloc, channel, holds, bytes)
}

/// The end of a channel that has come so far, with counts that are nearly true.
fn drawn_end(draws: &mut Draws, next: Next) -> Holds {
    Holds::End {
        offered: near(draws, next.first.max(next.frames)),
        kept: near(draws, next.frames),
    }
}

/// A number, or now and then the one before or after it.
fn near(draws: &mut Draws, number: usize) -> usize {
    match draws.below(16) {
        0 => number.saturating_sub(1),
        1 => number.saturating_add(1),
        _ => number,
    }
}

/// Adds the packet that holds this.
fn add_packet(alloc: Global, channel: u16, holds: Holds, bytes: &mut Vec<u8>) -> Result<(), Fail> {
    let piece = ReadPiece {
        channel,
        counter: 0,
        holds,
    };
    bytes.extend_from_slice(packet_of(alloc, &piece, 8, 0)?.as_slice())?;
    Ok(())
}

/// The body of a packet of frames. Now and then a frame begins with 0, is a byte too short, or has
/// another content.
fn drawn_body(alloc: Global, draws: &mut Draws, count: usize) -> Result<Vec<u8>, Fail> {
    let mut body = Vec::new(alloc);
    add_number(&mut body, count as u64, 4)?;
    for _ in 0..count {
        let len = if draws.below(32) == 0 { 17 } else { 18 };
        let content = u64::from(draws.below(32)) / 31;
        let begins = if draws.below(16) == 0 { 0 } else { 7 };
        add_number(&mut body, 0, 8)?;
        add_number(&mut body, len + (content << 28), 4)?;
        add_number(&mut body, begins, 18)?;
    }
    Ok(body)
}
