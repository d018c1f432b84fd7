//! Programs with the value that they return on a view and the number of steps, worked by hand.

ghost use Rattle.std.specs.Prelude.{◌≤◌, length};

use bpf_insn::{Insn, parse_listing};
use bpf_machine::*;
use bpf_verify::verify;
use std::alloc::Global;
use std::process::Abort;
use std::test::Fail;
use test_samples::assert_same;

/// The ARP filter: accepts frames whose EtherType is 0x0806.
const ARP: &str = "4,40 0 0 12,21 0 1 2054,6 0 0 4294967295,6 0 0 0,";

/// The part of an ARP frame that a program sees.
const VIEW: &str = "ffffffffffff0200000000010806";

#[test]
fn a_program_returns_its_value_in_its_steps(rt: HostRuntime) -> Result<(), Fail> {
    let table = &[
        (ARP, VIEW, 4_294_967_295, 3),
        (ARP, "ffffffffffff0200000000010800", 0, 3),
        // a load outside the view
        ("2,32 0 0 60,6 0 0 1,", VIEW, 0, 1),
        ("2,48 0 0 0,6 0 0 1,", "", 0, 1),
        // an offset past 32 bits is outside too
        ("3,1 0 0 4294967295,80 0 0 1,6 0 0 1,", VIEW, 0, 2),
        // a division by an X of 0
        ("4,1 0 0 0,0 0 0 8,60 0 0 0,6 0 0 1,", "", 0, 3),
        // shifts of 32 and of 31, a difference below 0
        ("3,0 0 0 1,100 0 0 32,22 0 0 0,", "", 0, 3),
        ("3,0 0 0 1,100 0 0 31,22 0 0 0,", "", 2_147_483_648, 3),
        ("3,0 0 0 0,20 0 0 1,22 0 0 0,", "", 4_294_967_295, 3),
        // a scratch word, and one that is read where no path leads
        ("4,1 0 0 7,3 0 0 15,96 0 0 15,22 0 0 0,", "", 7, 4),
        ("3,5 0 0 1,96 0 0 3,6 0 0 1,", "", 1, 2),
        // the length of an IPv4 header, and that of the view
        (
            "3,177 0 0 14,135 0 0 0,22 0 0 0,",
            "ffffffffffff020000000001080045",
            20,
            3,
        ),
        ("2,128 0 0 0,22 0 0 0,", VIEW, 14, 2),
    ];
    for &(listing, view, value, steps) in table {
        let program = verify(parse_listing(rt.alloc(), listing)?)?;
        let view = hex::decode(rt.alloc(), view)?;
        assert!(rt; view.len() <= MAX_VIEW);
        let outcome = Outcome { value, steps };
        assert_same!(rt; run(&program, view.as_slice()), outcome, "{listing}");
        let mut prepared = Prepared::with_room(rt.alloc())?;
        prepared.prepare(&program);
        assert_same!(rt; prepared.value(view.as_slice()), value, "{listing}");
    }
    Ok(())
}

#[test]
fn the_longest_view_has_16379_bytes(rt: HostRuntime) -> Result<(), Fail> {
    let length = verify(parse_listing(rt.alloc(), "2,128 0 0 0,22 0 0 0,")?)?;
    let view = vec![in rt.alloc(); 0u8; MAX_VIEW]?;
    let outcome = Outcome {
        value: 16_379,
        steps: 2,
    };
    assert_same!(rt; run(&length, view.as_slice()), outcome);
    Ok(())
}

#[test]
fn the_longest_line_of_instructions_takes_4096_steps(rt: HostRuntime) -> Result<(), Fail> {
    let mut insns = vec![in rt.alloc(); insn(ADD, 1); 4_095]?;
    insns.push(insn(RET_A, 0))?;
    let program = verify(insns)?;
    let outcome = Outcome {
        value: 4_095,
        steps: 4_096,
    };
    assert_same!(rt; run(&program, &[]), outcome);
    let mut prepared = Prepared::with_room(rt.alloc())?;
    prepared.prepare(&program);
    assert_same!(rt; prepared.value(&[]), 4_095);
    prepared.prepare(&verify(parse_listing(rt.alloc(), ARP)?)?);
    assert_same!(rt; prepared.value(&[]), 0);
    Ok(())
}

/// Bytes of which each load of a test takes another number.
static BYTES: [u8; 8] = [0, 1, 0x82, 3, 4, 5, 6, 0x47];

/// What a load takes: its code for absolute offsets and for those behind X, the bytes that it takes,
/// and the number that they write.
const LOADS: [(u16, u16, usize, u32); 3] = [
    (0x20, 0x40, 4, 0x8203_0405),
    (0x28, 0x48, 2, 0x8203),
    (0x30, 0x50, 1, 0x82),
];

/// The offset of what they take.
const OFFSET: u8 = 2;

/// Tests of 77: a code, a constant, and whether it holds.
const TESTS: [(u16, u32, bool); 8] = [
    (0x15, 77, true),
    (0x15, 76, false),
    (0x25, 76, true),
    (0x25, 77, false),
    (0x35, 77, true),
    (0x35, 78, false),
    (0x45, 4, true),
    (0x45, 2, false),
];

/// Operations of 77 and 6: their codes with a constant and with X, and what they give.
const OPERATIONS: [(u16, u16, u32); 10] = [
    (0x04, 0x0c, 83),
    (0x14, 0x1c, 71),
    (0x24, 0x2c, 462),
    (0x34, 0x3c, 12),
    (0x44, 0x4c, 79),
    (0x54, 0x5c, 4),
    (0x64, 0x6c, 4928),
    (0x74, 0x7c, 1),
    (0x94, 0x9c, 5),
    (0xa4, 0xac, 75),
];

const LD: u16 = 0x00;

const LDX: u16 = 0x01;

const JA: u16 = 0x05;
/// Adds a constant to A.
const ADD: u16 = 0x04;

const RET_K: u16 = 0x06;

const RET_A: u16 = 0x16;

#[test]
fn each_load_and_store_alone_does_its_part(rt: HostRuntime) -> Result<(), Fail> {
    let alloc = rt.alloc();
    let listings = &[
        ("2,0 0 0 7,22 0 0 0,", 7),
        ("2,128 0 0 0,22 0 0 0,", 8),
        ("3,129 0 0 0,135 0 0 0,22 0 0 0,", 8),
        ("3,177 0 0 7,135 0 0 0,22 0 0 0,", 28),
        ("5,0 0 0 7,2 0 0 15,0 0 0 1,96 0 0 15,22 0 0 0,", 7),
        ("6,1 0 0 7,3 0 0 3,1 0 0 1,97 0 0 3,135 0 0 0,22 0 0 0,", 7),
        ("5,0 0 0 7,7 0 0 0,0 0 0 1,135 0 0 0,22 0 0 0,", 7),
        ("3,0 0 0 77,132 0 0 0,22 0 0 0,", 4_294_967_219),
        ("3,5 0 0 1,6 0 0 1,6 0 0 2,", 2),
    ];
    for &(listing, value) in listings {
        let insns = parse_listing(alloc, listing)?;
        returns(&rt, alloc, insns.as_slice(), &BYTES, value)?;
    }
    for &(absolute, indexed, size, value) in &LOADS {
        let absolute = [insn(absolute, u32::from(OFFSET)), insn(RET_A, 0)];
        let indexed = [insn(LDX, 1), insn(indexed, 1), insn(RET_A, 0)];
        for &(cut, value) in &[(0, value), (1, 0)] {
            let view = shown(size, cut);
            returns(&rt, alloc, &absolute, view, value)?;
            returns(&rt, alloc, &indexed, view, value)?;
        }
    }
    Ok(())
}

#[test]
fn each_operation_and_test_alone_does_its_part(rt: HostRuntime) -> Result<(), Fail> {
    let alloc = rt.alloc();
    for &(with_k, with_x, value) in &OPERATIONS {
        let with_k = [insn(LD, 77), insn(with_k, 6), insn(RET_A, 0)];
        let with_x = [insn(LDX, 6), insn(LD, 77), insn(with_x, 0), insn(RET_A, 0)];
        returns(&rt, alloc, &with_k, &[], value)?;
        returns(&rt, alloc, &with_x, &[], value)?;
    }
    let [yes, no] = [insn(RET_K, 1), insn(RET_K, 2)];
    for &(code, k, holds) in &TESTS {
        let value = if holds { 1 } else { 2 };
        let with_k = [insn(LD, 77), test(code, 0, 1, k), yes, no];
        let with_x = [insn(LDX, k), insn(LD, 77), test(code | 8, 0, 1, 0), yes, no];
        returns(&rt, alloc, &with_k, &[], value)?;
        returns(&rt, alloc, &with_x, &[], value)?;
    }
    Ok(())
}

#[test]
fn a_load_and_its_test_are_their_two_instructions(rt: HostRuntime) -> Result<(), Fail> {
    let alloc = rt.alloc();
    let [yes, no] = [insn(RET_K, 1), insn(RET_K, 2)];
    for &(load, _, size, word) in &LOADS {
        for &(code, k, holds) in &TESTS {
            let value = if holds { 1 } else { 2 };
            // `k` is to the word what it is to 77; of a set bit it is the word's own, or none
            let k = match code {
                0x45 if holds => word,
                0x45 => 0,
                _ => word.wrapping_add(k).wrapping_sub(77),
            };
            let test = test(code, 0, 1, k);
            let pair = [insn(load, u32::from(OFFSET)), test, yes, no];
            // a jump to the test, past a load outside
            let into = [insn(LD, word), insn(JA, 1), insn(load, 9), test, yes, no];
            returns(&rt, alloc, &pair, &BYTES, value)?;
            returns(&rt, alloc, &pair, shown(size, 0), value)?;
            returns(&rt, alloc, &pair, shown(size, 1), 0)?;
            returns(&rt, alloc, &pair, &[], 0)?;
            returns(&rt, alloc, &into, &[], value)?;
        }
    }
    Ok(())
}

#[test]
fn two_tests_are_their_two_instructions(rt: HostRuntime) -> Result<(), Fail> {
    let alloc = rt.alloc();
    let [one, two, three] = [insn(RET_K, 1), insn(RET_K, 2), insn(RET_K, 3)];
    let second = test(0x15, 2, 0, 6);
    for &(a, joined, past, into) in &[(5, 2, 2, 1), (6, 3, 1, 3), (7, 1, 1, 1)] {
        let ld = insn(LD, a);
        // the first's false way leads to the second, and past it; and a jump to the second
        let next = [ld, test(0x15, 2, 0, 5), second, one, two, three];
        let over = [ld, test(0x15, 2, 1, 5), second, one, two, three];
        let jump = [ld, insn(JA, 1), next[1], second, one, two, three];
        returns(&rt, alloc, &next, &[], joined)?;
        returns(&rt, alloc, &over, &[], past)?;
        returns(&rt, alloc, &jump, &[], into)?;
    }
    Ok(())
}

/// The bytes up to the last that a load of this size takes, without so many.
fn shown(size: usize, cut: usize) -> &'static [u8]
    ensures { length result.now ≤ 8 }
{
    let end = size.saturating_add(usize::from(OFFSET)).saturating_sub(cut);
    BYTES.get(..end).unwrap_or(&[])
}

/// An instruction without a jump of its own but by `k`.
fn insn(code: u16, k: u32) -> Insn {
    test(code, 0, 0, k)
}

/// A test.
fn test(code: u16, jt: u8, jf: u8, k: u32) -> Insn {
    Insn { code, jt, jf, k }
}

/// A program returns this value on a view, as it is and laid out.
fn returns(
    rt: &impl Abort,
    alloc: Global,
    insns: &[Insn],
    view: &[u8],
    value: u32,
) -> Result<(), Fail>
    requires { length view.now ≤ MAX_VIEW }
{
    let program = verify(Vec::from_slice(alloc, insns)?)?;
    let mut prepared = Prepared::with_room(alloc)?;
    prepared.prepare(&program);
    assert_same!(rt; prepared.value(view), value, "{insns:?} on {view:?}");
    assert_same!(rt; run(&program, view).value, value, "{insns:?} on {view:?}");
    Ok(())
}
