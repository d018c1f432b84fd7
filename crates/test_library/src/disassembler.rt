//! Tests of what is printed of a program, and that the assembler reads it as that program.

use bpf_asm::assemble;
use bpf_dis::{DisFault, text_of};
use bpf_insn::{Insn, parse_listing};
use std::alloc::{AllocError, Global};
use std::test::Fail;
use test_samples::assert_same;

/// What is printed for a listing: its program's text, or the fault.
fn printed(rt: &HostRuntime, listing: &str) -> Result<String, Fail> {
    let program = parse_listing(rt.alloc(), listing)?;
    match text_of(rt.alloc(), program.as_slice()) {
        Ok(text) => Ok(text),
        Err(fault) => Ok(fault.to_string(rt.alloc())?),
    }
}

/// Whether the text is assembled to the listed program.
fn is_read_again(rt: &HostRuntime, text: &str, listing: &str) -> Result<bool, Fail> {
    let program = parse_listing(rt.alloc(), listing)?;
    Ok(assemble(rt.alloc(), text)?.as_slice() == program.as_slice())
}

#[test]
fn the_worked_examples_are_printed_as_written(rt: HostRuntime) -> Result<(), Fail> {
    let table = &[
        (
            "4,40 0 0 12,21 0 1 2054,6 0 0 4294967295,6 0 0 0,",
            "ldh [12]\njeq #2054,L2,L3\nL2: ret #4294967295\nL3: ret #0\n",
        ),
        ("1,6 1 0 0,", "dis 1 NoForm 0"),
        ("0,", ""),
    ];
    for &(listing, text) in table {
        let answer = printed(&rt, listing)?;
        assert_same!(rt; answer.as_str(), text, "{listing}");
    }
    Ok(())
}

/// Each instruction that is no jump, and its line.
const LINES: [(&str, &str); 40] = [
    ("0 0 0 7", "ld #7"),
    ("32 0 0 12", "ld [12]"),
    ("40 0 0 12", "ldh [12]"),
    ("48 0 0 4294967295", "ldb [4294967295]"),
    ("64 0 0 3", "ld [x + 3]"),
    ("72 0 0 3", "ldh [x + 3]"),
    ("80 0 0 0", "ldb [x + 0]"),
    ("96 0 0 15", "ld M[15]"),
    ("128 0 0 0", "ld len"),
    ("1 0 0 7", "ldx #7"),
    ("97 0 0 3", "ldx M[3]"),
    ("129 0 0 0", "ldx len"),
    ("177 0 0 14", "ldxb 4*([14]&0xf)"),
    ("2 0 0 3", "st M[3]"),
    ("3 0 0 3", "stx M[3]"),
    ("4 0 0 1", "add #1"),
    ("12 0 0 0", "add x"),
    ("20 0 0 1", "sub #1"),
    ("28 0 0 0", "sub x"),
    ("36 0 0 1", "mul #1"),
    ("44 0 0 0", "mul x"),
    ("52 0 0 1", "div #1"),
    ("60 0 0 0", "div x"),
    ("68 0 0 1", "or #1"),
    ("76 0 0 0", "or x"),
    ("84 0 0 1", "and #1"),
    ("92 0 0 0", "and x"),
    ("100 0 0 1", "lsh #1"),
    ("108 0 0 0", "lsh x"),
    ("116 0 0 1", "rsh #1"),
    ("124 0 0 0", "rsh x"),
    ("132 0 0 0", "neg"),
    ("148 0 0 1", "mod #1"),
    ("156 0 0 0", "mod x"),
    ("164 0 0 1", "xor #1"),
    ("172 0 0 0", "xor x"),
    ("6 0 0 1", "ret #1"),
    ("22 0 0 0", "ret a"),
    ("7 0 0 0", "tax"),
    ("135 0 0 0", "txa"),
];

#[test]
fn every_form_that_is_no_jump_has_its_line(rt: HostRuntime) -> Result<(), Fail> {
    for &(insn, line) in &LINES {
        let listing = format!(in rt.alloc(); "1,{insn},")?;
        let text = format!(in rt.alloc(); "{line}\n")?;
        let answer = printed(&rt, listing.as_str())?;
        assert_same!(rt; answer.as_str(), text.as_str(), "{insn}");
        assert!(rt;
            is_read_again(&rt, text.as_str(), listing.as_str())?,
            "{insn}"
        );
    }
    Ok(())
}

#[test]
fn every_jump_has_its_labels(rt: HostRuntime) -> Result<(), Fail> {
    let table = &[
        ("5 0 0 1", "jmp L2\nret #0\nL2: ret a\n"),
        ("21 0 1 7", "jeq #7,L1,L2\nL1: ret #0\nL2: ret a\n"),
        ("29 1 0 0", "jeq x,L2,L1\nL1: ret #0\nL2: ret a\n"),
        ("37 1 1 7", "jgt #7,L2,L2\nret #0\nL2: ret a\n"),
        ("45 0 0 0", "jgt x,L1,L1\nL1: ret #0\nret a\n"),
        ("53 0 1 7", "jge #7,L1,L2\nL1: ret #0\nL2: ret a\n"),
        ("61 0 1 0", "jge x,L1,L2\nL1: ret #0\nL2: ret a\n"),
        ("69 0 1 7", "jset #7,L1,L2\nL1: ret #0\nL2: ret a\n"),
        ("77 0 1 0", "jset x,L1,L2\nL1: ret #0\nL2: ret a\n"),
    ];
    for &(insn, text) in table {
        let listing = format!(in rt.alloc(); "3,{insn},6 0 0 0,22 0 0 0,")?;
        let answer = printed(&rt, listing.as_str())?;
        assert_same!(rt; answer.as_str(), text, "{insn}");
        assert!(rt; is_read_again(&rt, text, listing.as_str())?, "{insn}");
    }
    Ok(())
}

/// A program of this many tests, a jump and a return, in which each instruction but the first has
/// a label, and its text.
fn chain(alloc: Global, tests: u16) -> Result<(Vec<Insn>, String), AllocError> {
    let mut program = Vec::new(alloc);
    let mut text = String::new(alloc);
    for at in 0..u32::from(tests) {
        program.push(Insn {
            code: 0x15,
            jt: 0,
            jf: 1,
            k: at,
        })?;
        let (next, last) = (at + 1, at + 2);
        write!(&mut text, "jeq #{at},L{next},L{last}\nL{next}: ")?;
    }
    program.push(Insn {
        code: 0x05,
        jt: 0,
        jf: 0,
        k: 0,
    })?;
    program.push(Insn {
        code: 0x06,
        jt: 0,
        jf: 0,
        k: 0,
    })?;
    let last = u32::from(tests) + 1;
    write!(&mut text, "jmp L{last}\nL{last}: ret #0\n")?;
    Ok((program, text))
}

#[test]
fn programs_of_4096_and_of_10000_instructions_have_labels_throughout(
    rt: HostRuntime,
) -> Result<(), Fail> {
    for tests in [4_094, 9_998] {
        let (program, text) = chain(rt.alloc(), tests)?;
        let printed = text_of(rt.alloc(), program.as_slice())?;
        assert_same!(rt; printed.as_str(), text.as_str(), "{tests}");
    }
    let (program, text) = chain(rt.alloc(), 4_094)?;
    let assembled = assemble(rt.alloc(), text.as_str())?;
    assert_same!(rt; assembled.as_slice(), program.as_slice());
    Ok(())
}

#[test]
fn the_first_fault_is_reported(rt: HostRuntime) -> Result<(), Fail> {
    let table = &[
        // No form.
        ("1,14 0 0 0,", "dis 1 NoForm 0"),
        ("2,6 0 0 0,65535 0 0 0,", "dis 1 NoForm 1"),
        // Numbers in fields that a text does not show, as a dump of a running filter has them.
        ("1,7 0 0 5,", "dis 1 NoForm 0"),
        ("2,128 0 0 4,22 0 0 0,", "dis 1 NoForm 0"),
        ("2,12 0 0 1,22 0 0 0,", "dis 1 NoForm 0"),
        ("2,29 0 0 1,22 0 0 0,", "dis 1 NoForm 0"),
        ("2,6 0 0 0,22 0 1 0,", "dis 1 NoForm 1"),
        // Jumps to the end or past it.
        ("2,5 0 0 1,6 0 0 0,", "dis 2 JumpOut 0"),
        ("2,5 0 0 4294967295,6 0 0 0,", "dis 2 JumpOut 0"),
        ("2,21 1 0 7,6 0 0 0,", "dis 2 JumpOut 0"),
        ("2,21 0 1 7,6 0 0 0,", "dis 2 JumpOut 0"),
        ("1,21 0 0 7,", "dis 2 JumpOut 0"),
        // The least index, and a wrong field before a jump out.
        ("2,5 0 0 1,14 0 0 0,", "dis 2 JumpOut 0"),
        ("2,14 0 0 0,5 0 0 0,", "dis 1 NoForm 0"),
        ("1,5 1 0 7,", "dis 1 NoForm 0"),
    ];
    for &(listing, fault) in table {
        let answer = printed(&rt, listing)?;
        assert_same!(rt; answer.as_str(), fault, "{listing}");
    }
    assert_same!(rt; DisFault::Memory.to_string(rt.alloc())?.as_str(), "memory");
    Ok(())
}
