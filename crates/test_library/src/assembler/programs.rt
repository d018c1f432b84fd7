//! Whole programs: worked examples, faults in their order, and limits.

use super::*;
use std::alloc::{AllocError, Global};
use test_samples::assert_same;

/// Texts, and the instructions of each: code, distances and constant.
const TEXTS: [(&str, &[(u16, u8, u8, u32)]); 5] = [
    (
        "ldh [12]\njne #0x806, drop\nret #-1\ndrop: ret #0",
        &[
            (40, 0, 0, 12),
            (21, 0, 1, 2054),
            (6, 0, 0, u32::MAX),
            (6, 0, 0, 0),
        ],
    ),
    (
        "jle #7, low\nret #0\nlow: ret #1",
        &[(37, 0, 1, 7), (6, 0, 0, 0), (6, 0, 0, 1)],
    ),
    (
        "jeq x,b,a\na: jmp c\n\nb:\n txa\nc: d: ret a",
        &[(29, 1, 0, 0), (5, 0, 0, 1), (135, 0, 0, 0), (22, 0, 0, 0)],
    ),
    ("ret #0x10 /* a\n b */ ; c", &[(6, 0, 0, 16)]),
    ("", &[]),
];

#[test]
fn texts_are_assembled(rt: HostRuntime) -> Result<(), Fail> {
    for &(text, insns) in &TEXTS {
        let mut want = Vec::new(rt.alloc());
        for &(code, jt, jf, k) in insns {
            want.push(insn(code, jt, jf, k))?;
        }
        let assembled = assemble(rt.alloc(), text)?;
        assert_same!(rt; assembled.as_slice(), want.as_slice(), "{text}");
    }
    Ok(())
}

const ASM_FAULTS: [(&str, AsmFault); 23] = [
    ("top: ld #1\njmp top", AsmFault::Backward { line: 2 }),
    ("ld #1\na: jmp a", AsmFault::Backward { line: 2 }),
    ("ld #proto", AsmFault::OperandNotAllowed { line: 1 }),
    ("ldi 08", AsmFault::Number { line: 1 }),
    ("ret #0\nfoo", AsmFault::UnknownMnemonic { line: 2 }),
    ("x:\nx: ret #0", AsmFault::LabelTwice { line: 2 }),
    ("x: y: x: foo", AsmFault::LabelTwice { line: 1 }),
    ("x: ret 08\nx: ret #0", AsmFault::Number { line: 1 }),
    ("x:\nx: ret 08", AsmFault::Number { line: 2 }),
    ("/* ret #0", AsmFault::Syntax { line: 1 }),
    ("ret #0\na:\nb:\n\n; c", AsmFault::Syntax { line: 3 }),
    ("a:", AsmFault::Syntax { line: 1 }),
    ("a:\nfoo", AsmFault::UnknownMnemonic { line: 2 }),
    ("a:\n$", AsmFault::Syntax { line: 2 }),
    ("a:\nb:\na:", AsmFault::LabelTwice { line: 3 }),
    ("jmp b\na:", AsmFault::Syntax { line: 2 }),
    ("ret #0\n\njmp x", AsmFault::LabelMissing { line: 3 }),
    ("jmp x\nret 08", AsmFault::Number { line: 2 }),
    ("a: jeq x,b,a\nret #0", AsmFault::LabelMissing { line: 1 }),
    ("a: jeq x,a,b\nret #0", AsmFault::Backward { line: 1 }),
    (
        "a: jeq #0,c,a\nc: ret #0\njmp d",
        AsmFault::Backward { line: 1 },
    ),
    ("a: jmp c\njmp a\nc: jmp d", AsmFault::Backward { line: 2 }),
    ("a: jne #0,A\nret #0", AsmFault::LabelMissing { line: 1 }),
];

#[test]
fn the_first_fault_of_a_text_is_reported(rt: HostRuntime) {
    for &(text, fault) in &ASM_FAULTS {
        let answer = assemble(rt.alloc(), text);
        assert_same!(rt; answer.err(), Some(fault), "{text}");
    }
}

/// A text of a first line, `count` times `ret #0`, and a last line.
fn padded(alloc: Global, first: &str, count: usize, last: &str) -> Result<String, AllocError> {
    let mut text = String::new(alloc);
    text.push_str(first)?;
    for _ in 0..count {
        text.push_str("ret #0\n")?;
    }
    text.push_str(last)?;
    Ok(text)
}

/// The first instruction of a text.
fn assembled_first(alloc: Global, text: &str) -> Result<Option<Insn>, AsmFault> {
    let program = assemble(alloc, text)?;
    Ok(program.first().copied())
}

#[test]
fn a_test_leads_over_255_instructions_and_a_jump_over_4094(rt: HostRuntime) -> Result<(), Fail> {
    let table = &[
        ("jeq #0,far\n", 255, Ok(Some(insn(21, 255, 0, 0)))),
        ("jne #0,far\n", 255, Ok(Some(insn(21, 0, 255, 0)))),
        ("jeq #0,far\n", 256, Err(AsmFault::TooFar { line: 1 })),
        ("jne #0,far\n", 256, Err(AsmFault::TooFar { line: 1 })),
        ("jmp far\n", 256, Ok(Some(insn(5, 0, 0, 256)))),
        ("jmp far\n", 4_094, Ok(Some(insn(5, 0, 0, 4_094)))),
        ("jmp far\n", 4_095, Err(AsmFault::TooLong)),
    ];
    for &(first, count, answer) in table {
        let text = padded(rt.alloc(), first, count, "far: ret #1")?;
        assert_same!(rt; assembled_first(rt.alloc(), &text), answer);
    }
    Ok(())
}

#[test]
fn a_program_has_at_most_4096_instructions(rt: HostRuntime) -> Result<(), Fail> {
    let text = padded(rt.alloc(), "", 4_096, "")?;
    let program = assemble(rt.alloc(), &text)?;
    assert_same!(rt; program.len(), 4_096);
    let table = &[
        ("ret #1", AsmFault::TooLong),
        ("ret #1\nret 08", AsmFault::TooLong),
        ("ret 08", AsmFault::Number { line: 4_097 }),
        ("x: x: ret #1", AsmFault::LabelTwice { line: 4_097 }),
        ("ret 5", AsmFault::OperandNotAllowed { line: 4_097 }),
        ("ret #1 #2", AsmFault::Syntax { line: 4_097 }),
    ];
    for &(last, fault) in table {
        let text = padded(rt.alloc(), "", 4_096, last)?;
        assert_same!(rt; assembled_first(rt.alloc(), &text), Err(fault));
    }
    Ok(())
}

#[test]
fn labels_of_300_bytes_are_told_apart_by_their_last(rt: HostRuntime) -> Result<(), Fail> {
    let mut name = String::new(rt.alloc());
    for _ in 0..299 {
        name.push('n')?;
    }
    let text = format!(in rt.alloc();
        "jeq #7,{name}a,{name}b\nneg\n{name}b: ret #1\n{name}a: ret #2"
    )?;
    let program = assemble(rt.alloc(), &text)?;
    let expected = [
        insn(21, 2, 1, 7),
        insn(132, 0, 0, 0),
        insn(6, 0, 0, 1),
        insn(6, 0, 0, 2),
    ];
    assert_same!(rt; program.as_slice(), expected.as_slice());
    let text = format!(in rt.alloc(); "jmp {name}\n{name}c: ret #1")?;
    let missing = AsmFault::LabelMissing { line: 1 };
    assert_same!(rt; assemble(rt.alloc(), &text).err(), Some(missing));
    Ok(())
}

#[test]
fn lines_past_1000_are_counted(rt: HostRuntime) -> Result<(), Fail> {
    let mut lines = String::new(rt.alloc());
    for _ in 0..1_200 {
        lines.push_str(" ; no instruction\n")?;
    }
    let text = format!(in rt.alloc(); "jmp far\n{lines}neg\n{lines}far: ret #1")?;
    let program = assemble(rt.alloc(), &text)?;
    let expected = [insn(5, 0, 0, 1), insn(132, 0, 0, 0), insn(6, 0, 0, 1)];
    assert_same!(rt; program.as_slice(), expected.as_slice());
    let table = &[
        ("jmp far", AsmFault::LabelMissing { line: 1_201 }),
        ("ret 08", AsmFault::Number { line: 1_201 }),
    ];
    for &(last, fault) in table {
        let text = format!(in rt.alloc(); "{lines}{last}")?;
        assert_same!(rt; assemble(rt.alloc(), &text).err(), Some(fault));
    }
    Ok(())
}

#[test]
fn each_of_4096_labels_is_found(rt: HostRuntime) -> Result<(), Fail> {
    let mut text = String::new(rt.alloc());
    for at in 0..4_095 {
        let next = at + 1;
        let line = format!(in rt.alloc(); "l{at}: jmp l{next}\n")?;
        text.push_str(&line)?;
    }
    text.push_str("l4095: jeq #0,end\nend: ")?;
    assert_same!(rt;
        assemble(rt.alloc(), &text).err(),
        Some(AsmFault::Syntax { line: 4_097 })
    );
    Ok(())
}

#[test]
fn each_of_4096_lines_leads_over_255_instructions(rt: HostRuntime) -> Result<(), Fail> {
    let tests = 4_096 - 256;
    let mut text = String::new(rt.alloc());
    for at in 0..tests {
        let far = at + 256;
        let line = format!(in rt.alloc(); "l{at}: jeq #{at},l{far}\n")?;
        text.push_str(&line)?;
    }
    for at in tests..4_096 {
        let line = format!(in rt.alloc(); "l{at}: ret #{at}\n")?;
        text.push_str(&line)?;
    }
    let mut expected = Vec::new(rt.alloc());
    for at in 0..tests {
        expected.push(insn(21, 255, 0, at))?;
    }
    for at in tests..4_096 {
        expected.push(insn(6, 0, 0, at))?;
    }
    let program = assemble(rt.alloc(), &text)?;
    assert_same!(rt; program.as_slice(), expected.as_slice());
    Ok(())
}

#[test]
fn each_fault_is_printed_as_its_text(rt: HostRuntime) -> Result<(), Fail> {
    let line = 7;
    let table = &[
        (AsmFault::Syntax { line }, "asm 1 Syntax line 7"),
        (AsmFault::Number { line }, "asm 2 Number line 7"),
        (
            AsmFault::UnknownMnemonic { line },
            "asm 3 UnknownMnemonic line 7",
        ),
        (
            AsmFault::OperandNotAllowed { line },
            "asm 4 OperandNotAllowed line 7",
        ),
        (AsmFault::LabelMissing { line }, "asm 5 LabelMissing line 7"),
        (AsmFault::LabelTwice { line }, "asm 6 LabelTwice line 7"),
        (AsmFault::Backward { line }, "asm 7 Backward line 7"),
        (AsmFault::TooFar { line }, "asm 8 TooFar line 7"),
        (AsmFault::TooLong, "asm 9 TooLong"),
        (AsmFault::Memory, "memory"),
    ];
    for &(fault, printed) in table {
        let text = format!(in rt.alloc(); "{fault}")?;
        assert_same!(rt; text.as_str(), printed);
    }
    Ok(())
}
