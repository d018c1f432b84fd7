//! Lines: each mnemonic with each of its operands, the faults of both, comments and labels.
use super::*;
use test_samples::assert_same;

const OPERANDS: [(&str, u16, u32); 49] = [
    ("ld [12]", 0x20, 12),
    ("ld [x + 3]", 0x40, 3),
    ("ld [%x+3]", 0x40, 3),
    ("ld M[15]", 0x60, 15),
    ("ld #7", 0x00, 7),
    ("ld len", 0x80, 0),
    ("ld #len", 0x80, 0),
    ("ldi #7", 0x00, 7),
    ("ldi 7", 0x00, 7),
    ("ldh [12]", 0x28, 12),
    ("ldh [x + 3]", 0x48, 3),
    ("ldb [12]", 0x30, 12),
    ("ldb [x + 3]", 0x50, 3),
    ("ldx M[3]", 0x61, 3),
    ("ldx #3", 0x01, 3),
    ("ldx 4*([14]&0xf)", 0xb1, 14),
    ("ldx len", 0x81, 0),
    ("ldx #len", 0x81, 0),
    ("ldxi #3", 0x01, 3),
    ("ldxi 3", 0x01, 3),
    ("ldxb 0b100 * ( [ 14 ] & 017 )", 0xb1, 14),
    ("st M[3]", 0x02, 3),
    ("stx M[3]", 0x03, 3),
    ("add #1", 0x04, 1),
    ("add x", 0x0c, 0),
    ("sub #1", 0x14, 1),
    ("sub %x", 0x1c, 0),
    ("mul #1", 0x24, 1),
    ("mul x", 0x2c, 0),
    ("div #1", 0x34, 1),
    ("div x", 0x3c, 0),
    ("mod #1", 0x94, 1),
    ("mod x", 0x9c, 0),
    ("and #1", 0x54, 1),
    ("and x", 0x5c, 0),
    ("or #1", 0x44, 1),
    ("or x", 0x4c, 0),
    ("xor #1", 0xa4, 1),
    ("xor x", 0xac, 0),
    ("lsh #1", 0x64, 1),
    ("lsh x", 0x6c, 0),
    ("rsh #1", 0x74, 1),
    ("rsh x", 0x7c, 0),
    ("neg", 0x84, 0),
    ("tax", 0x07, 0),
    ("txa", 0x87, 0),
    ("ret #1", 0x06, 1),
    ("ret a", 0x16, 0),
    ("ret %a", 0x16, 0),
];

#[test]
fn every_mnemonic_takes_each_of_its_operands(rt: HostRuntime) -> Result<(), Fail> {
    for &(text, code, k) in &OPERANDS {
        let program = assemble(rt.alloc(), text)?;
        assert_same!(rt;
            program.as_slice(),
            [insn(code, 0, 0, k)].as_slice(),
            "{text}"
        );
    }
    Ok(())
}

/// Jumps to the labels `t` and `f`, and the instruction of each: its code, its distances where its test
/// holds and where it doesn't, and its constant.
const JUMPS: [(&str, (u16, u8, u8, u32)); 18] = [
    ("jmp t", (0x05, 0, 0, 1)),
    ("ja f", (0x05, 0, 0, 2)),
    ("jeq #7,t,f", (0x15, 1, 2, 7)),
    ("jeq x, t, f", (0x1d, 1, 2, 0)),
    ("jeq #7,t", (0x15, 1, 0, 7)),
    ("jeq %x,t", (0x1d, 1, 0, 0)),
    ("jgt #7,t,f", (0x25, 1, 2, 7)),
    ("jgt x,t", (0x2d, 1, 0, 0)),
    ("jge #7,t,f", (0x35, 1, 2, 7)),
    ("jge x,t", (0x3d, 1, 0, 0)),
    ("jset #7,t,f", (0x45, 1, 2, 7)),
    ("jset x,t", (0x4d, 1, 0, 0)),
    ("jneq #7,f", (0x15, 0, 2, 7)),
    ("jne x,f", (0x1d, 0, 2, 0)),
    ("jlt #7,f", (0x35, 0, 2, 7)),
    ("jlt x,f", (0x3d, 0, 2, 0)),
    ("jle #7,f", (0x25, 0, 2, 7)),
    ("jle %x,f", (0x2d, 0, 2, 0)),
];

#[test]
fn every_jump_takes_each_of_its_operands(rt: HostRuntime) -> Result<(), Fail> {
    for &(jump, (code, jt, jf, k)) in &JUMPS {
        let text = format!(in rt.alloc(); "{jump}\nret #0\nt: ret #1\nf: ret #2")?;
        let program = assemble(rt.alloc(), text.as_str())?;
        assert_same!(rt; program.first(), Some(&insn(code, jt, jf, k)), "{jump}");
    }
    Ok(())
}

const LINE_FAULTS: [(&str, AsmFault); 30] = [
    ("foo", AsmFault::UnknownMnemonic { line: 1 }),
    ("RET #0", AsmFault::UnknownMnemonic { line: 1 }),
    ("ret: foo [", AsmFault::UnknownMnemonic { line: 1 }),
    ("5", AsmFault::Syntax { line: 1 }),
    (": ret #0", AsmFault::Syntax { line: 1 }),
    ("ld #proto", AsmFault::OperandNotAllowed { line: 1 }),
    ("ld", AsmFault::OperandNotAllowed { line: 1 }),
    ("ret x", AsmFault::OperandNotAllowed { line: 1 }),
    ("ret 5", AsmFault::OperandNotAllowed { line: 1 }),
    ("ret %x", AsmFault::OperandNotAllowed { line: 1 }),
    ("add %a", AsmFault::OperandNotAllowed { line: 1 }),
    ("tax 5", AsmFault::OperandNotAllowed { line: 1 }),
    ("jmp #4", AsmFault::OperandNotAllowed { line: 1 }),
    ("jmp %x", AsmFault::OperandNotAllowed { line: 1 }),
    ("jmp #len", AsmFault::OperandNotAllowed { line: 1 }),
    ("jmp x,t", AsmFault::OperandNotAllowed { line: 1 }),
    ("jeq #1", AsmFault::OperandNotAllowed { line: 1 }),
    ("jne #1,t,f", AsmFault::OperandNotAllowed { line: 1 }),
    ("ldx 4*([14]&0xe)", AsmFault::OperandNotAllowed { line: 1 }),
    ("ldx 8*([14]&0xf)", AsmFault::OperandNotAllowed { line: 1 }),
    ("jeq t,f", AsmFault::Syntax { line: 1 }),
    ("jeq #t,f", AsmFault::Syntax { line: 1 }),
    ("jeq #1,t,f,f", AsmFault::Syntax { line: 1 }),
    ("ld [y + 3]", AsmFault::Syntax { line: 1 }),
    ("ld [%a + 3]", AsmFault::Syntax { line: 1 }),
    ("ld m[3]", AsmFault::Syntax { line: 1 }),
    ("ld #%x", AsmFault::Syntax { line: 1 }),
    ("ret #1 #2", AsmFault::Syntax { line: 1 }),
    ("ret #1 a: ret #2", AsmFault::Syntax { line: 1 }),
    ("ret a :", AsmFault::Syntax { line: 1 }),
];

#[test]
fn the_first_fault_after_the_tokens_is_reported(rt: HostRuntime) {
    for &(text, fault) in &LINE_FAULTS {
        assert_same!(rt; assemble(rt.alloc(), text).err(), Some(fault), "{text}");
    }
}

/// Texts with comments and line feeds, and how many times `ret #16` each has.
const COMMENTS: [(&str, usize); 8] = [
    ("ret #0x10 /* a\n b */ ; c", 1),
    ("ret #16\r\nret #16\r\n", 2),
    ("ret #16 ; /* a\nret #16", 2),
    ("ret #16 ; */ a\nret #16", 2),
    ("/* ;\n; */ ret #16", 1),
    ("/* ; */ ret #16 ; \u{e9}\n", 1),
    ("/* \u{e9} **/ret/**/#16\n\n", 1),
    ("/* \n * / */ ret #16", 1),
];

#[test]
fn comments_are_blanks_and_a_line_feed_ends_a_line(rt: HostRuntime) -> Result<(), Fail> {
    let ret = insn(0x06, 0, 0, 16);
    let twice = [ret, ret];
    for &(text, count) in &COMMENTS {
        let program = assemble(rt.alloc(), text)?;
        assert_same!(rt; Some(program.as_slice()), twice.get(..count), "{text}");
    }
    for &(text, fault) in &[
        ("; ret #16\n foo", AsmFault::UnknownMnemonic { line: 2 }),
        ("ret #16\n/* a", AsmFault::Syntax { line: 2 }),
    ] {
        assert_same!(rt; assemble(rt.alloc(), text).err(), Some(fault), "{text}");
    }
    Ok(())
}

#[test]
fn labels_stand_before_the_instruction(rt: HostRuntime) -> Result<(), Fail> {
    for label in ["ret", "_x1"] {
        let text = format!(in rt.alloc(); "jmp {label}\nret: _x1 :ret a")?;
        let program = assemble(rt.alloc(), text.as_str())?;
        let want = [insn(0x05, 0, 0, 0), insn(0x16, 0, 0, 0)];
        assert_same!(rt; program.as_slice(), want.as_slice(), "{label}");
    }
    Ok(())
}
