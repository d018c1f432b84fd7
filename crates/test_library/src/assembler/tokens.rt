//! Tokens: numbers, and the faults of a line's tokens.
use super::*;
use test_samples::assert_same;

#[test]
fn each_spelling_of_a_number_is_read_at_its_limits(rt: HostRuntime) -> Result<(), Fail> {
    let table = &[
        ("ldi 0", 0),
        ("ldi 1", 1),
        ("ldi 4294967295", u32::MAX),
        ("ldi -0", 0),
        ("ldi -1", u32::MAX),
        ("ldi -08", 4_294_967_288),
        ("ldi -2147483648", 2_147_483_648),
        ("ldi 0x0", 0),
        ("ldi 0xfFfFfFfF", u32::MAX),
        ("ldi 0X10", 16),
        ("ldi 0b11111111111111111111111111111111", u32::MAX),
        ("ldi 0B10", 2),
        ("ldi 00", 0),
        ("ldi 017", 15),
        ("ldi 037777777777", u32::MAX),
    ];
    for &(text, k) in table {
        let program = assemble(rt.alloc(), text)?;
        assert_same!(rt;
            program.as_slice(),
            [insn(0x00, 0, 0, k)].as_slice(),
            "{text}"
        );
    }
    Ok(())
}

const TOKEN_FAULTS: [(&str, AsmFault); 21] = [
    ("ldi 08", AsmFault::Number { line: 1 }),
    ("ldi 4294967296", AsmFault::Number { line: 1 }),
    ("ldi -2147483649", AsmFault::Number { line: 1 }),
    ("ldi -0x1", AsmFault::Number { line: 1 }),
    ("ldi 0x", AsmFault::Number { line: 1 }),
    ("ldi 0x100000000", AsmFault::Number { line: 1 }),
    ("ldi 0b", AsmFault::Number { line: 1 }),
    ("ldi 0b2", AsmFault::Number { line: 1 }),
    (
        "ldi 0b100000000000000000000000000000000",
        AsmFault::Number { line: 1 },
    ),
    ("ldi 040000000000", AsmFault::Number { line: 1 }),
    ("ldi 1_000", AsmFault::Number { line: 1 }),
    ("foo 08 $", AsmFault::Number { line: 1 }),
    ("foo $ 08", AsmFault::Syntax { line: 1 }),
    ("/* ret #0", AsmFault::Syntax { line: 1 }),
    ("/*/ ret #0", AsmFault::Syntax { line: 1 }),
    ("ret 08 /* b", AsmFault::Number { line: 1 }),
    ("ret #- 1", AsmFault::Syntax { line: 1 }),
    ("ret / #1", AsmFault::Syntax { line: 1 }),
    ("r\u{e9}t #0", AsmFault::Syntax { line: 1 }),
    ("ret #0 \u{e9}", AsmFault::Syntax { line: 1 }),
    ("\u{c} ret #0", AsmFault::Syntax { line: 1 }),
];

#[test]
fn the_first_fault_of_the_tokens_is_reported(rt: HostRuntime) {
    for &(text, fault) in &TOKEN_FAULTS {
        assert_same!(rt; assemble(rt.alloc(), text).err(), Some(fault), "{text}");
    }
}
