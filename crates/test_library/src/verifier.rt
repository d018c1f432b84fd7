//! Programs that are valid and programs that are not, each with its first fault.
use bpf_insn::{Insn, SCRATCH_WORDS, parse_listing};
use bpf_verify::*;
use std::alloc::AllocError;
use std::test::Fail;
use test_samples::assert_same;

#[test]
fn a_program_is_refused_with_its_first_fault(rt: HostRuntime) -> Result<(), Fail> {
    let table = &[
        ("0,", "refused 1 Empty"),
        ("1,14 0 0 0,", "refused 3 BadOpcode 0"),
        ("2,2 0 0 16,6 0 0 0,", "refused 4 BadScratch 0"),
        (
            "4,1 0 0 0,0 0 0 8,52 0 0 0,6 0 0 1,",
            "refused 5 ZeroDivisor 2",
        ),
        ("3,5 0 0 1,52 0 0 0,6 0 0 1,", "refused 5 ZeroDivisor 1"),
        ("2,5 0 0 4294967295,6 0 0 0,", "refused 6 JumpOut 0"),
        ("2,6 0 0 0,7 0 0 0,", "refused 7 NoReturn"),
        (UNSET_ON_ONE_BRANCH, "refused 8 Unset 3 0 0 1 3"),
    ];
    for &(text, printed) in table {
        let refused = verify(parse_listing(rt.alloc(), text)?).err().ok_or(text)?;
        assert_same!(rt;
            format!(in rt.alloc(); "{refused}")?.as_str(),
            printed,
            "{text}"
        );
    }
    Ok(())
}

#[test]
fn a_valid_program_is_taken(rt: HostRuntime) -> Result<(), Fail> {
    let table = &[
        ("4,1 0 0 7,3 0 0 15,96 0 0 15,22 0 0 0,", 4),
        ("3,5 0 0 1,96 0 0 3,6 0 0 1,", 3),
        ("3,5 0 0 1,4 0 0 1,6 0 0 0,", 3),
    ];
    for &(text, count) in table {
        let taken = verify(parse_listing(rt.alloc(), text)?)?;
        assert_same!(rt; taken.len(), count, "{text}");
        assert_same!(rt; taken.insns().len(), count, "{text}");
    }
    Ok(())
}

#[test]
fn programs_are_compared_whole(rt: HostRuntime) -> Result<(), Fail> {
    let table = &[
        ("1,6 0 0 1,", "1,6 0 0 1,", true),
        ("1,6 0 0 1,", "1,6 0 0 0,", false),
        ("1,6 0 0 1,", "2,6 0 0 1,6 0 0 1,", false),
    ];
    for &(one, other, same) in table {
        let one = verify(parse_listing(rt.alloc(), one)?)?;
        let other = verify(parse_listing(rt.alloc(), other)?)?;
        assert_same!(rt; one.same(&other), same);
    }
    Ok(())
}

#[test]
fn a_path_shows_an_unset_read_or_not(rt: HostRuntime) -> Result<(), Fail> {
    let program = parse_listing(rt.alloc(), UNSET_ON_ONE_BRANCH)?;
    assert!(rt; check_path(&program, &[0, 1, 3], 0));
    assert!(rt; !check_path(&program, &[0, 1, 2, 3], 0));
    Ok(())
}

#[test]
fn a_program_has_at_most_4096_instructions(rt: HostRuntime) -> Result<(), Fail> {
    assert_same!(rt;
        verify(vec![in rt.alloc(); insn(6, 0, 0); 4_096]?)?.len(),
        4_096
    );
    let refused = verify(vec![in rt.alloc(); insn(6, 0, 0); 4_097]?)
        .err()
        .ok_or("4,097 instructions are taken")?;
    assert_same!(rt; refused.fault, VerifyFault::TooLong);
    assert_same!(rt; refused.program.len(), 4_097);
    Ok(())
}

#[test]
fn the_longest_path_to_an_unset_read_has_4095_indexes(rt: HostRuntime) -> Result<(), Fail> {
    let mut insns = vec![in rt.alloc(); insn(132, 0, 0); 4_094]?;
    insns.push(insn(96, 0, 7))?;
    insns.push(insn(22, 0, 0))?;
    let Refused { program, fault } = verify(insns).err().ok_or("word 7 is unset")?;
    let VerifyFault::Unset { at, word, path } = fault else {
        return Err("word 7 is unset".into());
    };
    assert_same!(rt; (at, word, path.len()), (4_094, 7, 4_095));
    assert!(rt; path.iter().copied().eq(0..4_095));
    assert!(rt; check_path(&program, &path, word));
    assert!(rt; !check_path(&program, &path, 8));
    Ok(())
}

#[test]
fn each_branch_counts_where_branches_meet(rt: HostRuntime) -> Result<(), Fail> {
    assert_same!(rt; verify(branches(&rt, SCRATCH_WORDS as u32)?)?.len(), 4_096);
    let Refused { program, fault } = verify(branches(&rt, 7)?).err().ok_or("word 7 is unset")?;
    let VerifyFault::Unset { at, word, path } = fault else {
        return Err("word 7 is unset".into());
    };
    assert_same!(rt; (at, word), (39, 7));
    assert!(rt; check_path(&program, &path, word));
    Ok(())
}

/// Word 0 is written where the test holds, and read in both cases.
const UNSET_ON_ONE_BRANCH: &str = "5,40 0 0 12,21 0 1 2054,2 0 0 0,96 0 0 0,22 0 0 0,";

/// 818 times a test whose branches each write a scratch word, which is read where they meet, and
/// six returns: 4,096 instructions. The word that is to be left out is written on one branch only.
fn branches(rt: &HostRuntime, left_out: u32) -> Result<Vec<Insn>, AllocError> {
    let mut program = Vec::new(rt.alloc());
    for block in 0..818u32 {
        let word = block % SCRATCH_WORDS as u32;
        program.push(insn(21, 2, block))?;
        program.push(insn(2, 0, word))?;
        program.push(insn(5, 0, 1))?;
        program.push(insn(if word == left_out { 7 } else { 3 }, 0, word))?;
        program.push(insn(96, 0, word))?;
    }
    for _ in 0..6 {
        program.push(insn(6, 0, 0))?;
    }
    Ok(program)
}

fn insn(code: u16, jf: u8, k: u32) -> Insn {
    Insn { code, jt: 0, jf, k }
}
