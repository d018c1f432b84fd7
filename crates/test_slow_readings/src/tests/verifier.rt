//! The verifier beside the slow search, on drawn programs and on a few by hand.

use crate::draws::Draws;
use crate::search::{Verdict, VerdictKind, all_paths, judge, unset_word};
use bpf_insn::Insn;
use bpf_verify::{VerifyFault, check_path, verify};
use std::alloc::{AllocError, Global};
use std::process::Abort;
use std::test::Fail;
use test_samples::assert_same;

/// How many programs a test draws.
const PROGRAMS: usize = 1000;
/// The seed that they are drawn from.
const SEED: u64 = 20260501;
/// How often each kind of verdict has to come up at least.
const FEW: usize = 10;
/// Each list of places is tried with the words below this one, two of which do not exist.
const WORDS: u32 = 18;

/// The verifier and the search judge alike, and each kind of verdict comes up.
#[test]
fn verdicts_agree(rt: HostRuntime) -> Result<(), Fail> {
    let alloc = rt.alloc();
    let mut draws = Draws::from_seed(SEED);
    let mut verdicts = Vec::new(alloc);
    for _ in 0..PROGRAMS {
        let program = draws.program(alloc)?;
        verdicts.push(compare_verdicts(&rt, alloc, program.as_slice())?)?;
    }
    let kinds = &[
        VerdictKind::Valid,
        VerdictKind::BadOpcode,
        VerdictKind::BadScratch,
        VerdictKind::ZeroDivisor,
        VerdictKind::JumpOut,
        VerdictKind::NoReturn,
        VerdictKind::Unset,
    ];
    for &kind in kinds {
        let count = count_of(verdicts.as_slice(), kind);
        assert!(rt; count >= FEW, "{kind:?} came up {count} times");
    }
    Ok(())
}

/// Programs of returns alone: none is too few, and 4,097 are too many.
#[test]
fn verdicts_agree_at_the_least_and_greatest_lengths(rt: HostRuntime) -> Result<(), Fail> {
    let alloc = rt.alloc();
    let table = &[
        (0, VerdictKind::Empty),
        (1, VerdictKind::Valid),
        (4_096, VerdictKind::Valid),
        (4_097, VerdictKind::TooLong),
    ];
    for &(length, kind) in table {
        let program = vec![in alloc; insn(0x06, 0, 0, 0); length]?;
        let verdict = compare_verdicts(&rt, alloc, program.as_slice())?;
        assert_same!(rt; verdict, Verdict::of_whole(kind), "length {length}");
    }
    Ok(())
}

/// `check_path` and the search agree on which lists of places are paths of an unset read.
#[test]
fn paths_agree(rt: HostRuntime) -> Result<(), Fail> {
    let alloc = rt.alloc();
    let mut draws = Draws::from_seed(SEED);
    let mut unset_reads = 0usize;
    for _ in 0..PROGRAMS {
        let program = draws.program(alloc)?;
        let count = compare_paths(&rt, alloc, program.as_slice())?;
        unset_reads = unset_reads.saturating_add(count);
    }
    assert!(rt; unset_reads >= FEW, "{unset_reads} unset reads came up");
    Ok(())
}

/// A store that one side of a test passes over, and then a load; the answers were found by hand.
#[test]
fn a_store_on_one_side_alone_leaves_the_word_unset(rt: HostRuntime) -> Result<(), Fail> {
    let alloc = rt.alloc();
    let program = store_on_one_side();
    let program = program.as_slice();
    let paths = all_paths(alloc, program)?;
    let walked: [&[u16]; 6] = [
        &[0],
        &[0, 1],
        &[0, 1, 2],
        &[0, 1, 2, 3],
        &[0, 2],
        &[0, 2, 3],
    ];
    assert_same!(rt; paths.len(), walked.len());
    for path in walked {
        assert!(rt; is_among(paths.as_slice(), path), "{path:?}");
    }
    let verdict = compare_verdicts(&rt, alloc, program)?;
    assert_same!(rt; verdict, Verdict::of_place(VerdictKind::Unset, 2));
    Ok(())
}

/// The one path of that program's unset read, and lists of places that are none.
#[test]
fn the_path_past_the_store_is_the_only_unset_read(rt: HostRuntime) {
    let program = store_on_one_side();
    let program = program.as_slice();
    assert!(rt; check_path(program, &[0, 2], 3));
    let refused: [&[u16]; 11] = [
        &[],
        &[2],
        &[65535],
        &[0, 65535],
        &[1, 2],
        &[0, 1, 2],
        &[0, 0, 2],
        &[0, 3, 2],
        &[0, 2, 2],
        &[0, 2, 3],
        &[0, 2, 4],
    ];
    for list in refused {
        assert!(rt; !check_path(program, list, 3), "{list:?}");
    }
}

/// `jeq #7, store, load`, then the store, the load and a return.
fn store_on_one_side() -> [Insn; 4] {
    [
        insn(0x15, 0, 1, 7),
        insn(0x02, 0, 0, 3),
        insn(0x60, 0, 0, 3),
        insn(0x16, 0, 0, 0),
    ]
}

/// An instruction by its four fields.
fn insn(code: u16, jt: u8, jf: u8, k: u32) -> Insn {
    Insn { code, jt, jf, k }
}

/// How many verdicts are of a kind.
fn count_of(verdicts: &[Verdict], kind: VerdictKind) -> usize {
    verdicts
        .iter()
        .filter(|verdict| verdict.kind == kind)
        .count()
}

/// Stops unless the verifier agrees with the search on a program; the verdict of both.
fn compare_verdicts(
    rt: &impl Abort,
    alloc: Global,
    program: &[Insn],
) -> Result<Verdict, AllocError> {
    let paths = all_paths(alloc, program)?;
    let expected = judge(program, paths.as_slice());
    match verify(program.to_vec(alloc)?) {
        Ok(verified) => {
            assert_same!(rt; Verdict::of_whole(VerdictKind::Valid), expected, "{program:?}");
            assert_same!(rt; verified.insns(), program);
        }
        Err(refused) => {
            assert_same!(rt; verdict_of(&refused.fault), expected, "{program:?}");
            assert_same!(rt; refused.program.as_slice(), program);
            check_unset(rt, program, paths.as_slice(), &refused.fault);
        }
    }
    Ok(expected)
}

/// A fault without its word and path.
fn verdict_of(fault: &VerifyFault) -> Verdict {
    match fault {
        VerifyFault::Empty => Verdict::of_whole(VerdictKind::Empty),
        VerifyFault::TooLong => Verdict::of_whole(VerdictKind::TooLong),
        VerifyFault::BadOpcode(at) => Verdict::of_place(VerdictKind::BadOpcode, usize::from(*at)),
        VerifyFault::BadScratch(at) => Verdict::of_place(VerdictKind::BadScratch, usize::from(*at)),
        VerifyFault::ZeroDivisor(at) => Verdict::of_place(
            VerdictKind::ZeroDivisor,
            usize::from(*at),
        ),
        VerifyFault::JumpOut(at) => Verdict::of_place(VerdictKind::JumpOut, usize::from(*at)),
        VerifyFault::NoReturn => Verdict::of_whole(VerdictKind::NoReturn),
        VerifyFault::Unset { at, .. } => Verdict::of_place(VerdictKind::Unset, usize::from(*at)),
    }
}

/// Stops unless the path that comes with an unset read is one that the search walked, ends at
/// the place that is told with an unset read of the word that is told, and passes `check_path`.
fn check_unset(rt: &impl Abort, program: &[Insn], paths: &[Vec<u16>], fault: &VerifyFault) {
    let VerifyFault::Unset { at, word, path } = fault else {
        return;
    };
    let path = path.as_slice();
    assert!(rt; is_among(paths, path), "{path:?} in {program:?}");
    assert_same!(rt; path.last().copied(), Some(*at), "{path:?} in {program:?}");
    assert_same!(rt;
        unset_word(program, path),
        Some(*word),
        "{path:?} in {program:?}"
    );
    assert!(rt; check_path(program, path, *word), "{path:?} in {program:?}");
}

/// Stops unless `check_path` agrees with the search on all paths of a program and on many other
/// lists of places; how many of the paths end with an unset read.
fn compare_paths(rt: &impl Abort, alloc: Global, program: &[Insn]) -> Result<usize, AllocError> {
    let paths = all_paths(alloc, program)?;
    let mut unset_reads = 0usize;
    for path in &paths {
        let unset = unset_word(program, path.as_slice());
        compare_list(rt, program, path.as_slice(), unset);
        unset_reads = unset_reads.saturating_add(usize::from(unset.is_some()));
    }
    for list in non_paths(alloc, program.len(), paths.as_slice())? {
        compare_list(rt, program, list.as_slice(), None);
    }
    Ok(unset_reads)
}

/// Stops unless `check_path` says of a list of places that it is the path of an unset read of
/// the word `unset`, where there is one, and of no other word.
fn compare_list(rt: &impl Abort, program: &[Insn], list: &[u16], unset: Option<u32>) {
    for word in (0..WORDS).chain(unset) {
        let expected = unset == Some(word);
        assert_same!(rt;
            check_path(program, list, word),
            expected,
            "{word} {list:?} in {program:?}"
        );
    }
}

/// Whether a list is one of the paths.
fn is_among(paths: &[Vec<u16>], list: &[u16]) -> bool {
    paths.iter().any(|path| path.as_slice() == list)
}

/// Lists of places that are no paths: all rising lists that are not among `paths`, of the places
/// of a program and the one past its end, and each path with its last place once more.
fn non_paths(
    alloc: Global,
    length: usize,
    paths: &[Vec<u16>],
) -> Result<Vec<Vec<u16>>, AllocError> {
    let mut lists = rising_lists(alloc, length)?;
    lists.retain(|list| !is_among(paths, list.as_slice()));
    for path in paths {
        let mut list = path.clone()?;
        if let Some(last) = path.last() {
            list.push(*last)?;
        }
        lists.push(list)?;
    }
    Ok(lists)
}

/// All rising lists of the numbers from 0 to `greatest`.
fn rising_lists(alloc: Global, greatest: usize) -> Result<Vec<Vec<u16>>, AllocError> {
    let mut lists = vec![in alloc; Vec::new(alloc)]?;
    for place in 0..=greatest {
        let place = u16::try_from(place).unwrap_or(u16::MAX);
        let mut longer = Vec::new(alloc);
        for list in &lists {
            let mut list = list.clone()?;
            list.push(place)?;
            longer.push(list)?;
        }
        lists.append(&mut longer)?;
    }
    Ok(lists)
}
