//! A slow judge of programs: all their paths as lists, and the conditions in their order.

use bpf_insn::{Form, Insn, Op, Src, form_of};
use std::alloc::{AllocError, Global};

/// The most instructions of a valid program.
const MOST_INSNS: usize = 4_096;
/// How many scratch words there are.
const SCRATCH_WORDS: u32 = 16;

/// What there is to say of a program.
#[derive(Clone, Copy, Debug, PartialEq, Eq)]
pub(crate) enum VerdictKind {
    Valid,
    Empty,
    TooLong,
    BadOpcode,
    BadScratch,
    ZeroDivisor,
    JumpOut,
    NoReturn,
    Unset,
}

/// What is said of a program, and at which place, where it is said of one.
#[derive(Clone, Copy, Debug, PartialEq, Eq)]
pub(crate) struct Verdict {
    pub(crate) kind: VerdictKind,
    pub(crate) at: Option<usize>,
}

impl Verdict {
    /// A verdict that names no place.
    pub(crate) fn of_whole(kind: VerdictKind) -> Verdict {
        Verdict { kind, at: None }
    }

    /// A verdict on the instruction at `at`.
    pub(crate) fn of_place(kind: VerdictKind, at: usize) -> Verdict {
        Verdict { kind, at: Some(at) }
    }
}

/// The first fault of a program, of which `paths` are all paths: its length, then the first
/// instruction that is wrong by itself, then its end, then the first unset read.
pub(crate) fn judge(program: &[Insn], paths: &[Vec<u16>]) -> Verdict {
    if program.is_empty() {
        return Verdict::of_whole(VerdictKind::Empty);
    }
    if program.len() > MOST_INSNS {
        return Verdict::of_whole(VerdictKind::TooLong);
    }
    for (at, insn) in program.iter().enumerate() {
        if let Some(kind) = fault_of(at, *insn, program.len()) {
            return Verdict::of_place(kind, at);
        }
    }
    if !program.last().is_some_and(|insn| returns(*insn)) {
        return Verdict::of_whole(VerdictKind::NoReturn);
    }
    match first_unset_read(program, paths) {
        Some(at) => Verdict::of_place(VerdictKind::Unset, usize::from(at)),
        None => Verdict::of_whole(VerdictKind::Valid),
    }
}

/// What is wrong with the instruction at `at` of a program of `length` instructions: its code
/// has no form, its scratch word does not exist, it divides by the constant 0, or it may jump
/// out of the program.
fn fault_of(at: usize, insn: Insn, length: usize) -> Option<VerdictKind> {
    let Some(form) = form_of(insn) else {
        return Some(VerdictKind::BadOpcode);
    };
    let word = word_read(insn).or(word_written(insn));
    if word.is_some_and(|word| word >= SCRATCH_WORDS) {
        return Some(VerdictKind::BadScratch);
    }
    if matches!(form, Form::Alu(Op::Div | Op::Mod, Src::K)) && insn.k == 0 {
        return Some(VerdictKind::ZeroDivisor);
    }
    let [one, other] = jump_targets(at, insn);
    if one.is_some_and(|target| target >= length) || other.is_some_and(|target| target >= length) {
        return Some(VerdictKind::JumpOut);
    }
    None
}

/// Whether an instruction ends the program.
fn returns(insn: Insn) -> bool {
    matches!(form_of(insn), Some(Form::RetK | Form::RetA))
}

/// The scratch word that an instruction loads.
fn word_read(insn: Insn) -> Option<u32> {
    match form_of(insn) {
        Some(Form::LdMem | Form::LdxMem) => Some(insn.k),
        _ => None,
    }
}

/// The scratch word that an instruction stores to.
fn word_written(insn: Insn) -> Option<u32> {
    match form_of(insn) {
        Some(Form::St | Form::Stx) => Some(insn.k),
        _ => None,
    }
}

/// Where a jump or a test at `at` may lead, be it in the program or not; nowhere for all others.
fn jump_targets(at: usize, insn: Insn) -> [Option<usize>; 2] {
    let next = at.saturating_add(1);
    match form_of(insn) {
        Some(Form::Ja) => [Some(next.saturating_add(insn.k as usize)), None],
        Some(Form::Test(..)) => [
            Some(next.saturating_add(usize::from(insn.jt))),
            Some(next.saturating_add(usize::from(insn.jf))),
        ],
        _ => [None, None],
    }
}

/// The places that may follow `at`, be they in the program or not. Nothing follows a return, nor
/// an instruction without form.
fn successors(at: usize, insn: Insn) -> [Option<usize>; 2] {
    match form_of(insn) {
        None | Some(Form::RetK | Form::RetA) => [None, None],
        Some(Form::Ja | Form::Test(..)) => jump_targets(at, insn),
        Some(_) => [Some(at.saturating_add(1)), None],
    }
}

/// Every path of a program: the lists of places of instructions that begin with 0 and in which
/// each next place may follow the one before. A path need not go on to a return.
pub(crate) fn all_paths(alloc: Global, program: &[Insn]) -> Result<Vec<Vec<u16>>, AllocError> {
    let mut found = Vec::new(alloc);
    if !program.is_empty() {
        let start = vec![in alloc; 0u16]?;
        walk(alloc, program, start, program.len(), &mut found)?;
    }
    Ok(found)
}

/// Adds a path to `found`, and all that go on from it by at most `steps` places, depth first.
/// Paths only go forward, so as many steps as the program is long leave none out.
fn walk(
    alloc: Global,
    program: &[Insn],
    path: Vec<u16>,
    steps: usize,
    found: &mut Vec<Vec<u16>>,
) -> Result<(), AllocError> {
    if steps > 0 {
        for place in followers(alloc, program, path.as_slice())? {
            let mut longer = path.clone()?;
            longer.push(place)?;
            walk(alloc, program, longer, steps - 1, found)?;
        }
    }
    found.push(path)?;
    Ok(())
}

/// The places of instructions that may follow the last place of a path.
fn followers(alloc: Global, program: &[Insn], path: &[u16]) -> Result<Vec<u16>, AllocError> {
    let mut places = Vec::new(alloc);
    let last = path.last().copied().map_or(0, usize::from);
    let Some(insn) = program.get(last) else {
        return Ok(places);
    };
    for successor in successors(last, *insn) {
        let place = successor.and_then(|successor| u16::try_from(successor).ok());
        if let Some(place) = place
            && usize::from(place) < program.len()
            && !places.contains(&place)
        {
            places.push(place)?;
        }
    }
    Ok(places)
}

/// The word that the last instruction of a list loads, where none before it stores to that word.
pub(crate) fn unset_word(program: &[Insn], list: &[u16]) -> Option<u32> {
    let (last, earlier) = list.split_last()?;
    let word = word_read(*program.get(usize::from(*last))?)?;
    for place in earlier {
        if word_written(*program.get(usize::from(*place))?) == Some(word) {
            return None;
        }
    }
    Some(word)
}

/// The first place at which some path ends with an unset read.
fn first_unset_read(program: &[Insn], paths: &[Vec<u16>]) -> Option<u16> {
    let mut first = None;
    for path in paths {
        if unset_word(program, path.as_slice()).is_some()
            && let Some(last) = path.last()
        {
            first = Some(first.map_or(*last, |first: u16| first.min(*last)));
        }
    }
    first
}
