//! Paths to reads of unset scratch words: the check of one, and one found from the masks.
ghost use Rattle.std.specs.Prelude.{ℕ, ◌<◌, ◌≤◌, ◌↔◌, length, IsTrue};
ghost use Rattle.bpf_verify.specs.ControlFlow.{UnsetRead};
ghost use Rattle.bpf_verify.specs.Masks.{ShowsUnset, ArrivesUnset, ArrivesBy};

use crate::flow::{leads_unwritten, reads};
use crate::masks::is_clear;
use arrayvec::ArrayVec;
use bpf_insn::{Insn, MAX_INSNS, SCRATCH_WORDS};

/// Whether a list of indexes shows an unset read of a scratch word: it begins with the first
/// instruction, an edge leads from each index to the next, the last instruction reads the word, and
/// no earlier one writes it. The program may be any list of instructions, valid or not.
pub fn check_path(insns: &[Insn], path: &[u16], word: u32) -> bool
    ensures decides { IsTrue result ↔ UnsetRead insns.now path.now word }
{
    let Some((first, rest)) = path.split_first() else {
        return false;
    };
    let mut at = *first;
    if at != 0 {
        return false;
    }
    'places: for next in rest {
        if !leads_unwritten(insns, at, *next, word) {
            return false;
        }
        at = *next;
    }
    reads(insns, at, word)
}

/// A path to an index on which no earlier instruction writes a scratch word. It is found from its
/// last index back to its first, by the masks of the indexes on the way.
pub(crate) fn path_to(
    insns: &[Insn],
    masks: &[u16; MAX_INSNS],
    at: u16,
    word: u32,
) -> ArrayVec<u16, MAX_INSNS>
    requires masks { ShowsUnset insns.now masks.now }
    requires place { at < length insns.now }
    requires fits { length insns.now ≤ MAX_INSNS }
    requires word { word < SCRATCH_WORDS }
    requires unset { ArrivesUnset insns.now at word }
    ensures { ArrivesBy insns.now at result.items word }
{
    let mut path = ArrayVec::new();
    path.push(at);
    let mut next = at;
    let mut from = at;
    'back: while from > 0 {
        from -= 1;
        if leads_unwritten(insns, from, next, word) && is_clear(masks[usize::from(from)], word) {
            path.push(from);
            next = from;
        }
    }
    path.as_mut_slice().reverse();
    path
}
