//! Which scratch words are unwritten at each index: a mask an index, found in one forward pass,
//! since edges lead forward only.
ghost use Rattle.std.specs.Prelude.{ℕ, ◌≡◌, ◌≢◌, ◌^◌, ◌<◌, ◌⊎◌, ◌↔◌, length, Some, slice_index, slice_set, replicate, IfSome, IfNone, IsTrue};
ghost use Rattle.bpf_insn.specs.Flow.{FormLeads};
ghost use Rattle.bpf_insn.specs.Uses.{FormWritesWord};
ghost use Rattle.bpf_verify.specs.ControlFlow.{ReadsWord};
ghost use Rattle.bpf_verify.specs.Flaws.{IsWellFormed, NoUnsetReadBelow};
ghost use Rattle.bpf_verify.specs.ByForm.{IsAt};
ghost use Rattle.bpf_verify.specs.Masks.{IsClear, ArrivesUnset, ShowsUnset, MaskAfter, PassesMask};

use crate::flow::instruction_at;
use bpf_insn::{
    Form, Insn, MAX_INSNS, SCRATCH_WORDS, Targets, reads_scratch, successors, writes_scratch,
};

/// For each index a mask of the scratch words that every path there has written.
pub(crate) fn written_masks(insns: &[Insn]) -> [u16; MAX_INSNS]
    requires { IsWellFormed insns.now }
    ensures { ShowsUnset insns.now result }
{
    let mut masks = first_masks();
    'places: for at in 0..insns.len() {
        let (form, insn) = fetch(insns, at);
        let mask = mask_after(masks[at], form, insn);
        pass_mask(&mut masks, form, insn, at, mask);
    }
    masks
}

/// The first instruction that reads a word which some path leaves unset: its index and the word.
pub(crate) fn first_unset(insns: &[Insn], masks: &[u16; MAX_INSNS]) -> Option<(u16, u32)>
    requires well_formed { IsWellFormed insns.now }
    requires masks { ShowsUnset insns.now masks.now }
    ensures none { IfNone result (NoUnsetReadBelow insns.now (length insns.now)) }
    ensures first { IfSome result (λ r. NoUnsetReadBelow insns.now r.0) }
    ensures reads { IfSome result (λ r. ReadsWord insns.now r.0 r.1) }
    ensures unset { IfSome result (λ r. ArrivesUnset insns.now r.0 r.1) }
{
    'reads: for at in 0..insns.len() {
        let (form, insn) = fetch(insns, at);
        if reads_scratch(form) && is_clear(masks[at], insn.k) {
            return Some((at as u16, insn.k));
        }
    }
    None
}

/// Whether a word's bit is clear in a mask.
pub(crate) fn is_clear(mask: u16, word: u32) -> bool
    requires { word < SCRATCH_WORDS }
    ensures { IsTrue result ↔ IsClear mask word }
{
    (mask >> word) & 1 == 0
}

/// The masks before the first instruction: no word is written there, and no other index is
/// reached yet.
fn first_masks() -> [u16; MAX_INSNS]
    ensures { result ≡ slice_set (replicate MAX_INSNS 65535) 0 0 }
{
    let mut masks = [u16::MAX; MAX_INSNS];
    masks[0] = 0;
    masks
}

/// The instruction at an index of a well-formed program, with its form.
fn fetch(insns: &[Insn], at: usize) -> (Form, Insn)
    requires well_formed { IsWellFormed insns.now }
    requires place { at < length insns.now }
    ensures { IsAt insns.now at result.0 result.1 }
{
    match instruction_at(insns, at) {
        Some(found) => found,
        None => unreachable!(),
    }
}

/// The words that are written after an instruction.
fn mask_after(mask: u16, form: Form, insn: Insn) -> u16
    requires { (word : ℕ) → FormWritesWord (Some form) insn word → word < SCRATCH_WORDS }
    ensures { MaskAfter form insn mask result }
{
    if writes_scratch(form) {
        with_word(mask, insn.k)
    } else {
        mask
    }
}

/// The mask with a word's bit set.
#[tactic(auto, using(crate::proofs::Bits::clear_set))]
fn with_word(mask: u16, word: u32) -> u16
    requires { word < SCRATCH_WORDS }
    ensures { (other : ℕ) → IsClear result other ↔ (IsClear mask other × (other ≢ word)) }
{
    mask | 1 << word
}

/// At each index to which the instruction leads, no more words are written than the mask says.
fn pass_mask(masks: &mut [u16; MAX_INSNS], form: Form, insn: Insn, at: usize, mask: u16)
    requires place { at < 2 ^ 16 }
    requires within { (to : ℕ) → FormLeads (Some form) insn at to → to < MAX_INSNS }
    ensures { PassesMask form insn at mask masks.old masks.new }
{
    match successors(form, insn, at) {
        Targets::Nowhere => {}
        Targets::One(next) => narrow(masks, next, mask),
        Targets::Two(one, other) => {
            narrow(masks, one, mask);
            narrow(masks, other, mask);
        }
    }
}

/// At an index, no more words are written than the mask says.
#[tactic(auto, using(crate::proofs::Bits::narrowed))]
fn narrow(masks: &mut [u16; MAX_INSNS], to: usize, mask: u16)
    requires { to < MAX_INSNS }
    ensures same { (at : ℕ) → at ≢ to → slice_index masks.new at ≡ slice_index masks.old at }
    ensures narrowed { (word : ℕ) → IsClear (slice_index masks.new to) word
        ↔ (IsClear (slice_index masks.old to) word ⊎ IsClear mask word) }
{
    masks[to] &= mask;
}
