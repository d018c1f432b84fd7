//! The scratch words.
ghost use Rattle.std.specs.Prelude.{◌≡◌, ◌<◌, Some, slice_get, slice_set, replicate};

use bpf_insn::SCRATCH_WORDS;
use std::marker::Model;

/// The scratch words, each of which a contract sees as set. Which of them a program has set is stored
/// nowhere, since a verified program reads no other.
#[derive(Drop)]
pub(crate) struct Scratch {
    words: [u32; SCRATCH_WORDS],
}

impl Model for Scratch {
    ghost use Rattle.std.specs.Prelude.{List, Option, Some, ℕ, map};

    ghost Value = { List (Option ℕ) };

    ghost view = { λ s. map Some s.words };
}

impl Scratch {
    /// Each is 0.
    pub(crate) fn new() -> Scratch
        ensures { result ≡ replicate SCRATCH_WORDS (Some 0) }
    {
        Scratch {
            words: [0; SCRATCH_WORDS],
        }
    }

    /// A word.
    #[inline(always)]
    #[tactic(auto, using(crate::proofs::ScratchWords::words_read))]
    pub(crate) fn recall(&self, at: usize) -> u32
        requires { at < SCRATCH_WORDS }
        ensures { slice_get self.now at ≡ Some (Some result) }
    {
        self.words[at]
    }

    /// Sets a word.
    #[inline(always)]
    #[tactic(auto, using(crate::proofs::ScratchWords::words_set))]
    pub(crate) fn store(&mut self, at: usize, word: u32)
        requires { at < SCRATCH_WORDS }
        ensures { self.new ≡ slice_set self.old at (Some word) }
    {
        self.words[at] = word;
    }
}
