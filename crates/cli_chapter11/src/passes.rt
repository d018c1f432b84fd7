//! Passes over what a whole file is written of.

use crate::summed::ByteSum;
use ch11_file::FileCounts;
use rec_whole::WholeEnd;
use std::alloc::Global;
use std::io::Write;

/// What a pass saw: how many packets the whole file has, and the sum of its bytes.
#[derive(Clone, Copy, Debug, PartialEq, Eq)]
pub(crate) struct Seen {
    pub counts: FileCounts,
    pub sum: ByteSum,
}

/// What a whole file is written of, more than once. It may be another one at the next pass.
pub(crate) trait Passes {
    ghost use Rattle.std.specs.Prelude.{ℕ, ◌≡◌, List, Option, IfOk, IfSome, MatchResult};
    ghost use Rattle.ch11_file.specs.declared.counts.FileCounts.{FileCounts};
    ghost use Rattle.rec_whole.specs.declared.refusal.WholeEnd.{WholeEnd};
    ghost use Rattle.cli_chapter11.specs.declared.passes.Seen.{Seen};

    // What it is at the next pass.
    ghost next: { Self → Self };

    // What a pass sees, if it says that.
    ghost sees: { Self → Option Seen };

    // How an output grows by its file, of which these are the counts.
    ghost writes: { Self → Option (List ℕ) → Option (List ℕ) → FileCounts → Type 0 };

    // What an output has where its file ends early, and why.
    ghost fails: { Self → Option (List ℕ) → Option (List ℕ) → WholeEnd → Type 0 };

    /// Writes its file into an output, and gives what it saw, and the output.
    fn pass<W: Write + Drop>(&mut self, alloc: Global, output: W) -> Result<(Seen, W), WholeEnd>
        ensures next { self.new ≡ next self.old }
        ensures seen { IfOk result (λ wrote. IfSome (sees self.old) (λ seen. wrote.0 ≡ seen)) }
        ensures wrote { MatchResult result
            (λ wrote. writes self.old (W.contents output) (W.contents wrote.1) wrote.0.counts)
            (λ end. (last : W) × fails self.old (W.contents output) (W.contents last) end) };
}
