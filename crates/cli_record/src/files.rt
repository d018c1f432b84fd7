//! The files that the settings of a channel name.

use bpf_verify::Verified;
use cli_record_streams::{Source, open_feed, read_filter};
use cli_streams::{CommandEnding, Inputs};
use eth_frame::FrameSource;
use std::alloc::{AllocError, AllocFailed};
use std::rt::Files;

/// What filters and feeds are opened by.
pub(crate) trait ChannelFiles {
    ghost use Rattle.std.specs.Prelude.{ℕ, ◌≡◌, Bool, List, Option, Some, IfOk, IfSome, string_bytes};
    ghost use Rattle.bpf_insn.specs.declared.insn.Insn.{Insn};
    ghost use Rattle.eth_frame.specs.Source.{Left};

    /// What a feed gives.
    type Feed: FrameSource + Drop;

    /// Why one can't be opened, or has nothing that can be recorded.
    type Fault: From<AllocError> + From<AllocFailed<Verified>> + Drop;

    // The program that the filter with a name lists, if that is said.
    ghost listed: { Self → (name : List ℕ) → Option (List Insn) };

    // What the feed with a name has for a channel of at most `max` frames, with time marks or without, if
    // that is said.
    ghost fed: { Self → (name : List ℕ) → (max : ℕ) → (timed : Bool) → Option Left };

    /// The program that a filter lists; its file is added to the inputs.
    fn filter(&self, name: String, inputs: &mut Inputs) -> Result<Verified, Self::Fault>
        ensures { IfOk result (λ program. IfSome (listed self.now (string_bytes name))
            (λ insns. program ≡ insns)) };

    /// A feed, whose file is added to the inputs and to the feeds.
    fn feed(
        &self,
        name: String,
        max: u64,
        timed: bool,
        inputs: &mut Inputs,
        feeds: &mut Inputs,
    ) -> Result<Self::Feed, Self::Fault>
        ensures { IfOk result (λ source. IfSome (fed self.now (string_bytes name) max timed)
            (λ left. Self.Feed.left source ≡ Some left)) };
}

/// The files of a runtime, which don't say what they have.
#[derive(Drop)]
pub(crate) struct NamedFiles<'r, R> {
    pub rt: &'r R,
}

impl<'r, R: AllocGlobal + Files> ChannelFiles for NamedFiles<'r, R> {
    ghost use Rattle.std.specs.Prelude.{None};

    type Feed = Source<R::File>;

    type Fault = CommandEnding<'static>;

    ghost listed = { λ _ _. None };

    ghost fed = { λ _ _ _ _. None };

    fn filter(
        &self,
        name: String,
        inputs: &mut Inputs,
    ) -> Result<Verified, CommandEnding<'static>> {
        read_filter(self.rt, name, inputs)
    }

    fn feed(
        &self,
        name: String,
        max: u64,
        timed: bool,
        inputs: &mut Inputs,
        feeds: &mut Inputs,
    ) -> Result<Source<R::File>, CommandEnding<'static>> {
        open_feed(self.rt, name, max, timed, inputs, feeds)
    }
}
